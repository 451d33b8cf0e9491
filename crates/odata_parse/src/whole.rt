//! What all the tokens are.

ghost use Rattle.odata_lex.specs.Lexer.{AreTokens};
ghost use Rattle.odata_parse.specs.List.{IsListOf};
ghost use Rattle.odata_parse.specs.Parsing.{IsSeparator, AreAll, IsParsed, item_trees};

use crate::cursor::Cursor;
use crate::depth::is_too_deep;
use crate::fault::ParseFault;
use crate::list::{Item, list};
use odata_lex::{Token, TokenKind};
use std::alloc::Global;

/// Reads one item, and nothing after it.
pub(crate) fn whole_item<T: Item + Drop>(
    alloc: Global,
    source: &str,
    tokens: &[Token],
) -> Result<T, ParseFault>
    requires { AreTokens source.now tokens.now }
    ensures { IsParsed T.tree (AreAll T.reads) source.now tokens.now result }
{
    if is_too_deep(source, tokens) {
        return Err(ParseFault::TooDeep);
    }
    let mut rest = Cursor::new(source, tokens);
    let item = T::read(alloc, &mut rest)?;
    rest.end()?;
    Ok(item)
}

/// Reads items with a sign between each two, and nothing after them.
pub(crate) fn whole_list<T: Item + Drop>(
    alloc: Global,
    source: &str,
    tokens: &[Token],
    sign: TokenKind,
) -> Result<Vec<T>, ParseFault>
    requires tokens { AreTokens source.now tokens.now }
    requires sign { IsSeparator sign }
    ensures { IsParsed (item_trees T.tree) (IsListOf T.reads sign) source.now tokens.now result }
{
    if is_too_deep(source, tokens) {
        return Err(ParseFault::TooDeep);
    }
    let mut rest = Cursor::new(source, tokens);
    let items = list::<T>(alloc, &mut rest, sign)?;
    rest.end()?;
    Ok(items)
}
