//! Lists of items with a sign between each two.

ghost use Rattle.std.specs.Prelude.{◌<◌, List, length, OnOk};
ghost use Rattle.odata_lex.specs.Token.{TokenOf};
ghost use Rattle.odata_parse.specs.Parsing.{IsSeparator, IsAfterItem, Finds, Parses};
ghost use Rattle.odata_parse.specs.ParsingList.{FindsList, ParsesList, FindsEnclosed, ParsesEnclosed};

use crate::cursor::Cursor;
use crate::fault::PhraseFault;
use odata_lex::TokenKind;
use std::alloc::Global;

/// What may be an item of a list.
pub(crate) trait Item: Sized {
    ghost Tree: { Type 0 };

    ghost tree: { Self → Tree };

    ghost reads: { List TokenOf → Tree → List TokenOf → Type 0 };

    /// Reads an item.
    fn read(alloc: Global, tokens: &mut Cursor<'_>) -> Result<Self, PhraseFault>
        ensures found { Finds tree reads tokens.old result tokens.new }
        ensures each { Parses tree reads IsAfterItem tokens.old result tokens.new }
        ensures shorter { OnOk result (length tokens.new < length tokens.old) };
}

/// Reads items with a sign between each two, as many as there are.
pub(crate) fn list<T: Item + Drop>(
    alloc: Global,
    tokens: &mut Cursor<'_>,
    separator: TokenKind,
) -> Result<Vec<T>, PhraseFault>
    requires { IsSeparator separator }
    ensures found { FindsList T.tree T.reads separator tokens.old result tokens.new }
    ensures each { ParsesList T.tree T.reads separator tokens.old result tokens.new }
    ensures shorter { OnOk result (length tokens.new < length tokens.old) }
{
    let mut items = Vec::new(alloc);
    items.push(T::read(alloc, tokens)?)?;
    while let Some(_) = tokens.take(separator) {
        items.push(T::read(alloc, tokens)?)?;
    }
    Ok(items)
}

/// Reads such items in parentheses.
pub(crate) fn enclosed<T: Item + Drop>(
    alloc: Global,
    tokens: &mut Cursor<'_>,
    separator: TokenKind,
) -> Result<Vec<T>, PhraseFault>
    requires { IsSeparator separator }
    ensures found { FindsEnclosed T.tree T.reads separator tokens.old result tokens.new }
    ensures each { ParsesEnclosed T.tree T.reads separator tokens.old result tokens.new }
    ensures shorter { OnOk result (length tokens.new < length tokens.old) }
{
    tokens.expect(TokenKind::OpenParenthesis)?;
    let items = list::<T>(alloc, tokens, separator)?;
    tokens.expect(TokenKind::CloseParenthesis)?;
    Ok(items)
}
