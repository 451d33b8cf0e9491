//! `$orderby`, `$select` and keys (OData 4.01 URL Conventions, sections 5.1.5, 5.1.4 and 4.3.1; OData ABNF Construction Rules,
//! section 1).

ghost use Rattle.std.specs.Prelude.{◌↔◌, IsTrue};
ghost use Rattle.odata_lex.specs.Lexer.{AreTokens};
ghost use Rattle.odata_lex.specs.Token.{token_views};
ghost use Rattle.odata_parse.specs.Options.{IsOrder, IsSelection, IsKey, ReadsOrderItem, ReadsSelectItem, ReadsKeyPair};
ghost use Rattle.odata_parse.specs.Parsing.{HasEqualsSign, IsParsed};
ghost use Rattle.odata_parse.specs.Tree.{order_by_view, selection_view, key_view, OrderItemOf, order_item_view, SelectItemOf, select_item_view, KeyPairOf, key_pair_view};

use crate::cursor::Cursor;
use crate::expression::{TOP, phrase};
use crate::fault::{ParseFault, PhraseFault};
use crate::list::Item;
use crate::tree::{Key, KeyPair, Literal, OrderItem, SelectItem};
use crate::whole::{whole_item, whole_list};
use odata_lex::{Token, TokenKind};
use std::alloc::Global;

impl Item for OrderItem {
    ghost Tree = { OrderItemOf };

    ghost tree = { order_item_view };

    ghost reads = { ReadsOrderItem };

    fn read(alloc: Global, tokens: &mut Cursor<'_>) -> Result<OrderItem, PhraseFault> {
        let expression = phrase(alloc, tokens, TOP)?;
        if let Some(_) = tokens.take_keyword("desc") {
            return Ok(OrderItem {
                expression,
                descending: true,
            });
        }
        if let Some(_) = tokens.take_keyword("asc") {
            return Ok(OrderItem {
                expression,
                descending: false,
            });
        }
        Ok(OrderItem {
            expression,
            descending: false,
        })
    }
}

/// Returns the items by which rows are ordered, at least one.
pub fn parse_orderby(
    alloc: Global,
    source: &str,
    tokens: &[Token],
) -> Result<Vec<OrderItem>, ParseFault>
    requires { AreTokens source.now tokens.now }
    ensures { IsParsed order_by_view IsOrder source.now tokens.now result }
{
    whole_list::<OrderItem>(alloc, source, tokens, TokenKind::Comma)
}

impl Item for SelectItem {
    ghost Tree = { SelectItemOf };

    ghost tree = { select_item_view };

    ghost reads = { ReadsSelectItem };

    fn read(alloc: Global, tokens: &mut Cursor<'_>) -> Result<SelectItem, PhraseFault> {
        let Some(first) = tokens.next() else {
            return Err(PhraseFault::Syntax);
        };
        match first.kind {
            TokenKind::Star => Ok(SelectItem::All),
            TokenKind::Word => Ok(SelectItem::Name(String::from_str(alloc, first.text)?)),
            _ => Err(PhraseFault::Syntax),
        }
    }
}

/// Returns the columns that are selected, at least one item.
pub fn parse_select(
    alloc: Global,
    source: &str,
    tokens: &[Token],
) -> Result<Vec<SelectItem>, ParseFault>
    requires { AreTokens source.now tokens.now }
    ensures { IsParsed selection_view IsSelection source.now tokens.now result }
{
    whole_list::<SelectItem>(alloc, source, tokens, TokenKind::Comma)
}

impl Item for KeyPair {
    ghost Tree = { KeyPairOf };

    ghost tree = { key_pair_view };

    ghost reads = { ReadsKeyPair };

    fn read(alloc: Global, tokens: &mut Cursor<'_>) -> Result<KeyPair, PhraseFault> {
        let name = tokens.expect(TokenKind::Word)?;
        tokens.expect(TokenKind::EqualsSign)?;
        let value = Literal::read(alloc, tokens)?;
        Ok(KeyPair {
            name: String::from_str(alloc, name.text)?,
            value,
        })
    }
}

/// Returns true if the second token is `=`.
fn names_columns(source: &str, tokens: &[Token]) -> bool
    requires { AreTokens source.now tokens.now }
    ensures { IsTrue result ↔ HasEqualsSign (token_views source.now tokens.now) }
{
    let mut rest = Cursor::new(source, tokens);
    rest.skip();
    rest.take(TokenKind::EqualsSign).is_some()
}

/// Returns the key that all the tokens are: a value alone, or columns and their values.
pub fn parse_key(alloc: Global, source: &str, tokens: &[Token]) -> Result<Key, ParseFault>
    requires { AreTokens source.now tokens.now }
    ensures { IsParsed key_view IsKey source.now tokens.now result }
{
    if names_columns(source, tokens) {
        let pairs = whole_list::<KeyPair>(alloc, source, tokens, TokenKind::Comma)?;
        return Ok(Key::Named(pairs));
    }
    let value = whole_item::<Literal>(alloc, source, tokens)?;
    Ok(Key::Single(value))
}
