//! How deep tokens nest, looked for before the grammar. The parsers' depth of calls is bounded by it: a phrase in a phrase stands
//! after a `(` or an operator before its operand.

ghost use Rattle.std.specs.Prelude.{◌≡◌, ◌≤◌, ◌↔◌, IsTrue};
ghost use Rattle.odata_lex.specs.Lexer.{AreTokens};
ghost use Rattle.odata_lex.specs.Token.{token_views};
ghost use Rattle.odata_parse.specs.declared.tree.UnaryOperator.{UnaryOperator};
ghost use Rattle.odata_parse.specs.Cursor.{lexeme_view};
ghost use Rattle.odata_parse.specs.Depth.{OpensTooMany, RepeatsOperators, IsTooDeep, IsPrefixToken, open_behind, slashes};
ghost use Rattle.odata_parse.specs.Expression.{IsUnaryOperator};

use crate::cursor::{Cursor, Lexeme};
use crate::keyword::spells;
use odata_lex::{Token, TokenKind};

/// The most `(` that may be open at one place.
pub const MAX_OPEN: usize = 32;

/// The most operators in a row before an operand.
pub const MAX_OPERATORS: usize = 8;

/// Returns how many `(` are open after a token.
fn open_behind(before: usize, kind: TokenKind) -> usize
    requires { before ≤ MAX_OPEN }
    ensures { result ≡ open_behind before kind }
{
    match kind {
        TokenKind::OpenParenthesis => before + 1,
        TokenKind::CloseParenthesis => before.saturating_sub(1),
        _ => before,
    }
}

/// Returns true if more `(` than [`MAX_OPEN`] are open at some place.
fn opens_too_many(source: &str, tokens: &[Token]) -> bool
    requires { AreTokens source.now tokens.now }
    ensures { IsTrue result ↔ OpensTooMany (token_views source.now tokens.now) }
{
    let mut rest = Cursor::new(source, tokens);
    let mut before = 0;
    while let Some(token) = rest.next() {
        before = open_behind(before, token.kind);
        if before > MAX_OPEN {
            return true;
        }
    }
    false
}

/// Returns true if a token is `-` or `not`.
fn is_operator(token: Lexeme<'_>) -> bool
    ensures yes { IsTrue result → IsPrefixToken (lexeme_view token.entry) }
    ensures no { (o : UnaryOperator) → IsUnaryOperator o (lexeme_view token.entry) → IsTrue result }
{
    token.kind == TokenKind::Minus || token.kind == TokenKind::Word && spells(token.text, "not")
}

/// Returns true if more than [`MAX_OPERATORS`] tokens `-` or `not` follow each other.
fn repeats_operators(source: &str, tokens: &[Token]) -> bool
    requires { AreTokens source.now tokens.now }
    ensures { IsTrue result ↔ RepeatsOperators (token_views source.now tokens.now) }
{
    let mut rest = Cursor::new(source, tokens);
    let mut run = 0;
    while let Some(token) = rest.next() {
        if !is_operator(token) {
            run = 0;
            continue;
        }
        if run == MAX_OPERATORS {
            return true;
        }
        run += 1;
    }
    false
}

/// Returns true if the tokens nest deeper than this service takes.
pub(crate) fn is_too_deep(source: &str, tokens: &[Token]) -> bool
    requires { AreTokens source.now tokens.now }
    ensures { IsTrue result ↔ IsTooDeep (token_views source.now tokens.now) }
{
    opens_too_many(source, tokens) || repeats_operators(source, tokens)
}

/// Returns true if there are as many tokens `/` as the limit, or more.
pub(crate) fn has_slashes(source: &str, tokens: &[Token], limit: u32) -> bool
    requires { AreTokens source.now tokens.now }
    ensures { IsTrue result ↔ (limit ≤ slashes (token_views source.now tokens.now)) }
{
    let mut rest = Cursor::new(source, tokens);
    let mut left = limit;
    while let Some(token) = rest.next() {
        if token.kind == TokenKind::Slash {
            left = left.saturating_sub(1);
        }
    }
    left == 0
}
