//! The tokens that are left to read.

ghost use Rattle.std.specs.Prelude.{◌≡◌, ◌≢◌, List, [], ◌∷◌, drop, IfSome, IfNone, IfOk, IfErr, OnOk, OnErr};
ghost use Rattle.std.specs.List.{All};
ghost use Rattle.odata_lex.specs.Lexer.{AreTokens, IsTokenAt};
ghost use Rattle.odata_lex.specs.Token.{IsOfTokenKind, TokenOf, token_views};
ghost use Rattle.odata_parse.specs.Keyword.{IsKeyword, lower};
ghost use Rattle.odata_parse.specs.Cursor.{lexeme_view, NotFirst, TakesKind, StaysNoKind, TakesKeyword, StaysNoKeyword};

use crate::fault::PhraseFault;
use crate::keyword::spells;
use odata_lex::{Token, TokenKind};
use std::marker::Model;

/// A token and its text.
#[derive(Clone, Copy)]
pub(crate) struct Lexeme<'a> {
    pub(crate) kind: TokenKind,
    pub(crate) text: &'a str,
}

/// Goes over the tokens of a text. To a contract it is the tokens that are left.
#[derive(Drop)]
pub(crate) struct Cursor<'a> {
    source: &'a str,
    rest: &'a [Token],
}

impl<'a> Model for Cursor<'a> {
    ghost Value = { List TokenOf };

    ghost view = { λ c. token_views c.source.now c.rest.now };

    ghost invariant = { λ c. All (IsTokenAt c.source.now) c.rest.now };
}

impl<'a> Cursor<'a> {
    pub(crate) fn new(source: &'a str, tokens: &'a [Token]) -> Self
        requires { AreTokens source.now tokens.now }
        ensures { result ≡ token_views source.now tokens.now }
    {
        Cursor {
            source,
            rest: tokens,
        }
    }

    /// Returns the next token, which stays.
    pub(crate) fn peek(&self) -> Option<Lexeme<'a>>
        ensures some { IfSome result (λ l. self.now ≡ lexeme_view l ∷ drop 1 self.now) }
        ensures form { IfSome result (λ l. IsOfTokenKind l.kind l.text.now) }
        ensures none { IfNone result (self.now ≡ []) }
    {
        let token = *self.rest.first()?;
        Some(Lexeme {
            kind: token.kind,
            text: &self.source[token.start..token.end],
        })
    }

    /// Goes past the next token.
    pub(crate) fn skip(&mut self)
        ensures { self.new ≡ drop 1 self.old }
    {
        let rest = self.rest;
        if !rest.is_empty() {
            self.rest = &rest[1..];
        }
    }

    /// Takes the next token.
    pub(crate) fn next(&mut self) -> Option<Lexeme<'a>>
        ensures some { IfSome result (λ l. self.old ≡ lexeme_view l ∷ self.new) }
        ensures form { IfSome result (λ l. IsOfTokenKind l.kind l.text.now) }
        ensures none { IfNone result ((self.old ≡ []) × (self.new ≡ [])) }
    {
        let first = self.peek();
        self.skip();
        first
    }

    /// Takes the next token if it is of a kind.
    pub(crate) fn take(&mut self, kind: TokenKind) -> Option<Lexeme<'a>>
        ensures some { IfSome result (λ l. TakesKind kind l self.old self.new) }
        ensures form { IfSome result (λ l. IsOfTokenKind l.kind l.text.now) }
        ensures none { IfNone result (StaysNoKind kind self.old self.new) }
    {
        let first = self.peek()?;
        if first.kind != kind {
            return None;
        }
        self.skip();
        Some(first)
    }

    /// Takes the next token if it is a keyword.
    pub(crate) fn take_keyword(&mut self, keyword: &str) -> Option<Lexeme<'a>>
        ensures some { IfSome result (λ l. TakesKeyword (lower keyword.now) l self.old self.new) }
        ensures none { IfNone result (StaysNoKeyword (lower keyword.now) self.old self.new) }
    {
        let first = self.peek()?;
        if first.kind != TokenKind::Word || !spells(first.text, keyword) {
            return None;
        }
        self.skip();
        Some(first)
    }

    /// Takes the next token, which has to be of a kind.
    pub(crate) fn expect(&mut self, kind: TokenKind) -> Result<Lexeme<'a>, PhraseFault>
        ensures ok { IfOk result (λ l. TakesKind kind l self.old self.new) }
        ensures form { IfOk result (λ l. IsOfTokenKind l.kind l.text.now) }
        ensures err { OnErr result (NotFirst (λ t. t.kind ≡ kind) self.old) }
        ensures fault { IfErr result (λ e. e ≡ PhraseFault.Syntax) }
    {
        self.take(kind).ok_or(PhraseFault::Syntax)
    }

    /// Takes the next token, which has to be a keyword.
    pub(crate) fn expect_keyword(&mut self, keyword: &str) -> Result<Lexeme<'a>, PhraseFault>
        ensures ok { IfOk result (λ l. TakesKeyword (lower keyword.now) l self.old self.new) }
        ensures err { OnErr result (NotFirst (IsKeyword (lower keyword.now)) self.old) }
        ensures fault { IfErr result (λ e. e ≡ PhraseFault.Syntax) }
    {
        self.take_keyword(keyword).ok_or(PhraseFault::Syntax)
    }

    /// Checks that no token is left.
    pub(crate) fn end(&self) -> Result<(), PhraseFault>
        ensures ok { OnOk result (self.now ≡ []) }
        ensures err { OnErr result (self.now ≢ []) }
        ensures fault { IfErr result (λ e. e ≡ PhraseFault.Syntax) }
    {
        if self.rest.is_empty() {
            Ok(())
        } else {
            Err(PhraseFault::Syntax)
        }
    }
}
