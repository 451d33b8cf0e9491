//! The writer of a JSON text: tokens, one after another, and arrays of texts.
ghost use Rattle.json.specs.Print.{IsPrintable};
ghost use Rattle.json.specs.Reads.{token_of};

use json::{Pretty, Token};
use std::alloc::Global;

/// The tokens of a JSON text, written one after another. If memory runs out that is kept in it, so that a token has no failure of its own.
#[derive(Drop)]
pub(crate) struct Output {
    pub(crate) alloc: Global,
    pub(crate) pretty: Pretty,
    pub(crate) is_short: bool,
}

impl Output {
    /// Returns a writer that has nothing.
    pub(crate) fn new(alloc: Global) -> Output {
        Output {
            alloc,
            pretty: Pretty::new(alloc),
            is_short: false,
        }
    }

    /// Writes a token.
    pub(crate) fn put(&mut self, token: Token<'_>)
        requires { IsPrintable (token_of token) }
    {
        if self.pretty.token(token).is_err() {
            self.is_short = true;
        }
    }

    /// Writes a text.
    pub(crate) fn put_text(&mut self, text: &str) {
        self.put(Token::String(text));
    }

    /// Writes a member that is a text.
    pub(crate) fn put_member(&mut self, name: &str, text: &str) {
        self.put(Token::Key(name));
        self.put(Token::String(text));
    }

    /// Writes the name of a member that is an array, and begins the array.
    pub(crate) fn begin_array(&mut self, name: &str) {
        self.put(Token::Key(name));
        self.put(Token::BeginArray);
    }

    /// Writes a member that is an array of texts.
    pub(crate) fn put_texts(&mut self, name: &str, texts: &[String]) {
        self.begin_array(name);
        for text in texts {
            self.put_text(text.as_str());
        }
        self.put(Token::EndArray);
    }
}
