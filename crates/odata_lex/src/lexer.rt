//! Reads a text once, token by token.

ghost use Rattle.std.specs.Prelude.{◌≡◌, IfOk, IfErr, IsErrAnd, IsUtf8};
ghost use Rattle.odata_lex.specs.Lexer.{is_blank, AreTokens, HasTokens, IsBad, IsTooMany, IsFault, IsOrNoMemory};

use crate::fault::LexFault;
use crate::first::first_token;
use crate::token::{MAX_TOKENS, Token};
use std::alloc::Global;

// A space or a tab.
fn is_blank(b: u8) -> bool
    ensures { result ≡ is_blank b }
{
    b == b' ' || b == b'\t'
}

// The tokens of a text, or its fault.
fn read_tokens(alloc: Global, bytes: &[u8]) -> Result<Vec<Token>, LexFault>
    requires { IsUtf8 bytes.now }
    ensures tokens { IfOk result (λ tokens. AreTokens bytes.now tokens.items) }
    ensures fault { IfErr result (IsFault bytes.now) }
{
    let mut tokens = Vec::new(alloc);
    let mut place = 0;
    while place < bytes.len() {
        if is_blank(bytes[place]) {
            place += 1;
            continue;
        }
        let Some((kind, len)) = first_token(&bytes[place..]) else {
            return Err(LexFault::Bad);
        };
        if tokens.len() == MAX_TOKENS {
            return Err(LexFault::TooMany);
        }
        let end = place + len;
        tokens.push(Token {
            kind,
            start: place,
            end,
        })?;
        place = end;
    }
    Ok(tokens)
}

/// Returns the tokens of a text, in order: spaces and tabs part them, and at each place the first kind that fits is taken. `Bad` if
/// neither a space, a tab nor a token begins at some place, and no more than [`MAX_TOKENS`] tokens stand before the first such
/// place; `TooMany` where more stand before it, or before the end.
pub fn lex(alloc: Global, source: &str) -> Result<Vec<Token>, LexFault>
    ensures tokens { IfOk result (λ tokens. AreTokens source.now tokens.items) }
    ensures fault { IfErr result (IsFault source.now) }

    // The other way round: memory may be wanting for each.
    ensures has_tokens { HasTokens source.now → IfErr result (λ e. e ≡ LexFault.NoMemory) }
    ensures is_bad { IsBad source.now → IsErrAnd result (IsOrNoMemory LexFault.Bad) }
    ensures is_too_many { IsTooMany source.now → IsErrAnd result (IsOrNoMemory LexFault.TooMany) }
{
    read_tokens(alloc, source.as_bytes())
}
