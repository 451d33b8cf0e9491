//! Values written in expressions (OData 4.01 URL Conventions, section 5.1.1.14.1).

ghost use Rattle.std.specs.Prelude.{◌≡◌, ◌<◌, pos, length, string_bytes, IfOk, IfErr, OnOk, IfSome, IfNone};
ghost use Rattle.std.specs.Str.Parse.{digits_value};
ghost use Rattle.odata_lex.specs.Token.{IsDecimal, IsNumberToken, IsTextToken, IsDateToken, IsOfTokenKind};
ghost use Rattle.odata_parse.specs.Cursor.{lexeme_view};
ghost use Rattle.odata_parse.specs.Literal.{IsLiteral, IsLiteralOfKind, FailsLiteral, IsWordLiteral, Quotes, ReadsNegative, millionths_of, ReadsLiteral};
ghost use Rattle.odata_parse.specs.Parsing.{Finds, ParsesAll};
ghost use Rattle.odata_parse.specs.Tree.{LiteralOf, literal_view};

use crate::cursor::{Cursor, Lexeme};
use crate::fault::PhraseFault;
use crate::keyword::spells;
use crate::list::Item;
use crate::tree::Literal;
use odata_lex::{MAX_FRACTION_DIGITS, TokenKind, date_in};
use std::alloc::{AllocError, Global};

/// One, in millionths.
const MILLION: i128 = 1_000_000;

/// Returns the number that digits write.
fn number(digits: &str) -> i128
    requires { IsNumberToken digits.now }
    ensures { result ≡ pos (digits_value 10 digits.now) }
{
    digits.parse::<i128>().unwrap()
}

/// Returns the millionths that a decimal writes.
fn millionths(text: &str) -> i128
    requires { IsDecimal text.now }
    ensures { result ≡ pos (millionths_of text.now) }
{
    let (whole, fraction) = text.split_once('.').unwrap();
    let scale = 10_u32.pow((MAX_FRACTION_DIGITS - fraction.len()) as u32);
    number(whole) * MILLION + number(fraction) * i128::from(scale)
}

/// Returns the day that a date writes.
fn date(text: &str) -> Literal
    requires { IsDateToken text.now }
    ensures { IsLiteralOfKind TokenKind.Date text.now (literal_view result) }
{
    Literal::Date(date_in(text.as_bytes()).unwrap())
}

/// Returns what stands between quotes, each doubled quote made one.
fn content(alloc: Global, quoted: &str) -> Result<String, AllocError>
    requires { IsTextToken quoted.now }
    ensures { IfOk result (λ s. Quotes (string_bytes s) quoted.now) }
{
    let mut content = String::new(alloc);
    let mut rest = &quoted[1..quoted.len() - 1];
    while let Some(at) = rest.find('\'') {
        content.push_str(&rest[..at + 1])?;
        rest = &rest[at + 2..];
    }
    content.push_str(rest)?;
    Ok(content)
}

/// Returns the literal that a word is: `true`, `false` or `null`.
pub(crate) fn word_literal(text: &str) -> Option<Literal>
    ensures some { IfSome result (λ v. IsWordLiteral text.now (literal_view v)) }
    ensures none { IfNone result ((v : LiteralOf) → ¬ (IsWordLiteral text.now v)) }
{
    if spells(text, "true") {
        Some(Literal::Boolean(true))
    } else if spells(text, "false") {
        Some(Literal::Boolean(false))
    } else if spells(text, "null") {
        Some(Literal::Null)
    } else {
        None
    }
}

/// Returns the value that a token is.
pub(crate) fn literal_of(alloc: Global, lexeme: Lexeme<'_>) -> Result<Literal, PhraseFault>
    requires { IsOfTokenKind lexeme.kind lexeme.text.now }
    ensures found { IfOk result (λ v. IsLiteral (lexeme_view lexeme.entry) (literal_view v)) }
    ensures none { IfErr result (FailsLiteral (lexeme_view lexeme.entry)) }
{
    match lexeme.kind {
        TokenKind::Number => Ok(Literal::Number(number(lexeme.text))),
        TokenKind::Decimal => Ok(Literal::Decimal(millionths(lexeme.text))),
        TokenKind::Date => Ok(date(lexeme.text)),
        TokenKind::Text => Ok(Literal::Text(content(alloc, lexeme.text)?)),
        TokenKind::Word => word_literal(lexeme.text).ok_or(PhraseFault::Syntax),
        _ => Err(PhraseFault::Syntax),
    }
}

/// Reads a number or a decimal after `-`.
fn negative(tokens: &mut Cursor<'_>) -> Result<Literal, PhraseFault>
    ensures found { Finds literal_view ReadsNegative tokens.old result tokens.new }
    ensures each { ParsesAll literal_view ReadsNegative tokens.old result tokens.new }
    ensures shorter { OnOk result (length tokens.new < length tokens.old) }
{
    if let Some(decimal) = tokens.take(TokenKind::Decimal) {
        return Ok(Literal::Decimal(-millionths(decimal.text)));
    }
    let digits = tokens.expect(TokenKind::Number)?;
    Ok(Literal::Number(-number(digits.text)))
}

impl Item for Literal {
    ghost Tree = { LiteralOf };

    ghost tree = { literal_view };

    ghost reads = { ReadsLiteral };

    fn read(alloc: Global, tokens: &mut Cursor<'_>) -> Result<Literal, PhraseFault> {
        let Some(first) = tokens.next() else {
            return Err(PhraseFault::Syntax);
        };
        match first.kind {
            TokenKind::Minus => negative(tokens),
            _ => Ok(literal_of(alloc, first)?),
        }
    }
}
