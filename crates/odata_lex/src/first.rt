//! The token that a text begins with. The kinds differ in their first byte, but for dates, decimals and numbers: where the form of a
//! date or of a decimal begins, that is read and no number.

ghost use Rattle.std.specs.Prelude.{◌≡◌, ◌≤◌, ◌<◌, length, false, IsTrue, IfSome};
ghost use Rattle.odata_lex.specs.Token.{is_word_byte, begins_word};
ghost use Rattle.odata_lex.specs.First.{ends_word, word_len, text_len, begins_date, date_token, begins_fraction, begins_decimal, decimal_token, number_token, digit_token, dollar_token, sign_token, first_token};

use crate::date::{DATE_LEN, are_digits, date_in, is_date_form};
use crate::token::{MAX_DIGITS, MAX_FRACTION_DIGITS, MAX_WHOLE_DIGITS, TokenKind};

// A letter or `_`.
fn begins_word(b: u8) -> bool
    ensures { result ≡ begins_word b }
{
    b.is_ascii_alphabetic() || b == b'_'
}

// A letter, a digit or `_`.
fn is_word_byte(b: u8) -> bool
    ensures { result ≡ is_word_byte b }
{
    b.is_ascii_alphanumeric() || b == b'_'
}

// How many letters, digits and `_` the text begins with.
fn word_len(text: &[u8]) -> usize
    ensures value { result ≡ word_len text.now }
    ensures within { result ≤ length text.now }
{
    text.iter().take_while(|b| is_word_byte(**b)).count()
}

// Whether neither a letter, a digit nor `_` begins the text.
fn ends_word(text: &[u8]) -> bool
    ensures { result ≡ ends_word text.now }
{
    match text {
        [] => true,
        [first, ..] => !is_word_byte(*first),
    }
}

// How many bytes a Text has after its first `'`; none if it does not end.
fn text_len(text: &[u8]) -> Option<usize>
    ensures value { result ≡ text_len false text.now }
    ensures within { IfSome result (λ len. len ≤ length text.now) }
{
    let mut closed = false;
    for (i, b) in text.iter().enumerate() {
        if *b == b'\'' {
            closed = !closed;
        } else if closed {
            return Some(i);
        }
    }
    if closed { Some(text.len()) } else { None }
}

// Whether the form of a date begins the text.
fn begins_date(text: &[u8]) -> bool
    ensures { result ≡ begins_date text.now }
{
    match text.split_at_checked(DATE_LEN) {
        Some((front, after)) => is_date_form(front) && ends_word(after),
        None => false,
    }
}

fn date_token(text: &[u8]) -> Option<(TokenKind, usize)>
    requires { IsTrue (begins_date text.now) }
    ensures { result ≡ date_token text.now }
{
    if date_in(&text[..DATE_LEN]).is_some() {
        Some((TokenKind::Date, DATE_LEN))
    } else {
        None
    }
}

// Whether `.` and a digit begin the text.
fn begins_fraction(text: &[u8]) -> bool
    ensures { result ≡ begins_fraction text.now }
{
    match text {
        [point, digit, ..] => *point == b'.' && digit.is_ascii_digit(),
        _ => false,
    }
}

// Whether digits, `.` and a digit begin the text.
fn begins_decimal(text: &[u8]) -> bool
    ensures { result ≡ begins_decimal text.now }
{
    let len = word_len(text);
    are_digits(&text[..len]) && begins_fraction(&text[len..])
}

fn decimal_token(text: &[u8]) -> Option<(TokenKind, usize)>
    requires { IsTrue (begins_decimal text.now) }
    ensures { result ≡ decimal_token text.now }
{
    let whole = word_len(text);
    let fraction = &text[whole + 1..];
    let len = word_len(fraction);
    if whole <= MAX_WHOLE_DIGITS && len <= MAX_FRACTION_DIGITS && are_digits(&fraction[..len]) {
        Some((TokenKind::Decimal, whole + 1 + len))
    } else {
        None
    }
}

fn number_token(text: &[u8]) -> Option<(TokenKind, usize)>
    ensures { result ≡ number_token text.now }
{
    let len = word_len(text);
    if len <= MAX_DIGITS && are_digits(&text[..len]) {
        Some((TokenKind::Number, len))
    } else {
        None
    }
}

// What begins with a digit.
fn digit_token(text: &[u8]) -> Option<(TokenKind, usize)>
    ensures { result ≡ digit_token text.now }
{
    if begins_date(text) {
        date_token(text)
    } else if begins_decimal(text) {
        decimal_token(text)
    } else {
        number_token(text)
    }
}

fn dollar_token(name: &[u8]) -> Option<(TokenKind, usize)>
    requires { length name.now < usize.MAX }
    ensures { result ≡ dollar_token name.now }
{
    match name {
        [first, ..] if begins_word(*first) => Some((TokenKind::Dollar, 1 + word_len(name))),
        _ => None,
    }
}

fn sign_token(b: u8) -> Option<(TokenKind, usize)>
    ensures { result ≡ sign_token b }
{
    let kind = match b {
        b'(' => TokenKind::OpenParenthesis,
        b')' => TokenKind::CloseParenthesis,
        b',' => TokenKind::Comma,
        b'/' => TokenKind::Slash,
        b'-' => TokenKind::Minus,
        b'*' => TokenKind::Star,
        b'=' => TokenKind::EqualsSign,
        _ => return None,
    };
    Some((kind, 1))
}

/// Returns the kind and the length of the token that the text begins with.
pub fn first_token(text: &[u8]) -> Option<(TokenKind, usize)>
    ensures { result ≡ first_token text.now }
{
    let [first, ..] = text else {
        return None;
    };
    if *first == b'\'' {
        let len = text_len(&text[1..])?;
        return Some((TokenKind::Text, len + 1));
    }
    if first.is_ascii_digit() {
        return digit_token(text);
    }
    if begins_word(*first) {
        return Some((TokenKind::Word, word_len(text)));
    }
    if *first == b'$' {
        return dollar_token(&text[1..]);
    }
    sign_token(*first)
}
