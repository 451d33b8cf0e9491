//! The tokens of expressions, and the values of `$skip`, `$top` and `$count`, written by hand after OData 4.01 URL Conventions (section 5.1)
//! and the OData ABNF Construction Rules (sections 6, 7 and 9).
use odata_lex::{date_in, lex};
use odata_parse::{parse_flag, parse_number};
use std::alloc::Global;
use std::process::Abort;
use std::test::Fail;

/// Texts, and the kind and the place of each token, separated by spaces, or the fault.
const TOKENS: &[(&str, &str)] = &[
    // kinds and places
    ("", ""),
    (" \t ", ""),
    ("Id eq 'a'", "Word 0..2 Word 3..5 Text 6..9"),
    ("\tA  le\t-1 ", "Word 1..2 Word 4..6 Minus 7..8 Number 8..9"),
    (
        "(),/-*=",
        "OpenParenthesis 0..1 CloseParenthesis 1..2 Comma 2..3 Slash 3..4 Minus 4..5 Star 5..6 EqualsSign 6..7",
    ),
    ("_a1,A_", "Word 0..3 Comma 3..4 Word 4..6"),
    ("$count as n", "Dollar 0..6 Word 7..9 Word 10..11"),
    (
        "sum(V)",
        "Word 0..3 OpenParenthesis 3..4 Word 4..5 CloseParenthesis 5..6",
    ),
    // any other character, and what only begins a token
    ("Id eq #", "Bad"),
    ("a\nb", "Bad"),
    ("Łódź", "Bad"),
    ("aé", "Bad"),
    ("$", "Bad"),
    ("$ a", "Bad"),
    ("$1", "Bad"),
    ("$$a", "Bad"),
    // texts
    ("''", "Text 0..2"),
    ("''''", "Text 0..4"),
    ("'O''Hara'", "Text 0..9"),
    ("'a''b''' x", "Text 0..8 Word 9..10"),
    ("'Łódź'", "Text 0..9"),
    ("'#\n\"' eq 1", "Text 0..5 Word 6..8 Number 9..10"),
    ("'a' 'b'", "Text 0..3 Text 4..7"),
    ("'a'b", "Text 0..3 Word 3..4"),
    ("1'a'", "Number 0..1 Text 1..4"),
    // no end
    ("'", "Bad"),
    ("'a", "Bad"),
    ("'''", "Bad"),
    ("a 'b''", "Bad"),
    // dates
    ("2024-02-29", "Date 0..10"),
    (
        "0001-01-01,9999-12-31",
        "Date 0..10 Comma 10..11 Date 11..21",
    ),
    ("2000-02-29'a'", "Date 0..10 Text 10..13"),
    ("2024-02-29-1", "Date 0..10 Minus 10..11 Number 11..12"),
    // no day of the calendar, or no year of it
    ("2023-02-29", "Bad"),
    ("1900-02-29", "Bad"),
    ("2023-13-01", "Bad"),
    ("2023-04-31", "Bad"),
    ("2023-00-10", "Bad"),
    ("0000-01-01", "Bad"),
    // not of that form
    (
        "12023-01-01",
        "Number 0..5 Minus 5..6 Number 6..8 Minus 8..9 Number 9..11",
    ),
    (
        "2023-01-011",
        "Number 0..4 Minus 4..5 Number 5..7 Minus 7..8 Number 8..11",
    ),
    (
        "2023-1-1",
        "Number 0..4 Minus 4..5 Number 5..6 Minus 6..7 Number 7..8",
    ),
    ("2023-01-01x", "Bad"),
    ("2023-01-01_", "Bad"),
    // numbers
    ("0", "Number 0..1"),
    ("007-1", "Number 0..3 Minus 3..4 Number 4..5"),
    ("99999999999999999999999999999999999999", "Number 0..38"),
    ("00000000000000000000000000000000000000", "Number 0..38"),
    ("999999999999999999999999999999999999999", "Bad"),
    ("000000000000000000000000000000000000000", "Bad"),
    ("1x", "Bad"),
    ("1_", "Bad"),
    // decimals
    ("1.5", "Decimal 0..3"),
    (
        "-007.000000,1",
        "Minus 0..1 Decimal 1..11 Comma 11..12 Number 12..13",
    ),
    ("1.5'a'", "Decimal 0..3 Text 3..6"),
    ("99999999999999999999999999999999.999999", "Decimal 0..39"),
    // 33 digits before the point, seven after it
    ("100000000000000000000000000000000.0", "Bad"),
    ("1.0000001", "Bad"),
    ("1.5x", "Bad"),
    ("1.5_", "Bad"),
    ("1.", "Bad"),
    (".5", "Bad"),
    ("1.5.5", "Bad"),
    ("1.x", "Bad"),
    ("1 .5", "Bad"),
    // bad tokens of whole filters
    ("Price eq 1.0000001", "Bad"),
    (
        "Price lt 100000000000000000000000000000000",
        "Word 0..5 Word 6..8 Number 9..42",
    ),
];

/// A number of `(`, an end, and the number of the tokens or the fault.
const COUNTS: &[(usize, &str, &str)] = &[
    (1024, "", "1024 tokens"),
    (1024, " \t", "1024 tokens"),
    (1025, "", "TooMany"),
    (1024, "#", "Bad"),
    (1023, " a #", "Bad"),
    (1025, "#", "TooMany"),
    (1024, "a#", "TooMany"),
    (1024, "1x", "Bad"),
    (1023, "1.5x", "Bad"),
    (1024, "1.5", "TooMany"),
];

/// Texts, and the day that they are, if any.
const DAYS: &[(&str, &str)] = &[("2023-02-29", "none"), ("2024-02-29", "2024-2-29")];

/// Values of `$skip` and `$top`.
const NUMBERS: &[(&str, Option<u64>)] = &[
    ("0", Some(0)),
    ("25", Some(25)),
    ("0000000000000000007", Some(7)),
    ("9223372036854775807", Some(9_223_372_036_854_775_807)),
    ("9223372036854775808", None),
    ("9999999999999999999", None),
    ("00000000000000000007", None),
    ("", None),
    ("+1", None),
    ("-1", None),
    (" 1", None),
    ("1x", None),
];

/// Values of `$count`.
const FLAGS: &[(&str, Option<bool>)] = &[
    ("true", Some(true)),
    ("TRUE", Some(true)),
    ("False", Some(false)),
    ("1", None),
    ("true ", None),
    ("", None),
];

/// Returns the kind and the place of each token, or the fault.
fn token_line(alloc: Global, source: &str) -> Result<String, Fail> {
    let tokens = match lex(alloc, source) {
        Ok(tokens) => tokens,
        Err(fault) => return Ok(format!(in alloc; "{fault:?}")?),
    };
    let mut line = String::new(alloc);
    for token in &tokens {
        if !line.is_empty() {
            line.push(' ')?;
        }
        let (kind, start, end) = (token.kind, token.start, token.end);
        line.push_str(format!(in alloc; "{kind:?} {start}..{end}")?.as_str())?;
    }
    Ok(line)
}

#[test]
fn tokens(rt: HostRuntime) -> Result<(), Fail> {
    for (source, want) in TOKENS {
        let found = token_line(rt.alloc(), source)?;
        assert!(rt; found.as_str() == *want, "{source} gives {found}");
    }
    Ok(())
}

/// Returns the number of the tokens of that many `(` and an end, or the fault.
fn count_line(alloc: Global, parentheses: usize, end: &str) -> Result<String, Fail> {
    let mut source = String::new(alloc);
    for _ in 0..parentheses {
        source.push('(')?;
    }
    source.push_str(end)?;
    Ok(match lex(alloc, source.as_str()) {
        Ok(tokens) => format!(in alloc; "{} tokens", tokens.len())?,
        Err(fault) => format!(in alloc; "{fault:?}")?,
    })
}

#[test]
fn too_many_comes_before_bad(rt: HostRuntime) -> Result<(), Fail> {
    for (parentheses, end, want) in COUNTS {
        let found = count_line(rt.alloc(), *parentheses, end)?;
        assert!(rt;
            found.as_str() == *want,
            "{parentheses} and {end} give {found}"
        );
    }
    Ok(())
}

#[test]
fn days(rt: HostRuntime) -> Result<(), Fail> {
    for (text, want) in DAYS {
        let found = match date_in(text.as_bytes()) {
            Some(date) => {
                let (year, month, day) = (date.year, date.month, date.day);
                format!(in rt.alloc(); "{year}-{month}-{day}")?
            }
            None => String::from_str(rt.alloc(), "none")?,
        };
        assert!(rt; found.as_str() == *want, "{text} gives {found}");
    }
    Ok(())
}

#[test]
fn option_values(rt: HostRuntime) -> Result<(), Fail> {
    for (text, want) in NUMBERS {
        assert!(rt; parse_number(text).ok() == *want, "{text}");
    }
    for (text, want) in FLAGS {
        assert!(rt; parse_flag(text).ok() == *want, "{text}");
    }
    Ok(())
}
