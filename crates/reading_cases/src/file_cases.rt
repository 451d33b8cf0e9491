//! Blocks of bytes and fields of files (RFC 4180, section 2).
use csv_index::{Index, Raw, TextFault};
use lane_class::{Classes, classify, load};
use quote_parity::{prefix_xor, select};
use std::alloc::{AllocError, Global};
use std::borrow::CowStr;
use std::test::Fail;

/// A word, a number `n`, and the place of the set bit after the first `n`.
const SELECTIONS: &[(u64, u32, Option<u32>)] = &[
    (0b1010, 0, Some(1)),
    (0b1010, 1, Some(3)),
    (0b1010, 2, None),
    (u64::MAX, 63, Some(63)),
];

/// A word, and the parities of its bits up to each.
const PARITIES: &[(u64, u64)] = &[(0b1_0010, 0b0_1110), (1, u64::MAX)];

#[test]
fn words(rt: HostRuntime) {
    for (word, n, place) in SELECTIONS {
        assert!(rt; select(*word, *n) == *place, "{word} behind {n}");
    }
    for (word, parities) in PARITIES {
        assert!(rt; prefix_xor(*word) == *parities, "{word}");
    }
}

/// A text of ten bytes, with each byte that the grammar names.
const TEXT: &[u8] = b"\"a,b\",c\r\nd";

/// The classes of the block from a place of the text on, with nothing past its end.
const CLASSES: &[(usize, Classes)] = &[
    (
        0,
        Classes {
            quote: 0b1_0001,
            comma: 0b10_0100,
            cr: 1 << 7,
            lf: 1 << 8,
        },
    ),
    (
        5,
        Classes {
            quote: 0,
            comma: 1,
            cr: 4,
            lf: 8,
        },
    ),
    (
        10,
        Classes {
            quote: 0,
            comma: 0,
            cr: 0,
            lf: 0,
        },
    ),
];

#[test]
fn classes(rt: HostRuntime) {
    for (at, classes) in CLASSES {
        assert!(rt; classify(load(TEXT, *at)) == *classes, "{at}");
    }
}

/// A file of one cell, and whether its text is a copy: only if a pair of double quotes stands.
const COPIES: &[(&str, bool)] = &[
    ("\u{feff}A\nx", false),
    ("A\n\n", false),
    ("\"A, B\"\r\n\"a,\r\nb\"\r\n", false),
    ("A\n\"a\"\"b\"", true),
    ("A\n\"\"\"\"\"é\"\"\"", true),
];

/// Returns whether a field's text is a copy.
fn is_copy(alloc: Global, raw: Raw) -> Result<bool, AllocError> {
    Ok(matches!(raw.text(alloc)?, CowStr::Owned(_)))
}

#[test]
fn copies(rt: HostRuntime) -> Result<(), Fail> {
    for (file, wanted) in COPIES {
        let index = Index::build(rt.alloc(), file.as_bytes()).or(Err("no table"))?;
        let raw = index.fields(file, 0).next_field().ok_or("no row")?;
        assert!(rt; is_copy(rt.alloc(), raw)? == *wanted, "{file}");
    }
    Ok(())
}

/// A file, and how every second field of its rows is written, the others passed.
const SECOND_FIELDS: &[(&str, &[&str])] = &[
    ("A,B\n1,2\n3,4", &["2", "4"]),
    ("A\n\"a\n\"\n\"b\"\"\"\n\nd\n", &["b\"\"", "d"]),
    ("A\né\nè\n\nê", &["è", "ê"]),
];

#[test]
fn passes_fields(rt: HostRuntime) -> Result<(), Fail> {
    for (file, seconds) in SECOND_FIELDS {
        let index = Index::build(rt.alloc(), file.as_bytes()).or(Err("no table"))?;
        let mut fields = index.fields(file, 0);
        let mut is_right = true;
        for second in *seconds {
            fields.pass();
            is_right &= fields.next_field().is_some_and(|raw| raw.bytes == *second);
        }
        fields.pass();
        assert!(rt; is_right && fields.next_field().is_none(), "{file}");
    }
    Ok(())
}

/// Files, and the first thing wrong with each.
const FAULTS: &[(&[u8], TextFault)] = &[
    (b"a\"b", TextFault::StrayQuote { at: 1 }),
    (b"\"a\"b", TextFault::AfterQuote { at: 3 }),
    (b"a\r", TextFault::Unfinished { at: 2 }),
    (b"a\rb", TextFault::BareCr { at: 2 }),
    (b"\"a", TextFault::Unfinished { at: 2 }),
    (b"a,b\nc", TextFault::Width { row: 0 }),
    (b"\xFF", TextFault::NotUtf8 { at: 0 }),
    (b"\xEF\xBB\xBF", TextFault::NoHeader),
];

#[test]
fn faults(rt: HostRuntime) {
    for (file, fault) in FAULTS {
        assert!(rt;
            Index::build(rt.alloc(), file).err() == Some(*fault),
            "{file:?}"
        );
    }
}
