//! Which expressions can divide by zero: exactly those in which a `div` or `mod` (OData 4.01 URL Conventions, section 5.1.1.2) has a right side other
//! than a number literal that is not zero, one `-` before it allowed.
use cell_types::{ColumnKind, NumberKind};
use odata_lex::lex;
use odata_parse::parse_filter;
use odata_types::{COLUMN_SIZE, ColumnType, InputColumn, can_fault, typed_expr};
use std::alloc::Global;
use std::test::Fail;

/// The columns that the expressions name.
const COLUMNS: [InputColumn<'static>; 3] = [
    InputColumn {
        name: "Id",
        column_type: ColumnType {
            kind: ColumnKind::Number(NumberKind::Integer),
            size: COLUMN_SIZE,
        },
    },
    InputColumn {
        name: "Name",
        column_type: ColumnType {
            kind: ColumnKind::Text,
            size: COLUMN_SIZE,
        },
    },
    InputColumn {
        name: "Since",
        column_type: ColumnType {
            kind: ColumnKind::Number(NumberKind::Date),
            size: COLUMN_SIZE,
        },
    },
];

/// Expressions, and whether they can divide by zero.
const EXPRESSIONS: &[(&str, bool)] = &[
    ("Id div 2", false),
    ("Id div -2", false),
    ("Id div -(2)", false),
    ("Id div -(-2)", true),
    ("Id div 0", true),
    ("Id mod -0", true),
    ("Id mod 7", false),
    ("7 mod Id", true),
    ("Id div (1 add 1)", true),
    ("Id div null", true),
    // at any depth, and in a part whose value does not matter
    ("-(1 sub Id div Id)", true),
    ("1.5 add Id mod Id", true),
    ("false and 1 div Id eq 1", true),
    ("not (1 in (1) or (Id div Id) in (2))", true),
    ("(1.5 sub Id mod 0) in (2.5)", true),
    // no other expression can
    ("null", false),
    ("Since", false),
    ("concat(Name,'0')", false),
    (
        "length(Name) mul Id eq 0 and contains(Name,'div 0') and year(Since) mod 4 eq 0",
        false,
    ),
];

/// Returns whether the expression of a text can divide by zero, if it has a type.
fn divides_by_zero(alloc: Global, text: &str) -> Option<bool> {
    let tokens = lex(alloc, text).ok()?;
    let tree = parse_filter(alloc, text, &tokens).ok()?;
    let expr = typed_expr(alloc, &COLUMNS, &tree).ok()?;
    Some(can_fault(&expr))
}

#[test]
fn divisions(rt: HostRuntime) -> Result<(), Fail> {
    for (text, wanted) in EXPRESSIONS {
        assert!(rt;
            divides_by_zero(rt.alloc(), text) == Some(*wanted),
            "{text}"
        );
    }
    Ok(())
}
