//! What the publisher of files should look at, and what helps.
use crate::counts::push_count;
use csvw_meta::Schema;
use diagnostics::Line;
use schema_inference::{Guess, Warning};

/// Returns the number of the file of a warning.
pub fn file_of(warning: &Warning) -> usize {
    match warning {
        Warning::OtherSeparator { file, .. }
        | Warning::HeaderIsData { file }
        | Warning::TwoDates { file, .. }
        | Warning::TooFine { file, .. }
        | Warning::Alike { file, .. }
        | Warning::Days { file, .. }
        | Warning::Version { file, .. }
        | Warning::NullElsewhere { file, .. }
        | Warning::EmptyHeader { file, .. }
        | Warning::EmptyRows { file, .. } => *file,
    }
}

/// What is said of a header that looks like a row.
const HEADER: &str = "the first line looks like data: mlr --csv --implicit-csv-header label A,B ";

/// What is said of dates that two formats read.
const TWO_DATES: &str =
    ": a string, since dd/MM/yyyy and MM/dd/yyyy both read each date: write the format that is meant";

/// What is said of versions.
const VERSION: &str =
    ": a string, since version 4.10 is not version 4.1: write decimal if these are numbers";

/// What is said of integers that are days.
const DAYS: &str =
    " cells are days as yyyyMMdd: write {\"base\": \"date\", \"format\": \"yyyyMMdd\"} for the datatype if they are meant so";

/// Returns what reads fields that a byte separates.
fn separator_warning(byte: u8) -> &'static str {
    match byte {
        b';' => "one column, and `;` is in each line: csvformat -d ';' ",
        b'\t' => "one column, and a tab is in each line: csvformat -t ",
        _ => "one column, and `|` is in each line: csvformat -d '|' ",
    }
}

/// Returns true if two warnings are said together, in one line of their file.
fn is_together(one: &Warning, other: &Warning) -> bool {
    match (one, other) {
        (Warning::TooFine { file, .. }, Warning::TooFine { file: same, .. })
        | (Warning::EmptyHeader { file, .. }, Warning::EmptyHeader { file: same, .. }) => {
            *file == *same
        }
        _ => false,
    }
}

/// Returns the schema of a file, if it has one.
fn schema_of<'g>(guess: &'g Guess, url: &str) -> Option<&'g Schema> {
    guess
        .schemas
        .iter()
        .find(|schema| schema.url.as_str() == url)
}

/// Appends a column of a file, by its number from 1 on and its name.
fn push_column(lines: &mut Line, schema: Option<&Schema>, col: usize) {
    lines.push("column ");
    lines.push_number(col.saturating_add(1));
    if let Some(schema) = schema
        && let Some(column) = schema.columns.get(col)
    {
        lines.push(" ");
        lines.push(column.name.as_str());
    }
}

/// Appends the numbers of columns from one to another, both counted from 0.
fn push_range(lines: &mut Line, before: &str, first: usize, last: usize) {
    lines.push(before);
    lines.push_number(first.saturating_add(1));
    if last > first {
        lines.push(" to ");
        lines.push_number(last.saturating_add(1));
    }
}

/// Returns the column of a warning that is said with others in one line.
fn column_together(warning: &Warning) -> usize {
    match warning {
        Warning::TooFine { col, .. } | Warning::EmptyHeader { col, .. } => *col,
        _ => 0,
    }
}

/// Appends the columns of the warnings that are said together with one.
fn push_columns(lines: &mut Line, warning: &Warning, all: &[Warning]) {
    let mut before = match all
        .iter()
        .filter(|other| is_together(warning, other))
        .count()
    {
        1 => "column ",
        _ => "columns ",
    };
    let mut range: Option<(usize, usize)> = None;
    for other in all {
        if !is_together(warning, other) {
            continue;
        }
        let col = column_together(other);
        range = match range {
            Some((first, last)) if col == last.saturating_add(1) => Some((first, col)),
            Some((first, last)) => {
                push_range(lines, before, first, last);
                before = ", ";
                Some((col, col))
            }
            None => Some((col, col)),
        };
    }
    if let Some((first, last)) = range {
        push_range(lines, before, first, last);
    }
}

/// Appends the command that rounds the columns of the warnings that are said together with one.
fn push_rounding(lines: &mut Line, warning: &Warning, all: &[Warning], schema: &Schema) {
    lines.push(": strings, since numbers are finer than six places: mlr --csv put '");
    let mut before = "";
    for other in all {
        if is_together(warning, other)
            && let Some(column) = schema.columns.get(column_together(other))
        {
            let name = match column.titles.first() {
                Some(title) => title.as_str(),
                None => column.name.as_str(),
            };
            lines.push(before);
            lines.push("${");
            lines.push(name);
            lines.push("} = fmtifnum(${");
            lines.push(name);
            lines.push("}, \"%.6lf\")");
            before = "; ";
        }
    }
    lines.push("' ");
    lines.push(schema.url.as_str());
    lines.push(" rounds them");
}

/// Appends what cells of a column look like, as far as the warning is of that, and the first that looks different.
fn push_alike(lines: &mut Line, warning: &Warning) {
    if let Warning::Alike {
        form,
        cells,
        alike,
        other,
        ..
    } = warning
    {
        if other.is_none() {
            lines.push("all ");
        } else {
            push_count(lines, *alike);
            lines.push(" of ");
        }
        push_count(lines, *cells);
        lines.push(" cells look like ");
        lines.push(form);
        if let Some(cell) = other {
            lines.push("; line ");
            lines.push_number(cell.line);
            lines.push(" is ");
            lines.push_quoted(cell.text.as_str());
        }
    }
}

/// Appends what makes a CSV file of a file.
fn push_command(lines: &mut Line, before: &str, file: &str, after: &str) {
    lines.push(before);
    lines.push(file);
    lines.push(after);
}

/// Appends a column, and a text after it.
fn push_said(lines: &mut Line, schema: Option<&Schema>, col: usize, text: &str) {
    push_column(lines, schema, col);
    lines.push(text);
}

/// Appends what a warning of a column says.
fn push_of_column(lines: &mut Line, warning: &Warning, schema: Option<&Schema>) {
    match warning {
        Warning::TwoDates { col, .. } => push_said(lines, schema, *col, TWO_DATES),
        Warning::Version { col, .. } => push_said(lines, schema, *col, VERSION),
        Warning::Days { col, cells, .. } => {
            push_said(lines, schema, *col, ": integer; all ");
            push_count(lines, *cells);
            lines.push(DAYS);
        }
        Warning::Alike { col, .. } => {
            push_said(lines, schema, *col, ": string; ");
            push_alike(lines, warning);
        }
        Warning::NullElsewhere {
            col,
            other,
            word,
            cells,
            ..
        } => {
            push_said(lines, schema, *col, ": ");
            push_count(lines, *cells);
            lines.push(" of its cells are ");
            lines.push_quoted(word);
            lines.push(", a text here, and null in ");
            push_column(lines, schema, *other);
        }
        _ => {}
    }
}

/// Appends what a warning says after the name of its file: the column, if it is of one, and what helps.
pub fn push_warning(lines: &mut Line, warning: &Warning, guess: &Guess, file: &str) {
    let schema = schema_of(guess, file);
    let all = guess.warnings.as_slice();
    match warning {
        Warning::OtherSeparator { byte, .. } => {
            push_command(
                lines,
                separator_warning(*byte),
                file,
                " makes it a CSV file",
            );
        }
        Warning::HeaderIsData { .. } => push_command(
            lines,
            HEADER,
            file,
            " gives the file a header",
        ),
        Warning::EmptyRows { rows, .. } => {
            lines.push("rows of empty cells at the end: ");
            push_count(lines, *rows);
        }
        Warning::EmptyHeader { .. } => {
            lines.push("the header cells of ");
            push_columns(lines, warning, all);
            lines.push(" are empty: the first line should have a name for each column");
        }
        Warning::TooFine { .. } => {
            push_columns(lines, warning, all);
            if let Some(schema) = schema {
                push_rounding(lines, warning, all, schema);
            }
        }
        _ => push_of_column(lines, warning, schema),
    }
}

/// Returns true if a warning, by its place among all, is said together with an earlier one.
pub fn is_said(all: &[Warning], place: usize, warning: &Warning) -> bool {
    let mut earlier = all.iter().take(place);
    earlier.any(|other| is_together(other, warning))
}
