//! What a draft says to the publisher of a file that is converted.
use crate::report::{About, Report, Status};
use cell_types::Datatype;
use csvw_meta::Schema;
use draft_warnings::{is_said, push_warning};
use file_convert::{ColumnReport, ReportKind};
use schema_inference::{Guess, Warning};

/// Returns true if a column is one of texts.
fn is_text(schema: &Schema, col: usize) -> bool {
    match schema.columns.get(col) {
        Some(column) => matches!(column.datatype, Datatype::Text),
        None => false,
    }
}

/// Returns true if a column that is written was not asked or proposed to stay one of texts, and is not one of times of day.
fn is_guessed(columns: &[ColumnReport], col: usize) -> bool {
    columns.iter().any(|column| {
        column.place == col && !column.is_text && !matches!(column.kind, ReportKind::Empty)
    })
}

/// Returns true if a warning is reported of a file that is converted. What the report proposes an option for is not said twice, and a column that is no longer one of texts has no warning that it is.
fn is_reported(warning: &Warning, schema: &Schema, columns: &[ColumnReport]) -> bool {
    match warning {
        Warning::TooFine { .. } | Warning::TwoDates { .. } | Warning::NullElsewhere { .. } => false,
        Warning::Alike { col, .. } | Warning::Version { col, .. } => {
            is_text(schema, *col) && is_guessed(columns, *col)
        }
        _ => true,
    }
}

/// Reports the warnings of a file that is converted.
pub(crate) fn report_warnings(
    report: &mut Report,
    guess: &Guess,
    columns: &[ColumnReport],
    name: &str,
) {
    let Some(schema) = guess.schemas.first() else {
        return;
    };
    let all = guess.warnings.as_slice();
    for (place, warning) in all.iter().enumerate() {
        if is_reported(warning, schema, columns) && !is_said(all, place, warning) {
            push_warning(&mut report.message, warning, guess, name);
            report.end(About::file(Status::Warned, name));
        }
    }
}
