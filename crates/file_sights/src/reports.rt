//! What is found in the columns of a table.
use crate::sight::Sight;
use column_forms::{CellsSeen, Choice, Point, Wants, choice_of, point_of};
use file_convert::{ColumnReport, ConvertOptions, ReportKind, has_time, is_dropped};
use std::alloc::{AllocError, Global};
use std::str::from_utf8;

/// Returns which point the numbers of a file have, if its columns agree.
fn file_point(columns: &[CellsSeen]) -> Point {
    let mut found = Point::Unknown;
    for seen in columns {
        let point = point_of(seen);
        found = match (found, point) {
            (Point::Unknown, Point::Comma | Point::Dot) => point,
            (Point::Comma, Point::Dot) | (Point::Dot, Point::Comma) => Point::Both,
            _ => found,
        };
    }
    found
}

/// Returns true if no cell of a column says anything.
fn is_empty(seen: &CellsSeen) -> bool {
    for count in seen.nulls.as_slice() {
        if *count > 0 {
            return false;
        }
    }
    seen.cells == 0
}

/// Returns a report of a column by what is found in it and asked for. Nothing is changed in it yet.
fn report_of(
    alloc: Global,
    title: &[u8],
    kind: ReportKind,
    seen: &CellsSeen,
    wants: Wants<'_>,
) -> Result<ColumnReport, AllocError> {
    let is_open = matches!(kind, ReportKind::TwoPoints | ReportKind::TwoOrders);
    let asked_null = match wants.null {
        Some(text) => Some(Vec::from_slice(alloc, text.as_bytes())?),
        None => None,
    };
    Ok(ColumnReport {
        asked_null,
        title: Vec::from_slice(alloc, title)?,
        nulls: Vec::from_slice(alloc, seen.nulls.as_slice())?,
        kind,
        changed: 0,
        line: 0,
        before: Vec::new(alloc),
        after: Vec::new(alloc),
        fine: 0,
        fine_line: 0,
        difference: 0,
        rounds: wants.round,
        asked_cells: 0,
        is_text: wants.text || is_open,
        place: 0,
    })
}

/// Returns what is found in a column.
fn kind_of(seen: &CellsSeen, wants: Wants<'_>, file: Point, separator: u8) -> ReportKind {
    match choice_of(seen, wants, file, separator) {
        Choice::Form(form) => ReportKind::Form(form),
        Choice::Text => ReportKind::Text,
        Choice::TwoPoints => ReportKind::TwoPoints,
        Choice::TwoOrders => ReportKind::TwoOrders,
    }
}

/// Returns the header cell of a column; an empty one after the last.
fn title_at(sight: &Sight, place: usize) -> &[u8] {
    match sight.titles.get(place) {
        Some(title) => title.as_slice(),
        None => &[],
    }
}

/// Returns the reports of the columns of a table, in which nothing is changed yet.
pub(crate) fn reports_of(
    alloc: Global,
    asks: &ConvertOptions<'_>,
    sight: &Sight,
    separator: u8,
) -> Result<Vec<ColumnReport>, AllocError> {
    let columns = sight.columns.as_slice();
    let file = file_point(columns);
    let mut reports = Vec::new(alloc);
    for (place, seen) in columns.iter().enumerate() {
        let title = title_at(sight, place);
        let wants = asks.wants(from_utf8(title).unwrap_or(""));
        let kind = kind_of(seen, wants, file, separator);
        let report = report_of(alloc, title, kind, seen, wants)?;
        reports.push(report).or(Err(AllocError))?;
    }
    drop_columns(columns, reports.as_mut_slice());
    place_columns(reports.as_mut_slice());
    Ok(reports)
}

/// Marks the columns at the right that have neither a name nor a cell.
fn drop_columns(columns: &[CellsSeen], reports: &mut [ColumnReport]) {
    for back in 1..=reports.len() {
        let place = reports.len().saturating_sub(back);
        if let (Some(seen), Some(report)) = (columns.get(place), reports.get_mut(place)) {
            if !report.title.is_empty() || !is_empty(seen) {
                return;
            }
            report.kind = ReportKind::Empty;
        }
    }
}

/// Numbers the columns that are written.
fn place_columns(reports: &mut [ColumnReport]) {
    let mut place: usize = 0;
    for report in reports {
        report.place = place;
        let count = 1 + usize::from(has_time(report.kind));
        if !is_dropped(report.kind) {
            place = place.saturating_add(count);
        }
    }
}
