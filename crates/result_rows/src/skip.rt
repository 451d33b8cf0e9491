//! The first rows in an order are passed over by positions (OData 4.01 URL Conventions, section 5.1.6): the rows before a pivot are a front of each run.
ghost use Rattle.std.specs.Prelude.{◌≡◌, ◌+◌, drop, IfSome};
ghost use Rattle.std.specs.List.{AllByRecursion};
ghost use Rattle.order_columns.specs.Plain.{columns_cmp};
ghost use Rattle.sort_rows.specs.Runs.{all_sorted, left_rows, row_at, rows_of_run, stream_rows, AreNotFalling, AreSortedRows, IsRunRow, IsStream};
ghost use Rattle.result_rows.specs.Fronts.{precedes, less_len, IsFirstPart, PassesFront};

use order_columns::{ItemColumns, PlainItem};
use row_columns::Columns;
use sort_rows::{RunRow, SortedRows, Stream, first_of, is_less};

/// How often a pivot is sought before rows are passed over one by one.
const TRIES: u64 = 1_024;

/// Fewer rows than these are passed over one by one.
const FEW_ROWS: usize = 256;

/// An odd number whose multiples have bits like those of a coin.
const COINS: u64 = 0x9e37_79b9_7f4a_7c15;

/// Returns how many of the rows of a run come before a pivot: those that are less, and also those that tie with it if `ties`.
fn front_of(
    columns: &ItemColumns<'_>,
    run: &[RunRow],
    pivot: RunRow,
    ties: bool,
    plain: &[PlainItem],
) -> usize
    requires pivot { IsRunRow plain.now columns.now.rows pivot }
    requires rows { AllByRecursion (IsRunRow plain.now columns.now.rows) run.now }
    requires rising { AreNotFalling (columns_cmp plain.now) (rows_of_run columns.now.rows run.now) }
    ensures { IsFirstPart (precedes plain.now (row_at columns.now.rows pivot) ties)
        (rows_of_run columns.now.rows run.now) result }
{
    cell_types::values_are_ordered();
    let (mut low, mut high) = (0, run.len());
    while low < high {
        let middle = low + (high - low) / 2;
        let before = if ties {
            !is_less(columns, pivot, run[middle], plain)
        } else {
            is_less(columns, run[middle], pivot, plain)
        };
        if before {
            low = middle + 1;
        } else {
            high = middle;
        }
    }
    low
}

/// Returns the middle one of the rows of a run that are less than `above`, if any is. The coin chooses the run.
fn middle(
    stream: &Stream,
    columns: &ItemColumns<'_>,
    above: Option<RunRow>,
    coin: u64,
    plain: &[PlainItem],
) -> Option<RunRow>
    requires streams { IsStream plain.now columns.now.rows stream.now }
    requires above { IfSome above (IsRunRow plain.now columns.now.rows) }
    ensures { IfSome result (IsRunRow plain.now columns.now.rows) }
{
    match stream {
        Stream::Run(run, taken) => {
            let left = &run[*taken..];
            let end = match above {
                Some(row) => front_of(columns, left, row, false, plain),
                None => left.len(),
            };
            left[..end].get(end / 2).copied()
        }
        Stream::Two(earlier, later, _, _) => {
            let run = if coin % 2 == 0 { earlier } else { later };
            middle(run, columns, above, coin / 2, plain)
        }
    }
}

/// Returns how many of `most` rows are left after those that are less than a pivot, unless these are more.
fn ties_left(
    stream: &Stream,
    columns: &ItemColumns<'_>,
    pivot: RunRow,
    most: usize,
    plain: &[PlainItem],
) -> Option<usize>
    requires streams { IsStream plain.now columns.now.rows stream.now }
    requires pivot { IsRunRow plain.now columns.now.rows pivot }
    ensures { IfSome result (λ ties. ties + less_len plain.now columns.now.rows
        (row_at columns.now.rows pivot) stream.now ≡ most) }
{
    match stream {
        Stream::Run(run, taken) => {
            most.checked_sub(front_of(columns, &run[*taken..], pivot, false, plain))
        }
        Stream::Two(earlier, later, _, _) => {
            let ties = ties_left(earlier, columns, pivot, most, plain)?;
            ties_left(later, columns, pivot, ties, plain)
        }
    }
}

/// Takes the rows that are less than a pivot, and of those that tie with it the first ones, at most `ties`. Returns how many of `ties` are left.
fn pass_front(
    stream: &mut Stream,
    columns: &ItemColumns<'_>,
    pivot: RunRow,
    ties: usize,
    plain: &[PlainItem],
) -> usize
    requires streams { IsStream plain.now columns.now.rows stream.old }
    requires pivot { IsRunRow plain.now columns.now.rows pivot }
    ensures { PassesFront plain.now columns.now.rows (row_at columns.now.rows pivot) ties
        stream.old stream.new result }
{
    cell_types::values_are_ordered();
    match stream {
        Stream::Run(run, taken) => {
            let less = front_of(columns, &run[*taken..], pivot, false, plain);
            *taken += less;
            let tied = front_of(columns, &run[*taken..], pivot, true, plain).min(ties);
            *taken += tied;
            ties - tied
        }
        Stream::Two(earlier, later, first, _) => {
            let ties = pass_front(earlier, columns, pivot, ties, plain);
            let ties = pass_front(later, columns, pivot, ties, plain);
            *first = first_of(columns, earlier.first(), later.first(), plain);
            ties
        }
    }
}

/// Takes the first `count` rows of a stream, or all of them.
fn pass_rows(stream: &mut Stream, columns: &ItemColumns<'_>, count: usize, plain: &[PlainItem])
    requires { IsStream plain.now columns.now.rows stream.old }
    ensures streams { IsStream plain.now columns.now.rows stream.new }
    ensures left { stream_rows plain.now columns.now.rows stream.new
        ≡ drop count (stream_rows plain.now columns.now.rows stream.old) }
{
    let mut left = count;
    let mut above = None;
    for coin in 0..TRIES {
        if left < FEW_ROWS {
            break;
        }
        let coin = coin.wrapping_mul(COINS);
        let Some(pivot) = middle(stream, columns, above, coin, plain) else {
            continue;
        };
        match ties_left(stream, columns, pivot, left, plain) {
            Some(ties) => left = pass_front(stream, columns, pivot, ties, plain),
            None => above = Some(pivot),
        }
    }
    for _ in 0..left {
        stream.pass(columns, plain);
    }
}

/// Takes the first `count` rows that are left, or all of them. It takes no memory.
pub fn skip_rows(order: &mut SortedRows, columns: &Columns, count: usize)
    requires { AreSortedRows order.old columns.now.rows }
    ensures sorted_rows { AreSortedRows order.new columns.now.rows }
    ensures left { left_rows order.new columns.now.rows
        ≡ drop count (left_rows order.old columns.now.rows) }
    ensures all { all_sorted order.new columns.now.rows ≡ all_sorted order.old columns.now.rows }
{
    let columns = ItemColumns::after(columns, &order.computed);
    pass_rows(&mut order.stream, &columns, count, &order.plain);
}
