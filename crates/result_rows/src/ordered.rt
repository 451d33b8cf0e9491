//! Rows of an answer that are taken one after another (OData 4.01 URL Conventions, section 5.1.5).
ghost use Rattle.std.specs.Prelude.{◌≡◌, ◌<◌, ◌+◌, [], List, IfOk, IfSome, Some, get_or, length, option_map};
ghost use Rattle.std.specs.List.{All};
ghost use Rattle.query_meaning.specs.Order.{Item, ordered};
ghost use Rattle.sort_rows.specs.Runs.{AreInItemOrder};
ghost use Rattle.result_rows.specs.Rows.{ShowsColumns, AreReordered, RowsOf};
ghost use Rattle.result_rows.specs.Kept.{kept_names, shown_of, shown_places, AreShownOf};
ghost use Rattle.result_rows.specs.Ordered.{places_shown, shown_rows};
ghost use Rattle.result_rows.specs.Selected.{selected_rows};

use crate::columns::columns_of;
use crate::kept::Kept;
use crate::rows::Rows;
use sort_rows::SortedRows;
use std::alloc::{AllocError, Global};
use std::marker::Model;

/// Some columns of rows, which are shown of them.
#[derive(Drop)]
pub(crate) struct Shown {
    pub(crate) places: Option<Vec<usize>>,
    pub(crate) rows: Rows,
}

/// Rows in their order, of which the first ones were taken. They are kept as they stood before they were put in order.
#[derive(Drop)]
pub struct OrderedRows {
    pub(crate) rows: Rows,
    /// What puts them in order, if they are in another.
    pub(crate) order: Option<SortedRows>,
    /// The columns that are shown, unless all are.
    pub(crate) shown: Option<Shown>,
    taken: usize,
}

/// Returns columns that are shown of rows of which there are `count`, if they were counted.
fn shown_columns(shown: Option<Kept>, count: Option<u64>) -> Option<Shown>
    requires { IfSome shown (λ kept. length kept.columns.kinds ≡ length (kept_names kept)) }
    ensures places { places_shown result ≡ shown_places shown }
    ensures rows { (rows : RowsOf) → rows.count ≡ count
        → shown_rows rows result ≡ shown_of rows shown }
{
    match shown {
        Some(
            Kept {
                places,
                names,
                columns,
            },
        ) => {
            let rows = Rows::new(names, columns, count);
            Some(Shown { places, rows })
        }
        None => None,
    }
}

/// Returns the rows as they are shown.
pub(crate) fn shown_rows(rows: Rows, shown: Option<Shown>) -> Rows
    ensures { result ≡ shown_rows rows shown }
{
    match shown {
        Some(shown) => shown.rows,
        None => rows,
    }
}

impl Model for OrderedRows {
    ghost use Rattle.result_rows.specs.Rows.{OrderedOf};

    ghost Value = { OrderedOf };

    ghost use Rattle.result_rows.specs.Ordered.{ordered_view, AreOrdered};

    ghost view = { ordered_view };

    ghost invariant = { AreOrdered };
}

impl OrderedRows {
    /// Returns rows that are in order.
    pub fn stored(rows: Rows) -> OrderedRows
        ensures { result ≡ record { stored = rows; rows = rows; taken = 0 } }
    {
        OrderedRows {
            rows,
            order: None,
            shown: None,
            taken: 0,
        }
    }

    /// Returns rows in an order. Of each row the columns in `shown` are shown, or all.
    pub fn in_order(rows: Rows, order: SortedRows, shown: Option<Kept>) -> OrderedRows
        requires order { (items : List Item) × AreInItemOrder items rows.rows order }
        requires shown { IfSome shown (AreShownOf rows.rows) }
        ensures stored { result.stored ≡ shown_of rows shown }
        ensures taken { result.taken ≡ 0 }
        ensures names { result.rows.names ≡ (shown_of rows shown).names }
        ensures count { result.rows.count ≡ rows.count }
        ensures rows { (items : List Item) → AreInItemOrder items rows.rows order
            → option_map (selected_rows (shown_places shown)) (ordered items rows.rows)
            ≡ Some result.rows.rows }
    {
        query_meaning::rows_are_in_order();
        let shown = shown_columns(shown, rows.count());
        OrderedRows {
            rows,
            order: Some(order),
            shown,
            taken: 0,
        }
    }

    /// Returns the rows as they stood, as they are shown.
    pub fn table(&self) -> &Rows
        ensures rows { result.now ≡ self.now.stored }
        ensures moved { AreReordered self.now.stored self.now.rows }
        ensures count { self.now.rows.count ≡ self.now.stored.count }
    {
        match &self.shown {
            Some(shown) => &shown.rows,
            None => &self.rows,
        }
    }

    /// Returns how many rows there are.
    pub fn len(&self) -> usize
        ensures { result ≡ length self.now.rows.rows }
    {
        self.rows.len()
    }

    /// Takes the next row, and returns its number among the rows as they stood. It takes no memory.
    pub fn next(&mut self) -> usize
        requires { self.old.taken < length self.old.rows.rows }
        ensures within { result < length self.old.stored.rows }
        ensures row { get_or self.old.stored.rows result []
            ≡ get_or self.old.rows.rows self.old.taken [] }
        ensures rest { self.new ≡ record {
          stored = self.old.stored;
          rows = self.old.rows;
          taken = self.old.taken + 1;
        } }
    {
        let len = self.rows.len();
        prove!(self.taken < len);
        let number = match &mut self.order {
            None => self.taken,
            Some(order) => match order.next(self.rows.columns()) {
                Some(number) => number,
                None => unreachable!(),
            },
        };
        self.taken += 1;
        number
    }

    /// Returns the rows in their order with only the columns that have these places. Rows in an order that show all columns are not moved.
    pub fn select(self, alloc: Global, places: &[usize]) -> Result<OrderedRows, AllocError>
        requires untaken { self.taken ≡ 0 }
        requires places { All (λ place. place < length self.rows.names) places.now }
        ensures { IfOk result (λ made. ShowsColumns places.now self made) }
    {
        if self.order.is_none() || self.shown.is_some() {
            let rows = self.into_rows(alloc)?;
            return Ok(OrderedRows::stored(columns_of(alloc, &rows, places)?));
        }
        let OrderedRows { rows, order, .. } = self;
        let shown = Shown {
            places: Some(places.to_vec(alloc)?),
            rows: columns_of(alloc, &rows, places)?,
        };
        Ok(OrderedRows {
            rows,
            order,
            shown: Some(shown),
            taken: 0,
        })
    }

    /// Returns the rows in their order.
    pub fn into_rows(self, alloc: Global) -> Result<Rows, AllocError>
        requires { self.taken ≡ 0 }
        ensures { IfOk result (λ rows. rows ≡ self.rows) }
    {
        let OrderedRows {
            rows,
            order,
            shown,
            ..
        } = self;
        let Some(order) = order else {
            return Ok(shown_rows(rows, shown));
        };
        let numbers = order.numbers(alloc, rows.columns())?;
        let rows = shown_rows(rows, shown);
        let count = rows.count();
        rows.with_rows(alloc, numbers.as_slice(), count)
    }
}
