//! Numbers that are looked up in a list, on the rows of a block.

ghost use Rattle.std.specs.Prelude.{◌≡◌, ◌<◌, ℕ, ℤ, Some, Option, List, IfOk, IsTrue, length};
ghost use Rattle.std.specs.List.{list_any};
ghost use Rattle.std.specs.Ordering.{int_cmp, int_eq};
ghost use Rattle.row_eval.specs.Comparison.{is_among};
ghost use Rattle.block_summary.specs.declared.bounds.Bounds.{Bounds as BoundsOf};
ghost use Rattle.block_eval.specs.Bounds.{IsWithinKnown};
ghost use Rattle.block_eval.specs.Columns.{number_at, unless_null};
ghost use Rattle.block_eval.specs.Items.{slot_of as slot_of_number, AreFoundAmong, AreSlotted, HasItems, HaveFound, HaveNearItems, IsNearItem};
ghost use Rattle.block_eval.specs.Lanes.{number_lane, AreLong};

use crate::bounded::Bounded;
use block_summary::Bounds;
use number_kernels::Numbers;
use row_eval::{Truth, truth_of};
use std::alloc::{AllocError, Global};

/// How many slots a table has: a prime, so that numbers at even distances take different slots.
const SLOTS: usize = 16_381;

/// A list of numbers, in which numbers are looked up.
#[derive(Drop)]
pub struct Items {
    /// The items that are numbers of 64 bits and may be those of a row.
    pub(crate) numbers: Vec<i64>,
    /// For each slot, 0 if it is that of none of the numbers. Else, if there are not too many, the place of one of them, counted from 1.
    pub(crate) slots: Vec<u16>,
    /// True if null is an item.
    pub(crate) has_null: bool,
}

/// Returns the slot of a number.
#[inline(always)]
fn slot_of(number: i64) -> usize
    ensures value { result ≡ slot_of_number number }
    ensures within { result < SLOTS }
{
    (number.cast_unsigned() % SLOTS as u64) as usize
}

/// Returns false if a number does not lie between bounds that are known.
fn may_lie_within(known: Option<Bounds>, number: i64) -> bool
    ensures { IsWithinKnown known (Some number) → IsTrue result }
{
    match known {
        Some(bounds) => bounds.least <= number && number <= bounds.greatest,
        None => true,
    }
}

/// Returns an item as a number of 64 bits, or `None` if it is null, has more bits or does not lie between the bounds.
fn near_item(item: Option<i128>, known: Option<Bounds>) -> Option<i64>
    ensures { IsNearItem known item result }
{
    match i64::try_from(item?) {
        Ok(number) if may_lie_within(known, number) => Some(number),
        _ => None,
    }
}

/// Returns those of the items that are numbers of 64 bits and may lie between the bounds.
fn near_items(
    alloc: Global,
    items: &[Option<i128>],
    known: Option<Bounds>,
) -> Result<Vec<i64>, AllocError>
    ensures { IfOk result (λ numbers. HaveNearItems known items.now numbers.items) }
{
    let mut numbers = Vec::with_capacity(alloc, items.len())?;
    for item in items {
        if let Some(number) = near_item(*item, known) {
            numbers.push(number)?;
        }
    }
    Ok(numbers)
}

/// Returns a table in which the slot of each number is above 0.
fn slots_of(alloc: Global, numbers: &[i64]) -> Result<Vec<u16>, AllocError>
    ensures { IfOk result (λ slots. AreSlotted numbers.now slots.items) }
{
    let mut slots = Vec::from_elem(alloc, 0u16, SLOTS)?;
    for place in 0..numbers.len() {
        slots[slot_of(numbers[place])] = (place % 65_535 + 1) as u16;
    }
    Ok(slots)
}

/// Returns true if null is one of the items.
fn has_null(items: &[Option<i128>]) -> bool
    ensures { result ≡ is_among int_cmp None items.now }
{
    for item in items {
        if item.is_none() {
            return true;
        }
    }
    false
}

impl Items {
    /// Enters the items in a table, for numbers that lie between the bounds.
    fn new(
        alloc: Global,
        items: &[Option<i128>],
        known: Option<Bounds>,
    ) -> Result<Items, AllocError>
        ensures { IfOk result (HasItems known items.now) }
    {
        let numbers = near_items(alloc, items, known)?;
        let slots = slots_of(alloc, numbers.as_slice())?;
        Ok(Items {
            numbers,
            slots,
            has_null: has_null(items),
        })
    }

    /// Returns true if a number is one of the numbers.
    #[inline(always)]
    fn contains(&self, number: i64) -> bool
        requires { AreSlotted self.now.numbers.items self.now.slots.items }
        ensures { result ≡ list_any (λ n. int_eq n number) self.now.numbers.items }
    {
        let place = usize::from(self.slots[slot_of(number)]);
        if place == 0 {
            return false;
        }
        if let Some(found) = self.numbers.get(place - 1) {
            if *found == number {
                return true;
            }
        }
        self.numbers.as_slice().contains(&number)
    }

    /// Returns true if a number or null is one of the items.
    #[inline(always)]
    fn has(&self, number: Option<i64>) -> bool
        requires { AreSlotted self.now.numbers.items self.now.slots.items }
        ensures { (known : Option BoundsOf) (items : List (Option ℤ)) → HasItems known items self.now
            → IsWithinKnown known number → result ≡ is_among int_cmp number items }
    {
        match number {
            Some(number) => self.contains(number),
            None => self.has_null,
        }
    }
}

/// Returns a number, unless it is null.
#[inline(always)]
fn number_unless(is_null: bool, number: i64) -> Option<i64>
    ensures { result ≡ unless_null is_null number }
{
    if is_null { None } else { Some(number) }
}

/// Looks up numbers, each with a mark that it is null.
fn find_cells(items: &Items, values: &[i64], nulls: &[bool], out: &mut [Truth])
    requires slots { AreSlotted items.now.numbers.items items.now.slots.items }
    requires values { length values.now ≡ length out.old }
    requires nulls { length nulls.now ≡ length out.old }
    ensures { HaveFound items.now (number_at values.now nulls.now) out.new }
{
    for row in 0..out.len() {
        out[row] = truth_of(items.has(number_unless(nulls[row], values[row])));
    }
}

/// Looks up a number, or null, that each row has.
fn find_same(items: &Items, number: Option<i64>, out: &mut [Truth])
    requires { AreSlotted items.now.numbers.items items.now.slots.items }
    ensures { HaveFound items.now (λ row. number) out.new }
{
    let found = truth_of(items.has(number));
    for row in 0..out.len() {
        out[row] = found;
    }
}

/// Looks up the number of each row.
fn find_each(items: &Items, numbers: &Numbers<'_>, out: &mut [Truth])
    requires slots { AreSlotted items.now.numbers.items items.now.slots.items }
    requires long { AreLong (length out.old) numbers.now }
    ensures { HaveFound items.now (number_lane numbers.now) out.new }
{
    match numbers {
        Numbers::Null => find_same(items, None, out),
        Numbers::Same(number) => find_same(items, Some(*number), out),
        Numbers::Cells(values, nulls) => find_cells(items, values, nulls, out),
        Numbers::Computed(values, nulls) => {
            find_cells(items, values.as_slice(), nulls.as_slice(), out)
        }
    }
}

/// Returns for each row whether its number, if it lies between the bounds, is in a list.
pub fn among(
    alloc: Global,
    numbers: &Bounded<'_>,
    items: &[Option<i128>],
    rows: usize,
) -> Result<Vec<Truth>, AllocError>
    requires { AreLong rows numbers.now.numbers }
    ensures { IfOk result (λ truths. AreFoundAmong numbers.now items.now rows truths.items) }
{
    let items = Items::new(alloc, items, numbers.bounds)?;
    let mut truths = Vec::from_elem(alloc, Truth::False, rows)?;
    find_each(&items, &numbers.numbers, truths.as_mut_slice());
    Ok(truths)
}
