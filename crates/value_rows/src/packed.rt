//! Lists of values, each packed.
ghost use Rattle.std.specs.Prelude.{◌≡◌, ◌<◌, ◌≤◌, ◌+◌, ◌*◌, ◌^◌, ◌++◌, ◌∷◌, ℕ, [], IfSome, OnErr, OnOk, drop, length, map, not, slice_index_or, slice_set, take};
ghost use Rattle.cell_types.specs.Rows.{same_values};
ghost use Rattle.cell_types.specs.Value.{null, value_eq, value_view};
ghost use Rattle.value_rows.specs.Packed.{lent_value_view, AreTextsWithin};

use crate::slots::{LentValue, Other, Slot, lent_at, packed_slot, slot_of, text_lengths, value_of};
use cell_types::{Value, owned};
use std::alloc::{AllocError, Global};
use std::marker::Model;

/// A list of values of any kind, each of 16 bytes. Their texts are in one text.
#[derive(Drop)]
pub struct PackedValues {
    slots: Vec<Slot>,
    /// The texts that came, one after another.
    texts: String,
    /// The values that are not packed.
    others: Vec<Other>,
}

impl Model for PackedValues {
    ghost use Rattle.std.specs.Prelude.{List, map, string_bytes};
    ghost use Rattle.cell_types.specs.Value.{CellValue};
    ghost use Rattle.value_rows.specs.Packed.{slot_view, AreSlots};

    ghost Value = { List CellValue };

    ghost view = { λ p. map (slot_view (string_bytes p.texts) p.others.items) p.slots.items };

    ghost invariant = { λ p. AreSlots (string_bytes p.texts) p.others.items 0 p.slots.items };
}

/// Returns true if two values are not equal.
#[inline(always)]
fn differ(value: &Value<'_>, other: &Value<'_>) -> bool
    ensures { result ≡ not (value_eq (value_view value.now) (value_view other.now)) }
{
    cell_types::values_compare_as_their_views();
    value != other
}

impl PackedValues {
    /// Returns no values.
    pub fn new(alloc: Global) -> PackedValues
        ensures { result ≡ [] }
    {
        PackedValues {
            slots: Vec::new(alloc),
            texts: String::new(alloc),
            others: Vec::new(alloc),
        }
    }

    /// Returns how many values there are.
    pub fn len(&self) -> usize
        ensures { result ≡ length self.now }
    {
        self.slots.len()
    }

    /// There are no more values than fit in memory.
    pub fn are_few(&self)
        ensures { length self.now < 2 ^ 63 }
    {
        let _slots = &self.slots;
    }

    /// Returns the value at `place`, as it is kept.
    #[inline(always)]
    pub fn lent(&self, place: usize) -> LentValue<'_>
        requires { place < length self.now }
        ensures { lent_value_view result ≡ slice_index_or self.now place null }
    {
        lent_at(
            self.slots[place],
            &self.texts,
            self.others.as_slice(),
            place,
        )
    }

    /// Returns the value at `place`.
    #[inline(always)]
    pub fn value(&self, place: usize) -> Value<'_>
        requires { place < length self.now }
        ensures { value_view result ≡ slice_index_or self.now place null }
    {
        value_of(self.lent(place))
    }

    /// Writes how many bytes each text has, of the values from a place on of which each comes `step` places after the one before. Returns bytes that have all these texts, or
    /// `None` if a value is no packed text, or begins before the one before it ends.
    #[inline(always)]
    pub fn text_lengths(&self, from: usize, step: usize, lengths: &mut [usize]) -> Option<&[u8]>
        requires some { 0 < length lengths.old }
        requires within { (i : ℕ) → i < length lengths.old → from + i * step < length self.now }
        ensures long { length lengths.new ≡ length lengths.old }
        ensures texts { IfSome result (λ bytes. AreTextsWithin
            (λ i. slice_index_or self.now (from + i * step) null) lengths.new bytes.now) }
    {
        self.are_few();
        let (low, high) = text_lengths(self.slots.as_slice(), from, step, lengths)?;
        Some(&self.texts.as_bytes()[low..high])
    }

    /// Returns true if the values from a place on are these, as many as `len`.
    #[inline(always)]
    pub fn are_at(&self, from: usize, len: usize, values: &[Value<'_>]) -> bool
        requires { from + len ≤ length self.now }
        ensures { result
            ≡ same_values (take len (drop from self.now)) (map value_view values.now) }
    {
        self.are_few();
        if values.len() != len {
            return false;
        }
        for i in 0..len {
            if differ(&self.value(from + i), &values[i]) {
                return false;
            }
        }
        true
    }

    /// Appends a copy of a value. If memory ran out, the values are as before.
    #[inline(always)]
    pub fn push(&mut self, alloc: Global, value: &Value<'_>) -> Result<(), AllocError>
        ensures pushed { OnOk result (self.new ≡ self.old ++ value_view value.now ∷ []) }
        ensures refused { OnErr result (self.new ≡ self.old) }
    {
        let place = self.slots.len();
        let slot = packed_slot(&mut self.texts, &mut self.others, alloc, place, value)?;
        self.slots.push(slot)?;
        Ok(())
    }

    /// Puts a copy of a value at `place`. If memory ran out, the values are as before.
    pub fn set(&mut self, alloc: Global, place: usize, value: &Value<'_>) -> Result<(), AllocError>
        requires { place < length self.old }
        ensures set { OnOk result (self.new ≡ slice_set self.old place (value_view value.now)) }
        ensures refused { OnErr result (self.new ≡ self.old) }
    {
        if let Slot::Other(other) = self.slots[place] {
            self.others[other].value = owned(alloc, value)?;
            return Ok(());
        }
        self.slots[place] = slot_of(&mut self.others, alloc, place, value)?;
        Ok(())
    }

    /// Keeps the first `len` values, or all if there are fewer.
    pub fn truncate(&mut self, len: usize)
        ensures { self.new ≡ take len self.old }
    {
        self.slots.truncate(len);
    }

    /// Drops every value.
    pub fn clear(&mut self)
        ensures { self.new ≡ [] }
    {
        self.slots.clear();
        self.texts.clear();
        self.others.clear();
    }
}
