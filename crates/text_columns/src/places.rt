//! The places where the texts of a block end, in as few bytes as the last of them needs.
ghost use Rattle.std.specs.Prelude.{◌≡◌, ◌+◌, ◌<◌, ◌≤◌, ℕ, IfOk, IsTrue, length, slice_index_or};
ghost use Rattle.text_columns.specs.Places.{place_list};
ghost use Rattle.text_columns.specs.Texts.{start_from, AreDistances, DoRise};

use std::alloc::{AllocError, Global};

/// Places in two, four or eight bytes each.
#[derive(Drop)]
pub enum Places {
    Twos(Vec<u16>),
    Fours(Vec<u32>),
    Eights(Vec<usize>),
}

/// Returns how many places there are.
#[inline(always)]
pub fn count_of(places: &Places) -> usize
    ensures { result ≡ length (place_list places.now) }
{
    match places {
        Places::Twos(places) => places.len(),
        Places::Fours(places) => places.len(),
        Places::Eights(places) => places.len(),
    }
}

/// Returns the place of a number.
#[inline(always)]
pub fn place_at(places: &Places, number: usize) -> usize
    requires { number < length (place_list places.now) }
    ensures { result ≡ slice_index_or (place_list places.now) number 0 }
{
    match places {
        Places::Twos(places) => usize::from(places[number]),
        Places::Fours(places) => places[number] as usize,
        Places::Eights(places) => places[number],
    }
}

/// Returns where the text of a row begins: at the end of the one before it.
#[inline(always)]
pub fn start_at(places: &Places, row: usize) -> usize
    requires { row < length (place_list places.now) }
    ensures { result ≡ start_from 0 (place_list places.now) row }
{
    if row == 0 {
        0
    } else {
        place_at(places, row - 1)
    }
}

/// Writes how far each place is past the one before it, from the number `first` on. The places are in two bytes each.
fn write_twos_apart(ends: &[u16], first: usize, out: &mut [usize])
    requires within { first + length out.old ≤ length ends.now }
    requires rise { DoRise ends.now }
    ensures { AreDistances ends.now first out.old out.new }
{
    let mut last = if first == 0 { 0 } else { ends[first - 1] };
    for i in 0..out.len() {
        let end = ends[first + i];
        out[i] = usize::from(end - last);
        last = end;
    }
}

/// Writes how far each place is past the one before it, from the number `first` on. The places are in four bytes each.
fn write_fours_apart(ends: &[u32], first: usize, out: &mut [usize])
    requires within { first + length out.old ≤ length ends.now }
    requires rise { DoRise ends.now }
    ensures { AreDistances ends.now first out.old out.new }
{
    let mut last = if first == 0 { 0 } else { ends[first - 1] };
    for i in 0..out.len() {
        let end = ends[first + i];
        out[i] = (end - last) as usize;
        last = end;
    }
}

/// Writes how far each place is past the one before it, from the number `first` on, and returns true, or returns false if a place has eight bytes.
#[inline(always)]
pub fn lengths_of(ends: &Places, first: usize, out: &mut [usize]) -> bool
    requires within { first + length out.old ≤ length (place_list ends.now) }
    requires rise { DoRise (place_list ends.now) }
    ensures long { length out.new ≡ length out.old }
    ensures each { IsTrue result → AreDistances (place_list ends.now) first out.old out.new }
{
    match ends {
        Places::Twos(ends) => write_twos_apart(ends, first, out),
        Places::Fours(ends) => write_fours_apart(ends, first, out),
        Places::Eights(_) => return false,
    }
    true
}

/// Writes places in two bytes each.
fn write_twos(ends: &[usize], out: &mut [u16])
    requires long { length out.old ≡ length ends.now }
    requires small { (row : ℕ) → row < length ends.now → slice_index_or ends.now row 0 < 65_536 }
    ensures { out.new ≡ ends.now }
{
    for i in 0..out.len() {
        out[i] = ends[i] as u16;
    }
}

/// Writes places in four bytes each.
fn write_fours(ends: &[usize], out: &mut [u32])
    requires long { length out.old ≡ length ends.now }
    requires small { (row : ℕ) → row < length ends.now
        → slice_index_or ends.now row 0 < 4_294_967_296 }
    ensures { out.new ≡ ends.now }
{
    for i in 0..out.len() {
        out[i] = ends[i] as u32;
    }
}

/// Keeps places, none of which is past a last one.
pub fn places_of(alloc: Global, ends: &[usize], last: usize) -> Result<Places, AllocError>
    requires { (row : ℕ) → row < length ends.now → slice_index_or ends.now row 0 ≤ last }
    ensures { IfOk result (λ places. place_list places ≡ ends.now) }
{
    if last <= 0xFFFF {
        let mut places = Vec::from_elem(alloc, 0u16, ends.len())?;
        write_twos(ends, places.as_mut_slice());
        Ok(Places::Twos(places))
    } else if last <= 0xFFFF_FFFF {
        let mut places = Vec::from_elem(alloc, 0u32, ends.len())?;
        write_fours(ends, places.as_mut_slice());
        Ok(Places::Fours(places))
    } else {
        Ok(Places::Eights(Vec::from_slice(alloc, ends)?))
    }
}
