//! The numbers of rows that are kept: of each block the rows that were selected, or numbers of any order, four bytes each.
ghost use Rattle.std.specs.Prelude.{◌≡◌, ◌+◌, ◌++◌, ◌<◌, ◌≤◌, ◌^◌, [], IfOk, IfSome, OnErr, OnOk, length, map, slice_index_or};
ghost use Rattle.std.specs.List.{All};
ghost use Rattle.row_columns.specs.Chunks.{chunk_numbers, chunked_numbers, no_chunk, AreCounted};
ghost use Rattle.row_columns.specs.Numbers.{numbers_from};

use row_selection::Selection;
use std::alloc::{AllocError, Global};
use std::marker::Model;

/// How many numbers 32 bits tell.
const NUMBERS: usize = 1 << 32;

/// Selected rows, whose numbers are greater by a start.
#[derive(Drop)]
struct Chunk {
    /// How many numbers come before those of the chunk.
    before: usize,
    start: usize,
    rows: Selection,
}

/// Numbers: those of chunks, and others after them. They are seen as one list.
#[derive(Drop)]
pub(crate) struct RowNumbers {
    chunks: Vec<Chunk>,
    /// How many numbers the chunks have.
    count: usize,
    listed: Vec<u32>,
}

impl Model for RowNumbers {
    ghost use Rattle.std.specs.Prelude.{ℕ, List};
    ghost use Rattle.row_columns.specs.Chunks.{numbers_view, AreChunked};

    ghost Value = { List ℕ };

    ghost view = { numbers_view };

    ghost invariant = { AreChunked };
}

/// Appends a chunk. The first rows of a block that go on from those of one chunk before them become one chunk with them.
fn push_chunk(chunks: &mut Vec<Chunk>, chunk: Chunk) -> Result<(), AllocError>
    requires counted { AreCounted 0 chunks.old.items }
    requires before { chunk.before ≡ length (chunked_numbers chunks.old.items) }
    requires few { chunk.before + length chunk.rows ≤ 2 ^ 32 }
    ensures counted { AreCounted 0 chunks.new.items }
    ensures came { OnOk result
        (chunked_numbers chunks.new.items
        ≡ chunked_numbers chunks.old.items ++ chunk_numbers chunk) }
    ensures refused { OnErr result (chunks.new.items ≡ chunks.old.items) }
{
    if chunks.len() == 1 && chunks[0].rows.is_all() && chunk.rows.is_all() {
        let start = chunks[0].start;
        if start <= chunk.start && chunk.start - start == chunk.before {
            chunks[0].rows = Selection::all(chunk.before + chunk.rows.len());
            return Ok(());
        }
    }
    chunks.push(chunk)?;
    Ok(())
}

/// Returns the place of the last chunk that has at most `place` numbers before it.
fn chunk_of(chunks: &[Chunk], place: usize) -> usize
    requires some { 0 < length chunks.now }
    requires first { (slice_index_or chunks.now 0 no_chunk).before ≤ place }
    ensures within { result < length chunks.now }
    ensures before { (slice_index_or chunks.now result no_chunk).before ≤ place }
    ensures next { result + 1 < length chunks.now
        → place < (slice_index_or chunks.now (result + 1) no_chunk).before }
{
    let mut low = 0;
    let mut high = chunks.len();
    while high - low > 1 {
        let middle = low + (high - low) / 2;
        if chunks[middle].before <= place {
            low = middle;
        } else {
            high = middle;
        }
    }
    low
}

/// Returns the number at a place of chunks, one after another.
fn number_in(chunks: &[Chunk], place: usize) -> u32
    requires counted { AreCounted 0 chunks.now }
    requires fit { All (λ number. number < 2 ^ 32) (chunked_numbers chunks.now) }
    requires place { place < length (chunked_numbers chunks.now) }
    ensures { result ≡ slice_index_or (chunked_numbers chunks.now) place 0 }
{
    let chunk = &chunks[chunk_of(chunks, place)];
    (chunk.start + chunk.rows.at(place - chunk.before)) as u32
}

/// Appends the numbers of a chunk.
fn push_rows(alloc: Global, listed: &mut Vec<u32>, chunk: &Chunk) -> Result<(), AllocError>
    requires { All (λ number. number < 2 ^ 32) (chunk_numbers chunk.now) }
    ensures { OnOk result (listed.new.items ≡ listed.old.items ++ chunk_numbers chunk.now) }
{
    let rows = chunk.rows.to_vec(alloc)?;
    for row in rows.as_slice() {
        listed.push((chunk.start + *row) as u32)?;
    }
    Ok(())
}

impl RowNumbers {
    /// Returns no numbers.
    pub(crate) fn none(alloc: Global) -> RowNumbers
        ensures { result ≡ [] }
    {
        RowNumbers::listed(alloc, Vec::new(alloc))
    }

    /// Returns the first `count` numbers.
    pub(crate) fn first(alloc: Global, count: usize) -> Result<RowNumbers, AllocError>
        ensures { IfOk result (λ made. made ≡ numbers_from 0 count) }
    {
        // That many rows of values would not fit in memory.
        if count > NUMBERS {
            return Err(AllocError);
        }
        let mut made = RowNumbers::none(alloc);
        made.append(alloc, 0, Selection::all(count))?;
        Ok(made)
    }

    /// Returns these numbers.
    fn listed(alloc: Global, numbers: Vec<u32>) -> RowNumbers
        ensures { result ≡ numbers.items }
    {
        RowNumbers {
            chunks: Vec::new(alloc),
            count: 0,
            listed: numbers,
        }
    }

    /// Returns how many there are.
    pub(crate) fn len(&self) -> usize
        ensures { result ≡ length self.now }
    {
        self.count + self.listed.len()
    }

    /// Returns the number at a place.
    #[inline(always)]
    pub(crate) fn at(&self, place: usize) -> u32
        requires { place < length self.now }
        ensures { result ≡ slice_index_or self.now place 0 }
    {
        if place >= self.count {
            return self.listed[place - self.count];
        }
        number_in(self.chunks.as_slice(), place)
    }

    /// Returns the first of them and how many they are, if they are kept as rows that follow on one another.
    pub(crate) fn run(&self) -> Option<(usize, usize)>
        ensures { IfSome result (λ run. self.now ≡ numbers_from run.0 run.1) }
    {
        if self.chunks.len() != 1 || !self.chunks[0].rows.is_all() || !self.listed.is_empty() {
            return None;
        }
        Some((self.chunks[0].start, self.count))
    }

    /// Appends the selected rows, each number greater by `start`. If memory ran out, not all of them are there.
    pub(crate) fn append(
        &mut self,
        alloc: Global,
        start: usize,
        rows: Selection,
    ) -> Result<(), AllocError>
        requires { All (λ number. number < 2 ^ 32) (map (λ row. start + row) rows) }
        ensures { OnOk result (self.new ≡ self.old ++ map (λ row. start + row) rows) }
    {
        let len = rows.len();
        let before = self.count;
        let chunk = Chunk {
            before,
            start,
            rows,
        };
        if !self.listed.is_empty() {
            return push_rows(alloc, &mut self.listed, &chunk);
        }
        // That many rows of values would not fit in memory.
        if len > NUMBERS - before {
            return Err(AllocError);
        }
        push_chunk(&mut self.chunks, chunk)?;
        self.count = before + len;
        Ok(())
    }

    /// Lists the numbers one by one, unless they are kept as rows that follow on one another, so that each is found at once.
    pub(crate) fn list(&mut self, alloc: Global) -> Result<(), AllocError>
        ensures { self.new ≡ self.old }
    {
        if self.chunks.is_empty() || self.run().is_some() {
            return Ok(());
        }
        let mut listed = Vec::with_capacity(alloc, self.len())?;
        for chunk in self.chunks.as_slice() {
            push_rows(alloc, &mut listed, chunk)?;
        }
        listed.extend_from_slice(self.listed.as_slice())?;
        self.chunks.clear();
        self.count = 0;
        self.listed = listed;
        Ok(())
    }

    /// Returns those that have these places.
    pub(crate) fn picked(&self, alloc: Global, places: &[usize]) -> Result<RowNumbers, AllocError>
        requires { All (λ place. place < length self.now) places.now }
        ensures { IfOk result
            (λ made. made ≡ map (λ place. slice_index_or self.now place 0) places.now) }
    {
        let mut made = Vec::with_capacity(alloc, places.len())?;
        for place in places {
            made.push(self.at(*place))?;
        }
        Ok(RowNumbers::listed(alloc, made))
    }

    /// Drops all of them.
    pub(crate) fn clear(&mut self)
        ensures { self.new ≡ [] }
    {
        self.chunks.clear();
        self.count = 0;
        self.listed.clear();
    }
}
