//! A file is read as it comes, in steps, each of which reads a window of it.
ghost use Rattle.std.specs.Prelude.{◌≡◌, ◌+◌, ◌*◌, ◌<◌, ◌≤◌, ◌^◌, ◌++◌, List, ℕ, true, false, IfOk, IfErr, drop, length, map, vec_len};
ghost use Rattle.cell_types.specs.Column.{column_view, ColumnOf};
ghost use Rattle.file_cells.specs.Reading.{given_len, unread_of, reading_left, wants_more, IsReading, RefusesGiven, StepsOn};

use crate::fault::FileFault;
use crate::loader::Loader;
use cell_types::Column;
use column_blocks::TypedColumn;
use std::alloc::{AllocError, Global};

/// How many bytes a window has if no record is longer: those of two milliseconds.
const WINDOW: usize = 262_144;

/// A file that is read as it comes.
#[derive(Drop)]
pub struct FileReading {
    loader: Loader,
    /// Bytes that follow one another in the file, of which the first `at` are read.
    window: Vec<u8>,
    at: usize,
    /// Whether the file ends after them.
    ended: bool,
    /// How many bytes a window has.
    size: usize,
}

/// The cells of a file, by columns, and how many rows it has.
#[derive(Drop)]
pub struct FileCells {
    pub columns: Vec<TypedColumn>,
    pub rows: usize,
}

/// What a step leaves.
#[derive(Drop)]
pub enum FileStep {
    /// There is more to read.
    On(FileReading),
    /// The file is read.
    Over(FileCells),
}

/// Returns bytes without the first `at`.
fn without_front(mut bytes: Vec<u8>, at: usize) -> Vec<u8>
    requires { at ≤ vec_len bytes }
    ensures { result.items ≡ drop at bytes.items }
{
    let len = bytes.len();
    bytes.copy_within(at..len, 0);
    bytes.truncate(len - at);
    bytes
}

/// Returns the bytes of a window without the first `at`.
fn unread(window: &Vec<u8>, at: usize) -> &[u8]
    requires { at ≤ vec_len window.now }
    ensures { result.now ≡ drop at window.now.items }
{
    &window[at..]
}

/// Returns how many bytes the next window has after one of which `taken` were read.
fn size_after(size: usize, taken: usize) -> usize
    requires { size ≤ 2 ^ 31 }
    ensures longer { taken ≡ 0 → result ≡ 2 * size }
    ensures same { 0 < taken → result ≡ size }
{
    if taken == 0 { 2 * size } else { size }
}

impl FileReading {
    /// Begins to read a file, whose first bytes are given.
    pub fn start(bytes: Vec<u8>) -> FileReading
        requires { length bytes.items ≤ 2 ^ 30 }
        ensures { (columns : List ColumnOf) → IsReading columns bytes.items result }
    {
        FileReading {
            loader: Loader::start(),
            window: bytes,
            at: 0,
            ended: false,
            size: WINDOW,
        }
    }

    /// Returns how many bytes were given.
    pub fn given(&self) -> usize
        requires { (columns : List ColumnOf) × (given : List ℕ) × IsReading columns given self.now }
        ensures { result ≡ given_len self.now }
    {
        self.loader.front.len + (self.window.len() - self.at)
    }

    /// Returns true if the next step is to have more of the file, or its end.
    pub fn wants(&self) -> bool
        ensures { result ≡ wants_more self.now }
    {
        !self.ended && self.window.len().saturating_sub(self.at) < self.size
    }

    /// Gives the next bytes of the file. If there are none, it is at its end.
    pub fn feed(self, bytes: &[u8]) -> Result<FileReading, AllocError>
        requires wants { wants_more self ≡ true }
        requires room { given_len self + length bytes.now ≤ 2 ^ 30 }
        requires reads { (columns : List ColumnOf) × (given : List ℕ)
            × IsReading columns given self }
        ensures reads { IfOk result (λ new. (columns : List ColumnOf) (given : List ℕ)
            → IsReading columns given self → IsReading columns (given ++ bytes.now) new) }
        ensures left { IfOk result (λ new. reading_left new < reading_left self) }
    {
        let FileReading {
            loader,
            window,
            at,
            size,
            ..
        } = self;
        let mut window = without_front(window, at);
        window.extend_from_slice(bytes)?;
        Ok(FileReading {
            loader,
            window,
            at: 0,
            ended: bytes.is_empty(),
            size,
        })
    }

    /// Returns true if the rest of the file was given, and is no longer than a window.
    fn is_last(&self) -> bool
        requires { self.now.at ≤ vec_len self.now.window }
        ensures last { result ≡ true → self.now.ended ≡ true }
        ensures more { result ≡ false → wants_more self.now ≡ false
            → self.now.size ≤ length (unread_of self.now) }
    {
        self.ended && unread(&self.window, self.at).len() <= self.size
    }

    /// Reads the rest of the file.
    fn finish(self, alloc: Global, columns: &[Column]) -> Result<FileStep, FileFault>
        requires ended { self.ended ≡ true }
        requires reads { (given : List ℕ) × IsReading (map column_view columns.now) given self }
        ensures goes_on { IfOk result (StepsOn (map column_view columns.now) self) }
        ensures fault { IfErr result (RefusesGiven (map column_view columns.now) self) }
    {
        let FileReading {
            loader,
            window,
            at,
            ..
        } = self;
        match loader.finish(alloc, columns, unread(&window, at)) {
            Ok(read) => Ok(FileStep::Over(read)),
            Err(fault) => Err(fault),
        }
    }

    /// Reads one more window. If it has no whole line, the next one is twice as long.
    fn read_window(self, alloc: Global, columns: &[Column]) -> Result<FileStep, FileFault>
        requires room { self.size ≤ length (unread_of self) }
        requires reads { (given : List ℕ) × IsReading (map column_view columns.now) given self }
        ensures goes_on { IfOk result (StepsOn (map column_view columns.now) self) }
        ensures fault { IfErr result (RefusesGiven (map column_view columns.now) self) }
    {
        let FileReading {
            loader,
            window,
            at,
            ended,
            size,
        } = self;
        let front = loader.front.len;
        match loader.read(alloc, columns, &unread(&window, at)[..size]) {
            Ok(loader) => {
                let taken = loader.front.len - front;
                Ok(FileStep::On(FileReading {
                    loader,
                    window,
                    at: at + taken,
                    ended,
                    size: size_after(size, taken),
                }))
            }
            Err(fault) => Err(fault),
        }
    }

    /// Reads one more window, or the rest of the file. Once the file is read, returns its cells, or what is first wrong with it before its keys.
    pub fn step(self, alloc: Global, columns: &[Column]) -> Result<FileStep, FileFault>
        requires ready { wants_more self ≡ false }
        requires reads { (given : List ℕ) × IsReading (map column_view columns.now) given self }
        ensures goes_on { IfOk result (StepsOn (map column_view columns.now) self) }
        ensures fault { IfErr result (RefusesGiven (map column_view columns.now) self) }
    {
        if self.is_last() {
            self.finish(alloc, columns)
        } else {
            self.read_window(alloc, columns)
        }
    }
}
