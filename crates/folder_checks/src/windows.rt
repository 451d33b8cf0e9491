//! A file that comes in pieces, of which the whole lines are read.
ghost use Rattle.std.specs.Prelude.{◌≡◌, ◌≤◌, ◌+◌, ◌^◌, ◌++◌, ℕ, List, [], IfOk, IfErr, IfSome, drop, length, vec_len};
ghost use Rattle.csv_grammar.specs.Files.{IsFileFault};
ghost use Rattle.csv_index.specs.Fault.{text_cause};
ghost use Rattle.folder_checks.specs.Windows.{fed_len, EndsWindows, HasWindows, IsGivenTo, ReadsWindowOn};

use csv_index::{IndexedText, TextFault};
use csv_windows::{FirstLines, Front, Piece, TableSize};
use std::alloc::Global;

/// How many bytes a window has at least if no record is longer.
const WINDOW: usize = 262_144;

/// A file that comes in pieces.
#[derive(Drop)]
pub struct Windows {
    front: Front,
    /// The bytes that are not read.
    window: Vec<u8>,
    /// How many of them are to be there before more are read.
    size: usize,
}

/// What a piece leaves.
#[derive(Drop)]
pub enum Fed {
    /// More rows, after first lines.
    Rows(FirstLines, IndexedText, Windows),
    /// None.
    On(Windows),
}

/// Returns bytes without the first `at`.
fn without_front(mut bytes: Vec<u8>, at: usize) -> Vec<u8>
    requires { at ≤ vec_len bytes }
    ensures { result.items ≡ drop at bytes.items }
{
    let len = bytes.len();
    bytes.copy_within(at..len, 0);
    bytes.truncate(len - at);
    bytes
}

impl Windows {
    /// Begins with a file, of which nothing is given.
    pub fn start(alloc: Global) -> Windows
        ensures { IsGivenTo [] result }
    {
        Windows {
            front: Front::start(),
            window: Vec::new(alloc),
            size: WINDOW,
        }
    }

    /// Returns how many bytes were given.
    pub fn given(&self) -> usize
        requires { (given : List ℕ) × IsGivenTo given self.now }
        ensures is { result ≡ fed_len self.now }
        ensures all { (given : List ℕ) → IsGivenTo given self.now → result ≡ length given }
    {
        self.front.len + self.window.len()
    }

    /// Reads the whole lines that were given.
    fn read(self, alloc: Global) -> Result<Fed, TextFault>
        requires { (given : List ℕ) × IsGivenTo given self }
        ensures reads { IfOk result (λ fed. (given : List ℕ) (front : List ℕ)
            → HasWindows given front self → ReadsWindowOn given front self fed) }
        ensures fault { IfErr result (λ e. (given : List ℕ) (more : List ℕ)
            → IsGivenTo given self → IfSome (text_cause e) (IsFileFault (given ++ more))) }
    {
        let Windows {
            front,
            window,
            size,
        } = self;
        match front.read(alloc, window.as_slice()) {
            Ok(Piece::Rows(new, file)) => {
                let windows = Windows {
                    front: new,
                    window: without_front(window, new.len - front.len),
                    size: WINDOW,
                };
                Ok(Fed::Rows(front.lines, file, windows))
            }
            Ok(Piece::Fault(new)) => Ok(Fed::On(Windows {
                front: new,
                window: without_front(window, new.len - front.len),
                size: WINDOW,
            })),
            Ok(Piece::Short) => Ok(Fed::On(Windows {
                front,
                window,
                size: size.saturating_mul(2),
            })),
            Err(fault) => Err(fault),
        }
    }

    /// Gives the next bytes of the file. The error is what is wrong with it whatever follows, or out of memory.
    pub fn feed(self, alloc: Global, bytes: &[u8]) -> Result<Fed, TextFault>
        requires given { (given : List ℕ) × IsGivenTo given self }
        requires room { fed_len self + length bytes.now ≤ 2 ^ 30 }
        ensures reads { IfOk result (λ fed. (given : List ℕ) (front : List ℕ)
            → HasWindows given front self → ReadsWindowOn (given ++ bytes.now) front self fed) }
        ensures fault { IfErr result (λ e. (given : List ℕ) (more : List ℕ) → IsGivenTo given self
            → IfSome (text_cause e) (IsFileFault ((given ++ bytes.now) ++ more))) }
    {
        let Windows {
            front,
            mut window,
            size,
        } = self;
        window.extend_from_slice(bytes)?;
        let is_short = window.len() < size;
        let given = Windows {
            front,
            window,
            size,
        };
        if is_short {
            Ok(Fed::On(given))
        } else {
            given.read(alloc)
        }
    }

    /// Ends a file that was given whole. Returns the rows that are left, after first lines, and the size of the whole table.
    pub fn end(self, alloc: Global) -> Result<(FirstLines, IndexedText, TableSize), TextFault>
        requires { (given : List ℕ) × IsGivenTo given self }
        ensures rows { IfOk result (λ end. (given : List ℕ) (front : List ℕ)
            → HasWindows given front self → EndsWindows given front self end) }
        ensures fault { IfErr result (λ e. (given : List ℕ) → IsGivenTo given self
            → IfSome (text_cause e) (IsFileFault given)) }
    {
        let Windows { front, window, .. } = self;
        match front.finish(alloc, window.as_slice()) {
            Ok((size, file)) => Ok((front.lines, file, size)),
            Err(fault) => Err(fault),
        }
    }
}
