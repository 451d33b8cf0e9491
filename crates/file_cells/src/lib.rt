//! The cells of a CSV file, column after column, as the file comes: [`FileReading`] is given its bytes piece by piece, and reads them window by window, so that the file is
//! never in memory as a whole. What comes of it is the columns of the file, or the first thing that is wrong with it before its keys.
#![tactic(auto)]

mod cells;
mod fault;
mod file_reading;
mod header;
mod laws;
mod loader;
mod parts;

pub use cells::{MOST_ROWS, read_rows};
pub use fault::{BadCell, FileFault};
pub use file_reading::{FileCells, FileReading, FileStep};
pub use header::first_mismatch;
pub use laws::worked_rows;
