//! The datatypes that a column may be drafted with, each as a column in which cells are read; and the texts that may stand for null.
use cell_types::{BooleanForm, Column, Datatype, DateForm};
use std::alloc::{AllocError, Global};

/// How many datatypes other than `string` there are.
const DATATYPE_COUNT: usize = 16;

/// The words of true and of false of the booleans that have a format, which come after the one that has none.
const TRUE_WORDS: [&str; 9] = ["Y", "y", "yes", "Yes", "YES", "T", "t", "True", "TRUE"];

const FALSE_WORDS: [&str; 9] = ["N", "n", "no", "No", "NO", "F", "f", "False", "FALSE"];

/// The indexes of all.
pub const PLACES: [usize; 16] = [0, 1, 2, 3, 4, 5, 6, 7, 8, 9, 10, 11, 12, 13, 14, 15];

/// The indexes of the two forms among them that differ in which of day and month comes first.
pub const DAY_FIRST: usize = 13;

pub const MONTH_FIRST: usize = 14;

/// How many texts may stand for null beside the empty one.
pub const WORD_COUNT: usize = 7;

/// The texts that may stand for null beside the empty one.
pub const NULL_WORDS: [&str; 7] = ["NA", "N/A", "NULL", "null", "-", ".", "#N/A"];

/// The most bytes of one of them.
const MOST_WORD: usize = 4;

/// The columns in which the cells of a file that are not null are read to draft its own: one for each datatype, in which no text stands for null.
#[derive(Drop)]
pub struct Candidates {
    pub typed: Vec<Column>,
}

/// Returns the index of a text among those that may stand for null beside the empty one.
pub fn null_word(text: &str) -> Option<usize> {
    match text.as_bytes().first() {
        // most texts begin with none of these
        Some(b'N' | b'n' | b'-' | b'.' | b'#') if text.len() <= MOST_WORD => {
            NULL_WORDS.iter().position(|word| *word == text)
        }
        _ => None,
    }
}

/// Returns booleans with a format of those two words.
fn boolean_of(alloc: Global, of_true: &str, of_false: &str) -> Result<Datatype, AllocError> {
    let of_true = String::from_str(alloc, of_true)?;
    let of_false = String::from_str(alloc, of_false)?;
    Ok(Datatype::Boolean(BooleanForm::Texts(of_true, of_false)))
}

/// Returns the datatype of an index among those other than `string`. Integers come before booleans, so that `0` and `1` alone are integers, and before
/// dates, so that eight digits are one.
pub fn datatype_at(alloc: Global, place: usize) -> Result<Datatype, AllocError> {
    match place {
        0 => Ok(Datatype::Integer),
        1 => Ok(Datatype::Boolean(BooleanForm::Standard)),
        2..=10 => {
            let place = place - 2;
            boolean_of(alloc, TRUE_WORDS[place], FALSE_WORDS[place])
        }
        11 => Ok(Datatype::Decimal),
        12 => Ok(Datatype::Date(DateForm::YearMonthDay)),
        13 => Ok(Datatype::Date(DateForm::DayMonthYear)),
        14 => Ok(Datatype::Date(DateForm::MonthDayYear)),
        _ => Ok(Datatype::Date(DateForm::Dotted)),
    }
}

impl Candidates {
    pub fn new(alloc: Global) -> Result<Candidates, AllocError> {
        let mut typed = Vec::new(alloc);
        for place in 0..DATATYPE_COUNT {
            let datatype = datatype_at(alloc, place)?;
            typed.push(Column {
                name: String::new(alloc),
                titles: Vec::new(alloc),
                datatype,
                nulls: Vec::new(alloc),
                default: String::new(alloc),
                required: false,
            })?;
        }
        Ok(Candidates { typed })
    }
}
