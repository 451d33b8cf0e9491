//! Files as people have them, converted to tables of RFC 4180 in UTF-8 whose cells have forms that CSVW reads: other encodings, separators, line breaks, lines before the
//! header, rows of other widths, numbers, dates and words. Nothing is changed that loses something, unless it is asked for.
#![tactic(auto)]

mod asks;
mod cells;
mod conversion;
mod fault;
mod made;
mod report;
mod rows;
mod source;
mod stages;
mod table;
mod windows;

pub use asks::{ConvertOptions, Rule, What};
pub use cells::{is_blank, lines_before, record_at};
pub use conversion::FileConversion;
pub use fault::ConvertFault;
pub use made::{has_time, is_dropped};
pub use report::{ColumnReport, Converted, Counts, Found, ReportKind};
pub use source::{FileText, Rest};
pub use stages::TableStage;
pub use windows::whole_len;
