//! What metadata is refused for, and the text of it.
ghost use Rattle.std.specs.Prelude.{◌≡◌, IfOk, string_bytes};
ghost use Rattle.csvw_meta.specs.Fault.{meta_fault_name, meta_fault_text};

use std::alloc::{AllocError, Global};
use text_escapes::escaped;

/// The first fault of the walk over metadata.
#[derive(Drop)]
pub enum MetaFault {
    /// More than 1,073,741,824 bytes, or no JSON text in UTF-8.
    NotJson,
    /// The metadata, a table or a column is no object.
    NotObject,
    /// The metadata names no table.
    NoTables,
    /// The metadata has more tables than the limit.
    TooManyTables,
    /// A table's `url` is no text of the form `name.csv`.
    BadUrl,
    /// A table's `url` is that of an earlier table.
    DuplicateUrl,
    /// A member or a datatype that is not served, by its name.
    Unsupported { key: String },
    /// A table has no `tableSchema`, nor has its group, that is an object with `columns`, a nonempty array.
    NoColumns,
    /// A table has more columns than the limit.
    TooManyColumns,
    /// A column's `name` is no text of the form of names.
    BadName,
    /// A column's `name` is that of an earlier column.
    DuplicateName,
    /// A `datatype` is neither a text nor an object whose `base` is a text, if it has one.
    BadDatatype,
    /// A `format` is no text, or not one that the datatype has.
    BadFormat,
    /// A `null` is neither a text nor an array of texts.
    BadNull,
    /// A `default` is no text.
    BadDefault,
    /// A `required` is neither true nor false.
    BadRequired,
    /// A column's `titles` is no text, no array of texts and no language map of such.
    BadTitles,
    /// A `primaryKey` is no text and no array of texts, is empty, or names a column twice or one that is not there.
    BadKey,
    /// Memory ran out.
    NoMemory,
}

impl MetaFault {
    /// Returns the name of the fault.
    pub fn name(&self) -> &'static str
        ensures { result.now ≡ meta_fault_name self.now }
    {
        match self {
            MetaFault::NotJson => "NotJson",
            MetaFault::NotObject => "NotObject",
            MetaFault::NoTables => "NoTables",
            MetaFault::TooManyTables => "TooManyTables",
            MetaFault::BadUrl => "BadUrl",
            MetaFault::DuplicateUrl => "DuplicateUrl",
            MetaFault::Unsupported { .. } => "Unsupported",
            MetaFault::NoColumns => "NoColumns",
            MetaFault::TooManyColumns => "TooManyColumns",
            MetaFault::BadName => "BadName",
            MetaFault::DuplicateName => "DuplicateName",
            MetaFault::BadDatatype => "BadDatatype",
            MetaFault::BadFormat => "BadFormat",
            MetaFault::BadNull => "BadNull",
            MetaFault::BadDefault => "BadDefault",
            MetaFault::BadRequired => "BadRequired",
            MetaFault::BadTitles => "BadTitles",
            MetaFault::BadKey => "BadKey",
            MetaFault::NoMemory => "NoMemory",
        }
    }

    /// Returns the name of the fault, and after `Unsupported` a space and the key, each control character of which is written as `\u` and four
    /// hexadecimal digits.
    pub fn text(&self, alloc: Global) -> Result<String, AllocError>
        ensures { IfOk result (λ text. string_bytes text ≡ meta_fault_text self.now) }
    {
        match self {
            MetaFault::Unsupported { key } => {
                let key = escaped(alloc, key.as_str())?;
                format!(in alloc; "Unsupported {key}")
            }
            fault => String::from_str(alloc, fault.name()),
        }
    }
}
