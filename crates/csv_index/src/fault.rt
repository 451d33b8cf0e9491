//! What may be wrong with a file.
ghost use Rattle.std.specs.Prelude.{◌≡◌, IfOk, string_bytes};
ghost use Rattle.csv_index.specs.Fault.{text_fault_text};

use std::alloc::{AllocError, Global};

/// The first thing wrong with a file. Places are bytes from the file's first byte, a byte order mark included; rows count from
/// 0, which is the record after the header.
#[derive(Clone, Copy, PartialEq, Eq)]
pub enum TextFault {
    /// The bytes are not UTF-8; `at` is the length of their longest front that is.
    NotUtf8 { at: usize },
    /// A CR outside quotes, just before `at`, has no LF after it.
    BareCr { at: usize },
    /// A double quote at `at` stands inside an unquoted field.
    StrayQuote { at: usize },
    /// The byte at `at` follows a closing double quote, and is no comma, CR or LF.
    AfterQuote { at: usize },
    /// The file ends, at `at`, inside double quotes or after a CR.
    Unfinished { at: usize },
    /// The file has no byte but a byte order mark.
    NoHeader,
    /// This row is the first that has not as many fields as the header.
    Width { row: usize },
    /// Memory ran out.
    NoMemory,
}

impl From<AllocError> for TextFault {
    ghost use Rattle.csv_index.specs.declared.fault.TextFault.TheVariants.{NoMemory};

    ghost from_gives = { λ _ fault. fault ≡ NoMemory };

    fn from(_: AllocError) -> TextFault {
        TextFault::NoMemory
    }
}

impl TextFault {
    /// Returns its name, followed by its place or row, as in `BareCr at 3`.
    pub fn text(self, alloc: Global) -> Result<String, AllocError>
        ensures { IfOk result (λ text. string_bytes text ≡ text_fault_text self) }
    {
        match self {
            TextFault::NotUtf8 { at } => format!(in alloc; "NotUtf8 at {at}"),
            TextFault::BareCr { at } => format!(in alloc; "BareCr at {at}"),
            TextFault::StrayQuote { at } => format!(in alloc; "StrayQuote at {at}"),
            TextFault::AfterQuote { at } => format!(in alloc; "AfterQuote at {at}"),
            TextFault::Unfinished { at } => format!(in alloc; "Unfinished at {at}"),
            TextFault::NoHeader => String::from_str(alloc, "NoHeader"),
            TextFault::Width { row } => format!(in alloc; "Width row {row}"),
            TextFault::NoMemory => String::from_str(alloc, "NoMemory"),
        }
    }
}
