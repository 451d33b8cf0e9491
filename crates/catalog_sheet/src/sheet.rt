//! What is shown, written piece by piece.
ghost use Rattle.std.specs.Prelude.{◌≡◌, IfOk, [], false, is_ok, true};
ghost use Rattle.cell_types.specs.Value.{value_view};
ghost use Rattle.catalog_sheet.specs.Sheet.{IsLongerBy};
ghost use Rattle.diagnostics.specs.Value.{shown_value};
ghost use Rattle.std.specs.Fmt.{decimal};

use cell_types::Value;
use diagnostics::push_value;
use reply_values::push_number;
use std::alloc::{AllocError, Global};

/// Bytes that grow. If memory runs out that is kept in them, so that a piece has no failure of its own.
#[derive(Drop)]
pub struct Sheet {
    pub alloc: Global,
    pub bytes: Vec<u8>,
    pub is_short: bool,
}

impl Sheet {
    pub fn new(alloc: Global) -> Sheet
        ensures bytes { result.bytes.items ≡ [] }
        ensures short { result.is_short ≡ false }
    {
        Sheet {
            alloc,
            bytes: Vec::new(alloc),
            is_short: false,
        }
    }

    /// Keeps whether memory ran out.
    pub fn keep(&mut self, end: Result<(), AllocError>)
        ensures whole { self.new.is_short ≡ false
            → (self.old.is_short ≡ false) × (is_ok end ≡ true) }
        ensures bytes { self.new.bytes ≡ self.old.bytes }
    {
        if end.is_err() {
            self.is_short = true;
        }
    }

    /// Appends a text.
    pub fn push(&mut self, text: &str)
        ensures { IsLongerBy self.old self.new text.now }
    {
        let pushed = self.bytes.extend_from_slice(text.as_bytes());
        self.keep(pushed);
    }

    /// Appends a number in decimal digits.
    pub fn push_number(&mut self, number: usize)
        ensures { IsLongerBy self.old self.new (decimal number) }
    {
        let pushed = push_number(&mut self.bytes, number as u64);
        self.keep(pushed);
    }

    /// Appends the text of a value.
    pub fn push_value(&mut self, value: &Value<'_>)
        ensures { IsLongerBy self.old self.new (shown_value (value_view value.now)) }
    {
        let pushed = push_value(self.alloc, &mut self.bytes, value);
        self.keep(pushed);
    }

    /// Returns the bytes, if memory has not run out.
    pub fn end(self) -> Result<Vec<u8>, AllocError>
        ensures { IfOk result (λ bytes. (self.is_short ≡ false) × (bytes ≡ self.bytes)) }
    {
        if self.is_short {
            return Err(AllocError);
        }
        Ok(self.bytes)
    }
}
