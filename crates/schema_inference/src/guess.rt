//! What the files of a folder look like: a guess, which is to be checked.
ghost use Rattle.std.specs.Prelude.{◌≡◌, IfOk};
ghost use Rattle.schema_inference.specs.Looks.{IsNamed};

use crate::fault::{LeftOut, Warning};
use crate::sight::TableGuess;
use crate::warnings::{Warnings, column_warnings, day_warnings, header_warnings};
use cell_types::Datatype;
use csvw_meta::{Limits, Schema, table_name};
use std::alloc::{AllocError, Global};
use type_inference::Candidates;

/// What files look like.
pub struct Guess {
    /// The schemas of the files that are tables which can be served, in the order of the files.
    pub schemas: Vec<Schema>,
    /// The other files, in their order.
    pub left_out: Vec<LeftOut>,
    /// What the publisher of the files that have schemas should look at.
    pub warnings: Vec<Warning>,
}

impl Drop for Guess {
    fn drop(self) {
        let Guess {
            schemas: _,
            left_out: _,
            warnings: _,
        } = self;
    }
}

/// What is looked for.
#[derive(Clone, Copy)]
pub struct Aims {
    pub limits: Limits,
    /// Whether tables get keys.
    pub keys: bool,
}

/// Who looks at files, one after another.
pub struct Guesser {
    pub alloc: Global,
    pub(crate) aims: Aims,
    pub(crate) candidates: Candidates,
    warnings: Warnings,
}

impl Drop for Guesser {
    fn drop(self) {
        self.into_warnings();
    }
}

impl Guesser {
    /// Returns who has looked at no file.
    pub fn new(alloc: Global, aims: Aims) -> Result<Guesser, AllocError>
        ensures { IfOk result (λ guesser. guesser.aims ≡ aims) }
    {
        let candidates = Candidates::new(alloc)?;
        Ok(Guesser {
            alloc,
            aims,
            candidates,
            warnings: Warnings {
                alloc,
                list: Vec::new(alloc),
                is_short: false,
            },
        })
    }

    /// Adds what there is to look at in a table, the file of a number.
    fn warn(&mut self, file: usize, looked: &TableGuess)
        ensures { self.new.aims ≡ self.old.aims }
    {
        let known = looked.seen.cells.known.as_slice();
        let columns = looked.columns.as_slice();
        let warnings = &mut self.warnings;
        column_warnings(
            warnings,
            file,
            known,
            looked.sights.columns.as_slice(),
            columns,
        );
        day_warnings(warnings, file, &looked.days);
        header_warnings(
            warnings,
            file,
            &looked.seen.first,
            &looked.seen.lines,
            columns,
        );
    }

    /// Returns the columns of the key of a table: the first, if it may be that.
    fn key_of(&self, looked: &TableGuess) -> &'static [usize] {
        if self.aims.keys
            && looked.seen.may_be_key
            && let Some(column) = looked.columns.first()
            && matches!(column.datatype, Datatype::Integer | Datatype::Text)
        {
            return &[0];
        }
        &[]
    }

    /// Returns the schema of a table with that url, the file of a number, and adds what there is to look at in it. If its first column may be the key, it is.
    pub fn schema_of(
        &mut self,
        number: usize,
        url: &str,
        looked: TableGuess,
    ) -> Result<Schema, AllocError>
        ensures named { IfOk result (IsNamed url.now) }
        ensures aims { self.new.aims ≡ self.old.aims }
    {
        let alloc = self.alloc;
        self.warn(number, &looked);
        let key = self.key_of(&looked);
        Ok(Schema {
            key: Vec::from_slice(alloc, key)?,
            url: String::from_str(alloc, url)?,
            name: String::from_str(alloc, table_name(url))?,
            columns: looked.into_columns(),
        })
    }

    /// Returns what there is to look at alone.
    fn into_warnings(self) -> Warnings {
        let Guesser {
            warnings,
            alloc: _,
            aims: _,
            candidates: _,
        } = self;
        warnings
    }

    /// Returns what the files look like that have these schemas, or are left out.
    pub fn end(self, schemas: Vec<Schema>, left_out: Vec<LeftOut>) -> Result<Guess, AllocError>
        ensures schemas { IfOk result (λ guess. guess.schemas.items ≡ schemas.items) }
        ensures left_out { IfOk result (λ guess. guess.left_out.items ≡ left_out.items) }
    {
        let warnings = self.into_warnings();
        if warnings.is_short {
            return Err(AllocError);
        }
        Ok(Guess {
            schemas,
            left_out,
            warnings: warnings.list,
        })
    }
}
