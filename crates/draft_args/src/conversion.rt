//! The subcommand `convert`, and what its words ask for.
ghost use Rattle.std.specs.Prelude.{◌≡◌, IfNone, IfSome, None, codes};
ghost use Rattle.clap.specs.Words.{first_of, found_of, rows_of};
ghost use Rattle.cli_args.specs.Command.{MakesCommand};
ghost use Rattle.draft_args.specs.Conversion.{SaysOptions, convert_app, flags_app};

use clap::{ArgMatches, Command};
use cli_args::{
    add_flag, add_folder, add_number, add_place, add_text, flag, inner_command, number, text,
};
use std::alloc::{AllocError, Global};

/// What help says of `convert`.
const CONVERT: &str =
    "Writes the tables of a folder's files as CSV files that are served, with their metadata, into a new folder, and reports each thing that it changes";

/// How the files of a folder are converted.
#[derive(Clone, Copy)]
pub struct Conversion<'a> {
    pub folder: &'a str,
    /// The folder that is made.
    pub out: &'a str,
    /// Nothing is written.
    pub dry_run: bool,
    /// Files that are no tables are left out.
    pub skip: bool,
    /// How many lines before the header are left out.
    pub skip_lines: Option<u32>,
    /// Short rows get empty cells.
    pub pad: bool,
    /// Numbers are rounded to six decimal places.
    pub round: bool,
    /// A text that stands for null in columns of texts.
    pub null: Option<&'a str>,
    /// A file with what is asked for in single columns.
    pub columns: Option<&'a str>,
    /// The report is JSON.
    pub json: bool,
}

/// Returns `convert FOLDER OUT` with its options that have no value.
fn command_with_flags<'a>(alloc: Global) -> Result<Command<'a>, AllocError>
    ensures { MakesCommand result flags_app }
{
    let inner = inner_command(alloc, "convert", CONVERT);
    let folder = add_folder(alloc, inner, true, "The folder with the files");
    let out = add_place(alloc, folder, "out", "OUT", "The folder that is made");
    let dry = add_flag(alloc, out, "dry-run", "Reports, and writes nothing");
    let skip = add_flag(
        alloc,
        dry,
        "skip-refused",
        "Leaves out the files that are no tables",
    );
    let pad = add_flag(alloc, skip, "pad", "Fills short rows with empty cells");
    let round = add_flag(alloc, pad, "round", "Rounds numbers to six decimal places");
    add_flag(alloc, round, "json", "Prints the report as JSON")
}

/// Returns the whole subcommand.
pub(crate) fn convert_command<'a>(alloc: Global) -> Result<Command<'a>, AllocError>
    ensures { MakesCommand result convert_app }
{
    let flags = command_with_flags(alloc);
    let lines = add_number(
        alloc,
        flags,
        "skip-lines",
        "N",
        "Leaves out lines before the header",
    );
    let null = add_text(
        alloc,
        lines,
        "null",
        "TEXT",
        "Makes a text null in columns of texts",
    );
    add_text(
        alloc,
        null,
        "columns",
        "FILE",
        "A file with a line for each column: TABLE.COLUMN: WORDS",
    )
}

/// Returns what the words of the subcommand ask for; `None` if the folder that is made is missing.
pub(crate) fn conversion_of<'a>(inner: &ArgMatches<'a>, folder: &'a str) -> Option<Conversion<'a>>
    ensures some { IfSome result (λ asks. (asks.folder.now ≡ folder.now)
        × SaysOptions asks (rows_of (found_of inner.now))) }
    ensures none { IfNone result (first_of (codes "out") (rows_of (found_of inner.now)) ≡ None) }
{
    let out = text(inner, "out")?;
    let dry_run = flag(inner, "dry-run");
    let skip = flag(inner, "skip-refused");
    let pad = flag(inner, "pad");
    let round = flag(inner, "round");
    let json = flag(inner, "json");
    let skip_lines = number(inner, "skip-lines");
    let null = text(inner, "null");
    let columns = text(inner, "columns");
    Some(Conversion {
        folder,
        out,
        dry_run,
        skip,
        skip_lines,
        pad,
        round,
        null,
        columns,
        json,
    })
}
