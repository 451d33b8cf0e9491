//! The words of the command line, read by `clap` as one command. What is read is `clap`'s reading of that command; and `clap` has the texts of `--help` and `--version`.
ghost use Rattle.std.specs.Prelude.{◌≡◌, None, Some, IfErr, IfOk};
ghost use Rattle.clap.specs.Words.{found_of, rows_of, subcommand_rows_of};
ghost use Rattle.cli_args.specs.Fault.{IsReadingOf, IsRefusal};
ghost use Rattle.cli_args.specs.Words.{texts};
ghost use Rattle.draft_args.specs.DraftCommand.{LineAsksFor, AsksNot, AsksSo, IsWordsFault, whole_command};

use crate::conversion::{Conversion, conversion_of, convert_command};
use clap::ArgMatches;
use cli_args::{
    ArgsFault, VERSION, add_command, add_flag, add_folder, add_folder_command, flag, matches_of,
    text, top_command,
};
use std::alloc::Global;

/// What is said of words that are no command.
pub const USAGE_LINE: &str =
    "bad command line; usage: csvw_draft FOLDER [--write] [--no-key] [--skip-refused] [--add], csvw_draft show FOLDER, csvw_draft explain FOLDER, csvw_draft convert FOLDER OUT [--dry-run] [--skip-refused] [--skip-lines N] [--pad] [--round] [--null TEXT] [--columns FILE] [--json]";

/// What help says of the program.
const ABOUT: &str =
    "Prints a draft of csv-metadata.json for the CSV files of a folder; shows what the service understands of a folder, and explains why it refuses one; converts files of other forms";

/// What help says of `--write`.
const WRITE: &str =
    "Writes csv-metadata.json into the folder, if there is none; with --add over the one that is there";

/// What help says of `--skip-refused`.
const SKIP: &str = "Leaves out the files that are no tables";

/// What help says of `--add`.
const ADD: &str =
    "Adds the files and columns that csv-metadata.json does not have yet, and keeps the rest of it";

/// What help says of `show`.
const SHOW: &str =
    "Prints what the service understands of a folder: tables, columns, datatypes, nulls, least and greatest values, keys";

/// What help says of `explain`.
const EXPLAIN: &str =
    "Tells why a folder is refused: the file, the line, the column, the cell, and what would be accepted";

/// How the metadata of a folder is drafted.
#[derive(Clone, Copy)]
pub struct DraftOptions<'a> {
    pub folder: &'a str,
    /// It is written into the folder.
    pub write: bool,
    /// Tables have keys.
    pub keys: bool,
    /// Files that are no tables are left out.
    pub skip: bool,
    /// What the folder's metadata does not have yet is added to it.
    pub add: bool,
}

/// What the program is asked to do.
#[derive(Clone, Copy)]
pub enum DraftCommand<'a> {
    /// To draft the metadata of a folder.
    Draft(DraftOptions<'a>),
    /// To show what the service understands of a folder.
    Show { folder: &'a str },
    /// To explain why a folder is refused.
    Explain { folder: &'a str },
    /// To convert the files of a folder.
    Convert(Conversion<'a>),
}

/// Returns what `clap` reads of the words by the whole command, of which `help` is no word.
fn line_matches<'a>(alloc: Global, words: &'a [&'a str]) -> Result<ArgMatches<'a>, ArgsFault>
    ensures matches { IfOk result (IsReadingOf whole_command (texts words.now)) }
    ensures fault { IfErr result (IsRefusal whole_command (texts words.now)) }
{
    let top = top_command(alloc, "csvw_draft", ABOUT, VERSION, true);
    let one = add_folder(alloc, top, false, "The folder with the CSV files");
    let two = add_flag(alloc, one, "write", WRITE);
    let three = add_flag(alloc, two, "no-key", "Leaves out the keys");
    let four = add_flag(alloc, three, "skip-refused", SKIP);
    let five = add_flag(alloc, four, "add", ADD);
    let six = add_folder_command(alloc, five, "show", SHOW);
    let seven = add_folder_command(alloc, six, "explain", EXPLAIN);
    let whole = add_command(seven, convert_command(alloc));
    matches_of(whole, words)
}

/// Returns what the words without a subcommand ask for.
fn draft_asked<'a>(matches: &ArgMatches<'a>) -> Result<DraftCommand<'a>, ArgsFault>
    ensures words { IfOk result (λ words. AsksSo words (rows_of (found_of matches.now)) None) }
    ensures fault { IfErr result (λ fault. (fault ≡ ArgsFault.Usage)
        × AsksNot (rows_of (found_of matches.now)) None) }
{
    match text(matches, "folder") {
        Some(folder) => {
            let write = flag(matches, "write");
            let no_key = flag(matches, "no-key");
            let skip = flag(matches, "skip-refused");
            let add = flag(matches, "add");
            Ok(DraftCommand::Draft(DraftOptions {
                folder,
                write,
                keys: !no_key,
                skip,
                add,
            }))
        }
        None => Err(ArgsFault::Usage),
    }
}

/// Returns what the words of a subcommand ask for, before which no argument stands.
fn subcommand_words<'a>(
    matches: &ArgMatches<'a>,
    name: &'a str,
    inner: &ArgMatches<'a>,
) -> Result<DraftCommand<'a>, ArgsFault>
    ensures words { IfOk result (λ words. AsksSo words (rows_of (found_of matches.now))
        (Some (name.now, rows_of (found_of inner.now)))) }
    ensures fault { IfErr result (λ fault. (fault ≡ ArgsFault.Usage)
        × AsksNot (rows_of (found_of matches.now))
        (Some (name.now, rows_of (found_of inner.now)))) }
{
    if matches.args_present() {
        return Err(ArgsFault::Usage);
    }
    let Some(folder) = text(inner, "folder") else {
        return Err(ArgsFault::Usage);
    };
    match name {
        "show" => Ok(DraftCommand::Show { folder }),
        "explain" => Ok(DraftCommand::Explain { folder }),
        "convert" => match conversion_of(inner, folder) {
            Some(asks) => Ok(DraftCommand::Convert(asks)),
            None => Err(ArgsFault::Usage),
        },
        _ => Err(ArgsFault::Usage),
    }
}

/// Returns what the matches ask for.
fn matches_words<'a>(matches: &ArgMatches<'a>) -> Result<DraftCommand<'a>, ArgsFault>
    ensures words { IfOk result (λ words. AsksSo words (rows_of (found_of matches.now))
        (subcommand_rows_of matches.now)) }
    ensures fault { IfErr result (λ fault. (fault ≡ ArgsFault.Usage)
        × AsksNot (rows_of (found_of matches.now)) (subcommand_rows_of matches.now)) }
{
    match matches.subcommand() {
        None => draft_asked(matches),
        Some((name, inner)) => subcommand_words(matches, name, inner),
    }
}

/// Returns what the words of the command line ask for, of which the first is the program's own name. They are `Usage` only if `clap` finds a mistake in them, or they
/// ask for nothing.
pub fn read_words<'a>(alloc: Global, words: &'a [&'a str]) -> Result<DraftCommand<'a>, ArgsFault>
    ensures words { IfOk result (LineAsksFor (texts words.now)) }
    ensures fault { IfErr result (IsWordsFault (texts words.now)) }
{
    match line_matches(alloc, words) {
        Ok(matches) => matches_words(&matches),
        Err(fault) => Err(fault),
    }
}
