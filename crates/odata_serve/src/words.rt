//! The words of the program's command line, read by `clap` as one command with a subcommand for each thing that the program does.
//! What is read is `clap`'s reading of that command, no more and no less.
ghost use Rattle.std.specs.Prelude.{◌≡◌, IfOk, IfErr, IfNone, IfSome, false, Some};
ghost use Rattle.clap.specs.Words.{app_of, found_of, rows_of, rule_of, subcommand_rows_of, with_subcommand};
ghost use Rattle.clap.specs.declared.Command.TheViews.{out-Command};
ghost use Rattle.odata_serve.specs.Words.{AreWords, IsTaken, SaysWords, SaysNothing, connections_rule, folder_app, folder_and_app, program_app, serve_app};
ghost use Rattle.cli_args.specs.Words.{texts};

use clap::error::ErrorKind;
use clap::{Arg, ArgMatches, Command, value_parser};
use cli_args::{number, port, port_option, required, text};
use std::alloc::{AllocError, Global};

/// What the program is asked to do.
#[derive(Clone, Copy)]
pub enum Words<'a> {
    /// To answer standard input over the folder that is built in.
    Nothing,
    /// To say whether a folder is served.
    Check {
        folder: &'a str,
    },
    /// To answer one target over a folder.
    Query {
        folder: &'a str,
        target: &'a str,
    },
    /// To answer the stream of a file over a folder.
    Answer {
        folder: &'a str,
        file: &'a str,
    },
    /// To play the script of a file over a folder.
    Replay {
        folder: &'a str,
        script: &'a str,
    },
    /// To answer a number of connections to a port, one after another, over a folder.
    Serve {
        folder: &'a str,
        port: u16,
        connections: u32,
    },
}

/// Why no words were read.
#[derive(Clone, Copy)]
pub enum WordsFault {
    /// They are no command of the program.
    Usage,
    /// Memory ran out.
    NoMemory,
}

impl From<AllocError> for WordsFault {
    ghost use Rattle.odata_serve.specs.declared.words.WordsFault.TheVariants.{NoMemory};

    ghost from_gives = { λ _ e. e ≡ NoMemory };

    fn from(_e: AllocError) -> WordsFault {
        WordsFault::NoMemory
    }
}

/// Returns the option `--connections N`.
fn connections_option<'a>(alloc: Global) -> Arg<'a>
    ensures rule { rule_of result ≡ connections_rule }
    ensures local { result.global ≡ false }
{
    let option = required(alloc, "connections").long("connections");
    option.value_parser(value_parser!(u32))
}

/// Returns a subcommand of that name over a folder.
fn folder_command<'a>(alloc: Global, name: &'a str) -> Result<Command<'a>, AllocError>
    ensures app { IfOk result (λ c. app_of c ≡ folder_app name.entry.now) }
    ensures local { IfOk result (λ c. (out-Command c).has_globals ≡ false) }
{
    Command::new(alloc, name).arg(required(alloc, "folder"))
}

/// Returns a subcommand of that name over a folder and one thing more.
fn folder_and_command<'a>(
    alloc: Global,
    name: &'a str,
    second: &'a str,
) -> Result<Command<'a>, AllocError>
    ensures app { IfOk result (λ c. app_of c ≡ folder_and_app name.entry.now second.entry.now) }
    ensures local { IfOk result (λ c. (out-Command c).has_globals ≡ false) }
{
    folder_command(alloc, name)?.arg(required(alloc, second))
}

/// Returns the subcommand `serve`.
fn serve_command<'a>(alloc: Global) -> Result<Command<'a>, AllocError>
    ensures app { IfOk result (λ c. app_of c ≡ serve_app) }
    ensures local { IfOk result (λ c. (out-Command c).has_globals ≡ false) }
{
    folder_command(alloc, "serve")?
        .arg(port_option(alloc))?
        .arg(connections_option(alloc))
}

/// Returns the command with a subcommand of that name over a folder and one thing more.
fn with_command<'a>(
    alloc: Global,
    whole: Command<'a>,
    name: &'a str,
    second: &'a str,
) -> Result<Command<'a>, AllocError>
    ensures app { IfOk result (λ c. app_of c ≡ with_subcommand (app_of whole.entry)
        (folder_and_app name.entry.now second.entry.now).top) }
{
    whole.subcommand(folder_and_command(alloc, name, second)?)
}

/// Returns the whole command.
fn program_command<'a>(alloc: Global) -> Result<Command<'a>, AllocError>
    ensures app { IfOk result (λ c. app_of c ≡ program_app) }
{
    let top = Command::new(alloc, "magpiecoffer").disable_help_subcommand(true);
    let one = top.subcommand(folder_command(alloc, "check")?)?;
    let two = with_command(alloc, one, "query", "target")?;
    let three = with_command(alloc, two, "answer", "file")?;
    let four = with_command(alloc, three, "replay", "script")?;
    four.subcommand(serve_command(alloc)?)
}

/// Returns what a subcommand with these arguments asks for.
#[tactic(auto, using(crate::proofs::Readings::no_connections))]
fn subcommand_words<'a>(name: &'a str, inner: &ArgMatches<'a>) -> Option<Words<'a>>
    ensures some { IfSome result (λ words.
        SaysWords words (Some (name.now, rows_of (found_of inner.now)))) }
    ensures none { IfNone result (SaysNothing (Some (name.now, rows_of (found_of inner.now)))) }
{
    match name {
        "check" => {
            let folder = text(inner, "folder")?;
            Some(Words::Check { folder })
        }
        "query" => {
            let folder = text(inner, "folder")?;
            let target = text(inner, "target")?;
            Some(Words::Query { folder, target })
        }
        "answer" => {
            let folder = text(inner, "folder")?;
            let file = text(inner, "file")?;
            Some(Words::Answer { folder, file })
        }
        "replay" => {
            let folder = text(inner, "folder")?;
            let script = text(inner, "script")?;
            Some(Words::Replay { folder, script })
        }
        "serve" => {
            let folder = text(inner, "folder")?;
            let port = port(inner)?;
            let connections = number(inner, "connections")?;
            Some(Words::Serve {
                folder,
                port,
                connections,
            })
        }
        _ => None,
    }
}

/// Returns what the matches ask for.
fn matches_words<'a>(matches: &ArgMatches<'a>) -> Option<Words<'a>>
    ensures some { IfSome result (λ words. SaysWords words (subcommand_rows_of matches.now)) }
    ensures none { IfNone result (SaysNothing (subcommand_rows_of matches.now)) }
{
    match matches.subcommand() {
        None => Some(Words::Nothing),
        Some((name, inner)) => subcommand_words(name, inner),
    }
}

/// Returns what the words of the command line ask for, the first of which is the program's own name: `Usage` exactly if `clap` does not take them, or they ask for help.
pub fn read_words<'a>(alloc: Global, words: &'a [&'a str]) -> Result<Words<'a>, WordsFault>
    ensures words { IfOk result (AreWords (texts words.now)) }
    ensures usage { IfErr result (λ e. e ≡ WordsFault.Usage → ¬ (IsTaken (texts words.now))) }
{
    let command = program_command(alloc)?;
    match command.try_get_matches_from(words) {
        Ok(matches) => match matches_words(&matches) {
            Some(read) => Ok(read),
            None => Err(WordsFault::Usage),
        },
        Err(error) => match error.kind() {
            ErrorKind::OutOfMemory => Err(WordsFault::NoMemory),
            _ => Err(WordsFault::Usage),
        },
    }
}
