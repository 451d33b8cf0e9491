//! Commands, as they are made for `clap` one argument after the other, and what it reads by them. A call takes the command as the call before it left it, and passes
//! out of memory on. What help says of a command and of its arguments no clause says.
ghost use Rattle.std.specs.Prelude.{◌≡◌, IfErr, IfOk, false, is_ok, true};
ghost use Rattle.clap.specs.Words.{App, is_simple_and_free, new_app, rule_of, with_rule, with_subcommand};
ghost use Rattle.cli_args.specs.Command.{MakesCommand, flag_rule, folder_rule, number_rule, optional_rule, over_folder, place_rule, program_named, shown_rule, text_rule};
ghost use Rattle.cli_args.specs.Fault.{IsReadingOf, IsRefusal};
ghost use Rattle.cli_args.specs.Words.{port_rule, texts};

use crate::fault::{ArgsFault, fault_by};
use crate::words::port_option;
use clap::{Arg, ArgAction, ArgMatches, Command, value_parser};
use std::alloc::{AllocError, Global};

/// What help says of a folder that is served.
pub const FOLDER_HELP: &str = "The folder, with csv-metadata.json and the files that it names";

/// The version of all programs, which `--version` prints.
pub const VERSION: &str = "1.1.0";

/// Returns the command of a program, without its arguments; and whether `help` is left out beside its subcommands.
pub fn top_command<'a>(
    alloc: Global,
    name: &'a str,
    about: &'a str,
    version: &'a str,
    no_help: bool,
) -> Result<Command<'a>, AllocError>
    ensures app { MakesCommand result (program_named name.entry.now no_help) }
    ensures made { is_ok result ≡ true }
{
    let command = Command::new(alloc, name).about(about).version(version);
    Ok(command.disable_help_subcommand(no_help))
}

/// Returns the command with one more argument.
fn add<'a>(
    command: Result<Command<'a>, AllocError>,
    argument: Arg<'a>,
) -> Result<Command<'a>, AllocError>
    ensures app { (app : App) → MakesCommand command.entry app → argument.entry.global ≡ false
        → MakesCommand result (with_rule app (rule_of argument.entry)) }
{
    command?.arg(argument)
}

/// Returns the command with the folder as its argument, which it may need.
pub fn add_folder<'a>(
    alloc: Global,
    command: Result<Command<'a>, AllocError>,
    needed: bool,
    help: &'a str,
) -> Result<Command<'a>, AllocError>
    ensures app { (app : App) → MakesCommand command.entry app
        → MakesCommand result (with_rule app (folder_rule needed)) }
{
    let folder = Arg::new(alloc, "folder").value_name("FOLDER");
    add(command, folder.required(needed).help(help))
}

/// Adds a needed argument without an option to `command`, which help calls `value_name`.
pub fn add_place<'a>(
    alloc: Global,
    command: Result<Command<'a>, AllocError>,
    id: &'a str,
    value_name: &'a str,
    help: &'a str,
) -> Result<Command<'a>, AllocError>
    ensures app { (app : App) → MakesCommand command.entry app
        → MakesCommand result (with_rule app (place_rule id.entry.now)) }
{
    let place = Arg::new(alloc, id).value_name(value_name);
    add(command, place.required(true).help(help))
}

/// Adds the option `--port P` to `command`; it may be left out.
pub fn add_port<'a>(
    alloc: Global,
    command: Result<Command<'a>, AllocError>,
    help: &'a str,
) -> Result<Command<'a>, AllocError>
    ensures app { (app : App) → MakesCommand command.entry app
        → MakesCommand result (with_rule app (optional_rule (shown_rule port_rule))) }
{
    let option = port_option(alloc).required(false);
    add(command, option.value_name("P").help(help))
}

/// Returns the command with one more option with a text, which help calls by a letter.
pub fn add_text<'a>(
    alloc: Global,
    command: Result<Command<'a>, AllocError>,
    id: &'a str,
    letter: &'a str,
    help: &'a str,
) -> Result<Command<'a>, AllocError>
    ensures app { (app : App) → MakesCommand command.entry app
        → MakesCommand result (with_rule app (text_rule id.entry.now)) }
{
    let option = Arg::new(alloc, id).long(id);
    add(command, option.value_name(letter).help(help))
}

/// Returns the command with one more option with a number of 32 bits, which help calls by a letter.
pub fn add_number<'a>(
    alloc: Global,
    command: Result<Command<'a>, AllocError>,
    id: &'a str,
    letter: &'a str,
    help: &'a str,
) -> Result<Command<'a>, AllocError>
    ensures app { (app : App) → MakesCommand command.entry app
        → MakesCommand result (with_rule app (number_rule id.entry.now)) }
{
    let option = Arg::new(alloc, id).long(id).value_name(letter).help(help);
    add(command, option.value_parser(value_parser!(u32)))
}

/// Returns the command with one more option without a value.
pub fn add_flag<'a>(
    alloc: Global,
    command: Result<Command<'a>, AllocError>,
    id: &'a str,
    help: &'a str,
) -> Result<Command<'a>, AllocError>
    ensures app { (app : App) → MakesCommand command.entry app
        → MakesCommand result (with_rule app (flag_rule id.entry.now)) }
{
    let option = Arg::new(alloc, id).long(id).action(ArgAction::SetTrue);
    add(command, option.help(help))
}

/// Returns a subcommand without its arguments.
pub fn inner_command<'a>(
    alloc: Global,
    name: &'a str,
    about: &'a str,
) -> Result<Command<'a>, AllocError>
    ensures app { MakesCommand result (new_app name.entry.now) }
{
    Ok(Command::new(alloc, name).about(about))
}

/// Returns the command with one more subcommand.
pub fn add_command<'a>(
    command: Result<Command<'a>, AllocError>,
    inner: Result<Command<'a>, AllocError>,
) -> Result<Command<'a>, AllocError>
    ensures app { (app sub : App) → MakesCommand command.entry app → MakesCommand inner.entry sub
        → sub.top.is_plain ≡ true → MakesCommand result (with_subcommand app sub.top) }
{
    command?.subcommand(inner?)
}

/// Returns the command with one more subcommand, over a folder that is served.
pub fn add_folder_command<'a>(
    alloc: Global,
    command: Result<Command<'a>, AllocError>,
    name: &'a str,
    about: &'a str,
) -> Result<Command<'a>, AllocError>
    ensures app { (app : App) → MakesCommand command.entry app
        → MakesCommand result (with_subcommand app (over_folder name.entry.now).top) }
{
    let named = inner_command(alloc, name, about);
    add_command(command, add_folder(alloc, named, true, FOLDER_HELP))
}

/// Returns what `clap` reads of the words of a command line by a command, or why it does not take them.
pub fn matches_of<'a>(
    command: Result<Command<'a>, AllocError>,
    words: &'a [&'a str],
) -> Result<ArgMatches<'a>, ArgsFault>
    ensures matches { (app : App) → MakesCommand command.entry app → is_simple_and_free app ≡ true
        → IfOk result (IsReadingOf app (texts words.now)) }
    ensures fault { (app : App) → MakesCommand command.entry app → is_simple_and_free app ≡ true
        → IfErr result (IsRefusal app (texts words.now)) }
{
    let Ok(command) = command else {
        return Err(ArgsFault::NoMemory);
    };
    match command.try_get_matches_from(words) {
        Ok(matches) => Ok(matches),
        Err(error) => Err(fault_by(error)),
    }
}
