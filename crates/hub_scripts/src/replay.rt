//! Event scripts over a folder: each line is a command to a hub of connections and is answered by one line; the first that is no command ends the replay.
ghost use Rattle.std.specs.Prelude.{◌≡◌};
ghost use Rattle.event_scripts.specs.Command as command;
ghost use Rattle.event_scripts.specs.Command.{command_view};
ghost use Rattle.odata_hub.specs.Stands.{Models};
ghost use Rattle.odata_hub.specs.Schedules.{HubOf};
ghost use Rattle.hub_scripts.specs.Laws.{ReloadsAreOneLine};
ghost use Rattle.hub_scripts.specs.Replay.{IsAnsweredInLine, IsKeptFolder, IsLinePlayed, IsPlayed, IsReplay, PlaysSchedule, replay_place, playing_of, replay_of, stage};

use crate::answers::{done_line, opened_line, take_line, turned_line};
use event_scripts::{Command, CommandFault, first_line, read_command, text_line};
use exit_statuses::{ProgramFault, REFUSED, fault_line};
use odata_http::{Sink, send};
use odata_hub::{Conn, Hub};
use served_folders::{FolderFault, Folders};
use std::alloc::Global;
use std::rc::Rc;

/// How many slots the hub has on which a script is played.
pub const PLACES: u32 = 64;

/// The number of these places.
pub fn limits()
    ensures { PLACES ≡ 64 }
{}

/// The outcomes of lines are a schedule of the hub.
pub fn plays_schedule()
    ensures { PlaysSchedule }
{}

/// What a folder comes to that a script asks for is printed as one line.
pub fn reloads_are_one_line()
    ensures { ReloadsAreOneLine }
{
    exit_statuses::faults_are_one_line();
}

/// Returns the line of a folder that is refused. If it is not refused, the fault is given back.
fn kept_line(alloc: Global, fault: FolderFault) -> Result<Vec<u8>, ProgramFault>
    ensures { IsKeptFolder fault result }
{
    let whole = ProgramFault::Folder(fault);
    match fault_line(alloc, &whole) {
        Ok((text, REFUSED)) => Ok(text_line(alloc, text.as_str())?),
        Ok(_) => Err(whole),
        Err(_) => Err(ProgramFault::NoMemory),
    }
}

/// Loads a folder, whose tables are the current ones from then on, unless it is refused.
fn reload_line<F: Folders>(
    alloc: Global,
    folders: &mut F,
    hub: &mut Hub,
    folder: &str,
) -> Result<Vec<u8>, ProgramFault>
    ensures { IsAnsweredInLine (command.Reload folder.now) hub.old (F.folders folders.old)
        hub.new (F.folders folders.new) result }
{
    match folders.load(alloc, folder) {
        Ok(catalog) => {
            let Ok(tables) = Rc::new(alloc, catalog) else {
                return Err(ProgramFault::NoMemory);
            };
            hub.reload(tables);
            Ok(done_line(alloc, Ok(()))?)
        }
        Err(fault) => kept_line(alloc, fault),
    }
}

/// Does what a command asks for, and gives the line of its answer.
fn command_line<F: Folders>(
    alloc: Global,
    folders: &mut F,
    hub: &mut Hub,
    command: &Command<'_>,
) -> Result<Vec<u8>, ProgramFault>
    ensures { IsAnsweredInLine (command_view command.now) hub.old (F.folders folders.old)
        hub.new (F.folders folders.new) result }
{
    match command {
        Command::Open => Ok(opened_line(alloc, hub.open())?),
        Command::Piece { place, bytes } => {
            Ok(done_line(alloc, hub.piece(Conn(*place), bytes.as_slice()))?)
        }
        Command::End { place } => Ok(done_line(alloc, hub.end(Conn(*place)))?),
        Command::Turn { place } => Ok(turned_line(alloc, hub.turn(Conn(*place)))?),
        Command::Take { place, room } => Ok(take_line(alloc, hub, *place, *room)?),
        Command::Drop { place } => Ok(done_line(alloc, hub.drop_conn(Conn(*place)))?),
        Command::Reload { folder } => reload_line(alloc, folders, hub, folder),
    }
}

/// Plays one line; reports its number if it is no command.
fn play_line<F: Folders, W: Sink>(
    alloc: Global,
    folders: &mut F,
    hub: &mut Hub,
    line: &[u8],
    number: u64,
    out: &mut W,
) -> Result<(), ProgramFault>
    ensures { IsLinePlayed line.now number
        (replay_place hub.old (F.folders folders.old) (W.sink out.old))
        (replay_place hub.new (F.folders folders.new) (W.sink out.new)) result }
{
    let command = match read_command(alloc, line) {
        Ok(command) => command,
        Err(CommandFault::Bad) => return Err(ProgramFault::Script { line: number }),
        Err(CommandFault::NoMemory) => return Err(ProgramFault::NoMemory),
    };
    let text = command_line(alloc, folders, hub, &command)?;
    match send(out, text.as_slice()) {
        Ok(()) => Ok(()),
        Err(_) => Err(ProgramFault::Device),
    }
}

/// Plays the lines of a script, one after another.
fn play_lines<F: Folders, W: Sink>(
    alloc: Global,
    folders: &mut F,
    hub: &mut Hub,
    script: &[u8],
    out: &mut W,
) -> Result<(), ProgramFault>
    ensures { (start : HubOf) → Models hub.old start → IsPlayed
        (playing_of script.now (stage start (F.folders folders.old)) (F.folders folders.new)
        (W.sink out.old) (W.sink out.new))
        result }
{
    let mut rest = script;
    let mut number: u64 = 1;
    while let Some((line, behind)) = first_line(rest) {
        match play_line(alloc, folders, hub, line, number, out) {
            Ok(()) => {}
            Err(fault) => return Err(fault),
        }
        rest = behind;
        number += 1;
    }
    Ok(())
}

/// Loads the folder of that name, and plays the script on a hub of [`PLACES`] places over it: the line of each answer is written before the next
/// command is read. The first line that is no command is `Script`, after the lines before it.
pub fn replay_script<F: Folders, W: Sink>(
    alloc: Global,
    folders: &mut F,
    name: &str,
    script: &[u8],
    out: &mut W,
) -> Result<(), ProgramFault>
    ensures { IsReplay (replay_of name.now script.now (F.folders folders.old)
        (F.folders folders.new) (W.sink out.old) (W.sink out.new)) result }
{
    let catalog = match folders.load(alloc, name) {
        Ok(catalog) => catalog,
        Err(fault) => return Err(ProgramFault::Folder(fault)),
    };
    let Ok(tables) = Rc::new(alloc, catalog) else {
        return Err(ProgramFault::NoMemory);
    };
    match Hub::new(alloc, tables, PLACES) {
        Ok(mut hub) => play_lines(alloc, folders, &mut hub, script, out),
        Err(_) => Err(ProgramFault::NoMemory),
    }
}
