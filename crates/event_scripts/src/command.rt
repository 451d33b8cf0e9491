//! Commands, and a line read as one.
ghost use Rattle.std.specs.Prelude.{◌≡◌, ◌≢◌, ◌++◌, ℕ, List, IfErr, MatchOption, position};
ghost use Rattle.event_scripts.specs.Command.{BeginsWithNumber, IsAsked, IsCommand, ReadsCommand, is_space, letters};

use crate::escapes::read_text;
use crate::fault::CommandFault;
use crate::number::read_number;
use std::alloc::Global;
use std::str;

/// The word that a command begins with.
#[derive(Clone, Copy)]
pub enum Word {
    Open,
    Piece,
    End,
    Turn,
    Take,
    Drop,
    Reload,
}

/// A command of a script. A place is the number of a connection.
#[derive(Drop)]
pub enum Command<'a> {
    /// Opens a connection.
    Open,
    /// Gives a connection the next piece of its stream.
    Piece { place: u32, bytes: Vec<u8> },
    /// Ends the stream of a connection.
    End { place: u32 },
    /// Gives a connection one turn.
    Turn { place: u32 },
    /// Takes this many bytes of the replies to a connection, or as many as wait.
    Take { place: u32, room: u32 },
    /// Drops a connection.
    Drop { place: u32 },
    /// Loads a folder, which is answered from then on.
    Reload { folder: &'a str },
}

/// Returns what follows a word.
fn behind<'a>(line: &'a [u8], word: &[u8]) -> Option<&'a [u8]>
    ensures { MatchOption result
        ((text : List ℕ) → line.entry.now ≢ word.now ++ text)
        (λ text. line.entry.now ≡ word.now ++ text.now) }
{
    line.strip_prefix(word)
}

/// Returns the word that a line begins with, and what follows it.
fn split_word(line: &[u8]) -> Option<(Word, &[u8])>
    ensures { MatchOption result
        ((w : Word) (text : List ℕ) → line.now ≢ letters w ++ text)
        (λ split. line.now ≡ letters split.0 ++ split.1.now) }
{
    if let Some(text) = behind(line, b"open") {
        return Some((Word::Open, text));
    }
    if let Some(text) = behind(line, b"piece ") {
        return Some((Word::Piece, text));
    }
    if let Some(text) = behind(line, b"end ") {
        return Some((Word::End, text));
    }
    if let Some(text) = behind(line, b"turn ") {
        return Some((Word::Turn, text));
    }
    if let Some(text) = behind(line, b"take ") {
        return Some((Word::Take, text));
    }
    if let Some(text) = behind(line, b"drop ") {
        return Some((Word::Drop, text));
    }
    if let Some(text) = behind(line, b"reload ") {
        return Some((Word::Reload, text));
    }
    None
}

/// Returns where the first space is.
fn space(text: &[u8]) -> Option<usize>
    ensures { result ≡ position is_space text.now }
{
    text.iter().position(|byte| *byte == b' ')
}

/// Returns the number that a text begins with, and what follows it after one space.
fn first_number(text: &[u8]) -> Option<(u32, &[u8])>
    ensures { MatchOption result
        ((n : ℕ) (rest : List ℕ) → ¬ (BeginsWithNumber text.now n rest))
        (λ first. BeginsWithNumber text.now first.0 first.1.now) }
{
    let Some(at) = space(text) else {
        return None;
    };
    let (front, behind) = text.split_at(at);
    match read_number(front) {
        Some(number) => Some((number, &behind[1..])),
        None => None,
    }
}

/// Returns the command that a text after `piece` makes.
fn read_piece<'a>(alloc: Global, text: &[u8]) -> Result<Command<'a>, CommandFault>
    ensures { ReadsCommand (IsAsked Word.Piece text.now) result }
{
    let Some((place, rest)) = first_number(text) else {
        return Err(CommandFault::Bad);
    };
    match read_text(alloc, rest) {
        Ok(bytes) => Ok(Command::Piece { place, bytes }),
        Err(fault) => Err(fault),
    }
}

/// Returns the command that a text after `take` makes.
fn read_take<'a>(text: &[u8]) -> Result<Command<'a>, CommandFault>
    ensures command { ReadsCommand (IsAsked Word.Take text.now) result }
    ensures memory { IfErr result (λ e. e ≢ CommandFault.NoMemory) }
{
    let Some((place, rest)) = first_number(text) else {
        return Err(CommandFault::Bad);
    };
    match read_number(rest) {
        Some(room) => Ok(Command::Take { place, room }),
        None => Err(CommandFault::Bad),
    }
}

/// Returns the command that a text after `reload` makes.
fn read_reload<'a>(text: &'a [u8]) -> Result<Command<'a>, CommandFault>
    ensures command { ReadsCommand (IsAsked Word.Reload text.entry.now) result }
    ensures memory { IfErr result (λ e. e ≢ CommandFault.NoMemory) }
{
    match str::from_utf8(text) {
        Ok(folder) => Ok(Command::Reload { folder }),
        Err(_) => Err(CommandFault::Bad),
    }
}

/// Returns the command that a text after a word makes.
fn read_asked<'a>(alloc: Global, word: Word, text: &'a [u8]) -> Result<Command<'a>, CommandFault>
    ensures command { ReadsCommand (IsAsked word text.entry.now) result }
    ensures memory { IfErr result (λ e. e ≡ CommandFault.NoMemory → word ≡ Word.Piece) }
{
    match word {
        Word::Open if text.is_empty() => Ok(Command::Open),
        Word::Open => Err(CommandFault::Bad),
        Word::Piece => read_piece(alloc, text),
        Word::End => match read_number(text) {
            Some(place) => Ok(Command::End { place }),
            None => Err(CommandFault::Bad),
        },
        Word::Turn => match read_number(text) {
            Some(place) => Ok(Command::Turn { place }),
            None => Err(CommandFault::Bad),
        },
        Word::Take => read_take(text),
        Word::Drop => match read_number(text) {
            Some(place) => Ok(Command::Drop { place }),
            None => Err(CommandFault::Bad),
        },
        Word::Reload => read_reload(text),
    }
}

/// Returns the command that a line is. It is `Bad` exactly if the line is none. Only a `piece` takes memory.
pub fn read_command<'a>(alloc: Global, line: &'a [u8]) -> Result<Command<'a>, CommandFault>
    ensures command { ReadsCommand (IsCommand line.entry.now) result }
    ensures memory { IfErr result (λ e. e ≡ CommandFault.NoMemory
        → (text : List ℕ) × (line.entry.now ≡ letters Word.Piece ++ text)) }
{
    match split_word(line) {
        Some((word, text)) => read_asked(alloc, word, text),
        None => Err(CommandFault::Bad),
    }
}
