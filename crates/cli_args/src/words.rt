//! Arguments of a command line and the words that the system hands over, for the programs over folders. What is read is `clap`'s reading.
ghost use Rattle.std.specs.Prelude.{◌≡◌, IfOk, codes, false, map, option_map, string_bytes};
ghost use Rattle.clap.specs.Words.{first_of, found_of, one_of, rows_of, rule_of};
ghost use Rattle.cli_args.specs.Words.{HasFlag, ReadsNumberOfBits, port_rule, required_rule, texts};

use clap::{Arg, ArgMatches, value_parser};
use std::alloc::{AllocError, Global};
use std::rt::Env;
use std::{env, io};

/// Returns an argument that has to be there.
pub fn required<'a>(alloc: Global, id: &'a str) -> Arg<'a>
    ensures rule { rule_of result ≡ required_rule id.entry.now }
    ensures local { result.global ≡ false }
{
    Arg::new(alloc, id).required(true)
}

/// Returns the option `--port P`.
pub fn port_option<'a>(alloc: Global) -> Arg<'a>
    ensures rule { rule_of result ≡ port_rule }
    ensures local { result.global ≡ false }
{
    let option = required(alloc, "port").long("port");
    option.value_parser(value_parser!(u16))
}

/// Returns the text of an argument.
pub fn text<'a>(matches: &ArgMatches<'a>, id: &str) -> Option<&'a str>
    ensures { option_map (λ s. s.now) result ≡ first_of id.now (rows_of (found_of matches.now)) }
{
    matches.get_str(id)
}

/// Returns the number after `--port`.
pub fn port<'a>(matches: &ArgMatches<'a>) -> Option<u16>
    ensures { ReadsNumberOfBits 16 (one_of (codes "port") (rows_of (found_of matches.now))) result }
{
    matches.get_one::<u16>("port")
}

/// Returns the number of 32 bits after an option.
pub fn number<'a>(matches: &ArgMatches<'a>, id: &str) -> Option<u32>
    ensures { ReadsNumberOfBits 32 (one_of id.now (rows_of (found_of matches.now))) result }
{
    matches.get_one::<u32>(id)
}

/// Returns true if an option without a value is there.
pub fn flag<'a>(matches: &ArgMatches<'a>, id: &str) -> bool
    ensures { HasFlag (one_of id.now (rows_of (found_of matches.now))) result }
{
    matches.get_flag(id)
}

/// Returns the words that the system hands over, the first of which is the program's own name. Which these are no clause says.
pub fn system_words<R: Env + AllocGlobal>(rt: &R) -> io::Result<Vec<String>> {
    let mut words = Vec::new(rt.alloc());
    for word in env::args(rt)? {
        words.push(word)?;
    }
    Ok(words)
}

/// Words as a line of texts.
pub fn line_of<'a>(alloc: Global, words: &'a [String]) -> Result<Vec<&'a str>, AllocError>
    ensures { IfOk result (λ line. texts line.items ≡ map string_bytes words.now) }
{
    let mut line = Vec::new(alloc);
    for word in words {
        line.push(word.as_str())?;
    }
    Ok(line)
}
