//! The texts of the lines that the service writes of itself.
ghost use Rattle.std.specs.Prelude.{◌≡◌, IfOk, string_bytes};
ghost use Rattle.service_log.specs.Log.{age_text, as_line, counts_text, ended_text, longest_text, minute_text, opened_text, refused_text, reloaded_text, sent_text};

use crate::log::{LoadSummary, Tally};
use crate::work::Work;
use exit_statuses::{ProgramFault, fault_line};
use std::alloc::{AllocError, Global};

/// What is said of a changed folder that was not loaded, if nothing more is known of it.
pub(crate) const NOT_RELOADED: &str = "not reloaded: a device failed or memory ran out";

/// Returns the line of a connection that was opened at a place.
pub(crate) fn opened_line(alloc: Global, place: u32) -> Result<String, AllocError>
    ensures { IfOk result (λ line. string_bytes line ≡ as_line (opened_text place)) }
{
    format!(in alloc; "opened {place}\n")
}

/// Returns the line of a connection that ended.
pub(crate) fn ended_line(alloc: Global, place: u32, reason: &str) -> Result<String, AllocError>
    ensures { IfOk result (λ line. string_bytes line ≡ as_line (ended_text place reason.now)) }
{
    let mut line = format!(in alloc; "ended {place} ")?;
    line.push_str(reason)?;
    line.push_str("\n")?;
    Ok(line)
}

/// Returns the line of a changed folder that was reloaded.
pub(crate) fn reloaded_line(alloc: Global, loaded: &LoadSummary) -> Result<String, AllocError>
    ensures { IfOk result (λ line. string_bytes line ≡ as_line (reloaded_text loaded.now)) }
{
    let (tables, rows, millis) = (loaded.tables, loaded.rows, loaded.millis);
    let mut line = format!(in alloc; "reloaded {tables} tables, {rows} rows, {millis} ms")?;
    line.push_str("\n")?;
    Ok(line)
}

/// Returns what is counted of connections.
fn counts_of(alloc: Global, tally: &Tally) -> Result<String, AllocError>
    ensures { IfOk result (λ text. string_bytes text ≡ counts_text tally.now) }
{
    let (places, opened) = (tally.places, tally.opened);
    let mut text = format!(in alloc; "minute: {places} places, {opened} ")?;
    text.push_str("opened")?;
    Ok(text)
}

/// Returns what was sent in the minute.
fn sent_of(alloc: Global, work: &Work) -> Result<String, AllocError>
    ensures { IfOk result (λ text. string_bytes text ≡ sent_text work.now) }
{
    let (requests, bytes) = (work.requests, work.bytes);
    let mut text = format!(in alloc; ", {requests} requests, {bytes} ")?;
    text.push_str("bytes")?;
    Ok(text)
}

/// Returns the longest turn of the minute.
fn longest_of(alloc: Global, work: &Work) -> Result<String, AllocError>
    ensures { IfOk result (λ text. string_bytes text ≡ longest_text work.now) }
{
    let longest = work.longest;
    let mut text = format!(in alloc; ", longest turn {longest} ")?;
    text.push_str("us")?;
    Ok(text)
}

/// Returns what is counted of tables.
fn age_of(alloc: Global, tally: &Tally) -> Result<String, AllocError>
    ensures { IfOk result (λ text. string_bytes text ≡ age_text tally.now) }
{
    let (reloads, age) = (tally.reloads, tally.age);
    let mut text = format!(in alloc; ", {reloads} reloads, {age} ")?;
    text.push_str("s old")?;
    Ok(text)
}

/// Returns the line of what the service counts.
pub(crate) fn minute_line(alloc: Global, tally: &Tally) -> Result<String, AllocError>
    ensures { IfOk result (λ line. string_bytes line ≡ as_line (minute_text tally.now)) }
{
    let mut line = counts_of(alloc, tally)?;
    let sent = sent_of(alloc, &tally.work)?;
    let longest = longest_of(alloc, &tally.work)?;
    let age = age_of(alloc, tally)?;
    line.push_str(sent.as_str())?;
    line.push_str(longest.as_str())?;
    line.push_str(age.as_str())?;
    line.push_str("\n")?;
    Ok(line)
}

/// Returns the line of a changed folder that was not reloaded.
pub(crate) fn refused_line(alloc: Global, fault: &ProgramFault) -> Result<String, AllocError>
    ensures { IfOk result (λ line. string_bytes line ≡ refused_text fault.now) }
{
    let (line, _) = fault_line(alloc, fault)?;
    if line.is_empty() {
        return String::from_str(alloc, NOT_RELOADED);
    }
    Ok(line)
}
