//! What is printed of the answers of a hub: one line for each call.
ghost use Rattle.std.specs.Prelude.{◌≡◌, IfOk};
ghost use Rattle.odata_hub.specs.Connections.{Done, Opened, Refused, Take, Went, call_answer};
ghost use Rattle.odata_hub.specs.Schedules.{On};
ghost use Rattle.hub_scripts.specs.Answers.{HubAnswers, answer_line, hub_fault_name};

use event_scripts::{bytes_line, place_line, refusal_line, text_line};
use odata_hub::{Conn, Hub, HubFault, Turned};
use std::alloc::{AllocError, Global};

/// Returns the name of a refusal of the hub.
fn hub_fault_name(fault: HubFault) -> &'static str
    ensures { result.now ≡ hub_fault_name fault }
{
    match fault {
        HubFault::Full => "Full",
        HubFault::NoSuchConnection => "NoSuchConnection",
        HubFault::Ended => "Ended",
        HubFault::Failed => "Failed",
        HubFault::NoMemory => "NoMemory",
    }
}

/// Returns the line of a refusal.
fn refused_line(alloc: Global, fault: HubFault) -> Result<Vec<u8>, AllocError>
    ensures { IfOk result (λ line. line.items ≡ answer_line (Refused fault)) }
{
    refusal_line(alloc, hub_fault_name(fault))
}

/// Returns the line of a call that has nothing to report.
pub(crate) fn done_line(alloc: Global, answer: Result<(), HubFault>) -> Result<Vec<u8>, AllocError>
    ensures { IfOk result (λ line. line.items ≡ answer_line (call_answer (λ _. Done) answer)) }
{
    match answer {
        Ok(()) => text_line(alloc, "ok"),
        Err(fault) => refused_line(alloc, fault),
    }
}

/// Returns the line of a connection that was to be opened.
pub(crate) fn opened_line(
    alloc: Global,
    answer: Result<Conn, HubFault>,
) -> Result<Vec<u8>, AllocError>
    ensures { IfOk result (λ line.
        line.items ≡ answer_line (call_answer (λ conn. Opened conn.0) answer)) }
{
    match answer {
        Ok(Conn(place)) => place_line(alloc, place),
        Err(fault) => refused_line(alloc, fault),
    }
}

/// Returns the line of a turn.
pub(crate) fn turned_line(
    alloc: Global,
    answer: Result<Turned, HubFault>,
) -> Result<Vec<u8>, AllocError>
    ensures { IfOk result (λ line. line.items ≡ answer_line (call_answer Went answer)) }
{
    match answer {
        Ok(Turned::Worked) => text_line(alloc, "worked"),
        Ok(Turned::Idle) => text_line(alloc, "idle"),
        Err(fault) => refused_line(alloc, fault),
    }
}

/// Takes up to `room` bytes of a connection's output, and returns their line.
pub(crate) fn take_line(
    alloc: Global,
    hub: &mut Hub,
    place: u32,
    room: u32,
) -> Result<Vec<u8>, AllocError>
    ensures { IfOk result (λ line. HubAnswers (On place (Take room)) hub.old hub.new line.items) }
{
    let mut bytes = vec![in alloc; 0; room as usize]?;
    let out = bytes.as_mut_slice();
    match hub.take(Conn(place), out) {
        Ok(count) => {
            let (given, _) = out.split_at(count);
            bytes_line(alloc, given)
        }
        Err(fault) => refused_line(alloc, fault),
    }
}
