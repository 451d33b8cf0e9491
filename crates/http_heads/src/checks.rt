//! What a head says whatever its target is.
ghost use Rattle.std.specs.Prelude.{◌≡◌, Some, map, true};
ghost use Rattle.http_heads.specs.Checks.{checks_of, closes};
ghost use Rattle.http_heads.specs.Head.{HeadOf, field_view, head_view};
ghost use Rattle.http_heads.specs.Said.{said_by};

use crate::fields::Said;
use crate::head::{Field, Head};
use crate::method::Method;

/// What is wrong with a head, whatever its target is. The first of these is reported.
#[derive(Clone, Copy, PartialEq, Eq)]
pub enum HeadFault {
    /// HTTP/1.1 without exactly one Host field, or HTTP/1.0 with more than one (RFC 9112, section 3.2).
    BadHost,
    /// A coding announces a body (RFC 9112, section 6.1).
    NotServed,
    /// A length announces a body, or says what no length is (RFC 9112, section 6.2).
    BadLength,
    /// The method is neither GET nor HEAD (RFC 9110, section 9.1).
    MethodNotAllowed,
}

/// What a head says whatever its target is.
#[derive(Clone, Copy, PartialEq, Eq)]
pub struct Checks {
    /// What is wrong with it.
    pub fault: Option<HeadFault>,
    /// Whether the connection closes after the reply.
    pub closes: bool,
}

/// Returns a fault after which it is not known where the next head begins.
fn lost(fault: HeadFault) -> Checks
    ensures { result ≡ record { fault = Some fault; closes = true } }
{
    Checks {
        fault: Some(fault),
        closes: true,
    }
}

/// Returns what a head says whatever its target is, by its method, its version and what its fields say.
#[tactic(auto, unfolding(crate::specs::Checks::head_fault, crate::specs::Checks::closes))]
pub(crate) fn checks_by(method: &[u8], minor: u8, said: Said) -> Checks
    ensures { (head : HeadOf) → head.method ≡ method.now → head.minor ≡ minor
        → said ≡ said_by head.fields → result ≡ checks_of head }
{
    if !said.has_host(minor) {
        return lost(HeadFault::BadHost);
    }
    if said.is_coded() {
        return lost(HeadFault::NotServed);
    }
    if !said.is_without_length() {
        return lost(HeadFault::BadLength);
    }
    let closes = said.is_last(minor);
    let fault = match Method::of(method) {
        Some(_) => None,
        None => Some(HeadFault::MethodNotAllowed),
    };
    Checks { fault, closes }
}

/// Returns what fields say.
fn said_of(fields: &[Field]) -> Said
    ensures { result ≡ said_by (map field_view fields.now) }
{
    let mut said = Said::nothing();
    for field in fields {
        said = said.with(field.name.as_slice(), field.value.as_slice());
    }
    said
}

/// Returns what a head says whatever its target is.
pub fn check_head(head: &Head) -> Checks
    ensures { result ≡ checks_of (head_view head.now) }
{
    let said = said_of(head.fields.as_slice());
    checks_by(head.method.as_slice(), head.minor, said)
}
