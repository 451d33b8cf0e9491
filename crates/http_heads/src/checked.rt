//! Heads that were checked as they were cut off.
ghost use Rattle.std.specs.Prelude.{◌≡◌, ◌≤◌, IfOk, IfSome, MatchOption, drop, length, map};
ghost use Rattle.std.specs.List.{All};
ghost use Rattle.httparse.specs.Spans.{IsHeaderWithin, IsWithin, header_bytes};
ghost use Rattle.http_heads.specs.Checks.{checks_of};
ghost use Rattle.http_heads.specs.Head.{BeginsWith, HasNoHead, head_at};
ghost use Rattle.http_heads.specs.Said.{said_by};

use crate::checks::{Checks, checks_by};
use crate::fields::Said;
use crate::head::{MAX_FIELDS, first_spans};
use httparse::spans::{EMPTY_HEADER_SPAN, HeaderSpan, RequestSpans, Span};
use std::alloc::{AllocError, Global};
use std::marker::Model;

/// Returns what the fields at some places say.
fn said_at(bytes: &[u8], fields: &[HeaderSpan]) -> Said
    requires { All (IsHeaderWithin (length bytes.now)) fields.now }
    ensures { result ≡ said_by (map (header_bytes bytes.now) fields.now) }
{
    let mut said = Said::nothing();
    for field in fields {
        said = said.with(field.name.of(bytes), field.value.of(bytes));
    }
    said
}

/// A head, and what it says whatever its target is: it was checked once, and need not be again. It has the head's bytes and the places of its
/// parts in them, and is seen as the head.
#[derive(Drop)]
pub struct CheckedHead {
    bytes: Vec<u8>,
    method: Span,
    target: Span,
    minor: u8,
    fields: Vec<HeaderSpan>,
    checks: Checks,
}

impl Model for CheckedHead {
    ghost use Rattle.std.specs.Prelude.{◌≡◌, length};
    ghost use Rattle.httparse.specs.Spans.{IsWithin};
    ghost use Rattle.http_heads.specs.Checks.{checks_of};
    ghost use Rattle.http_heads.specs.Head.{HeadOf, head_at};

    ghost Value = { HeadOf };

    ghost view = { λ c. head_at c.bytes.items c.method c.target c.minor c.fields.items };

    ghost invariant = { λ c. IsWithin (length c.bytes.items) c.method × IsWithin (length c.bytes.items) c.target
        × (c.checks ≡ checks_of (head_at c.bytes.items c.method c.target c.minor c.fields.items)) };
}

impl CheckedHead {
    /// Checks a head that has these bytes, with the places of its parts and of its fields in them.
    pub(crate) fn at(bytes: Vec<u8>, spans: RequestSpans, fields: Vec<HeaderSpan>) -> CheckedHead
        requires method { IsWithin (length bytes.items) spans.method }
        requires target { IsWithin (length bytes.items) spans.path }
        requires fields { All (IsHeaderWithin (length bytes.items)) fields.items }
        ensures { result ≡ head_at bytes.items spans.method spans.path spans.version fields.items }
    {
        let said = said_at(bytes.as_slice(), fields.as_slice());
        let checks = checks_by(spans.method.of(bytes.as_slice()), spans.version, said);
        CheckedHead {
            bytes,
            method: spans.method,
            target: spans.path,
            minor: spans.version,
            fields,
            checks,
        }
    }

    /// Returns the method.
    pub fn method(&self) -> &[u8]
        ensures { result.now ≡ self.now.method }
    {
        self.method.of(self.bytes.as_slice())
    }

    /// Returns the target.
    pub fn target(&self) -> &[u8]
        ensures { result.now ≡ self.now.target }
    {
        self.target.of(self.bytes.as_slice())
    }

    /// Returns what it says whatever its target is.
    pub fn checks(&self) -> Checks
        ensures { result ≡ checks_of self.now }
    {
        self.checks
    }
}

/// Returns the head at the front of the bytes, checked, with its length, if they begin with one. Its bytes are copied once, as they stand.
pub(crate) fn first_checked(
    alloc: Global,
    bytes: &[u8],
) -> Result<Option<(CheckedHead, usize)>, AllocError>
    ensures within { IfOk result (λ found. IfSome found (λ first. first.1 ≤ length bytes.now)) }
    ensures head { IfOk result (λ found. MatchOption found (HasNoHead bytes.now)
        (λ first. BeginsWith bytes.now first.0 (drop first.1 bytes.now))) }
{
    let mut headers = [EMPTY_HEADER_SPAN; MAX_FIELDS];
    let Some(spans) = first_spans(bytes, &mut headers) else {
        return Ok(None);
    };
    let own = Vec::from_slice(alloc, &bytes[..spans.len])?;
    let fields = Vec::from_slice(alloc, &headers[..spans.headers])?;
    Ok(Some((CheckedHead::at(own, spans, fields), spans.len)))
}
