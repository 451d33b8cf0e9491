//! The heads of requests (RFC 9112, section 2), cut off the front of some bytes.
ghost use Rattle.std.specs.Prelude.{◌≡◌, ◌≤◌, IfOk, IfSome, MatchOption, drop, length, map};
ghost use Rattle.std.specs.List.{All};
ghost use Rattle.httparse.specs.Spans.{IsHeaderWithin, IsRequestWithin, IsWithin, header_bytes, span_bytes};
ghost use Rattle.http_heads.specs.Head.{BeginsWith, BeginsWithAll, HasNoHead, IsRest, field_view, found_head, head_view};
ghost use Rattle.http_heads.specs.declared.head.TheConstants.{MAX_HEAD};
ghost use Rattle.http_heads.specs.Hopeless.{TellsHopeless};

use httparse::Status;
use httparse::spans::{EMPTY_HEADER_SPAN, HeaderSpan, RequestSpans, Span, parse_request};
use std::alloc::{AllocError, Global};

/// The most bytes of a head.
pub const MAX_HEAD: usize = 8192;

/// The most fields of a head.
pub const MAX_FIELDS: usize = 64;

/// A field of a head (RFC 9112, section 5).
#[derive(Drop)]
pub struct Field {
    pub name: Vec<u8>,
    /// Without the white space around it.
    pub value: Vec<u8>,
}

/// A head of a request (RFC 9112, section 2.1).
#[derive(Drop)]
pub struct Head {
    pub method: Vec<u8>,
    pub target: Vec<u8>,
    /// The version's minor number: 0 or 1.
    pub minor: u8,
    /// In their order.
    pub fields: Vec<Field>,
}

/// Returns a copy of the bytes that a span covers.
fn copy(alloc: Global, bytes: &[u8], span: Span) -> Result<Vec<u8>, AllocError>
    requires { IsWithin (length bytes.now) span }
    ensures { IfOk result (λ part. part.items ≡ span_bytes bytes.now span) }
{
    Vec::from_slice(alloc, span.of(bytes))
}

/// Returns a copy of the fields.
fn copy_fields(
    alloc: Global,
    bytes: &[u8],
    headers: &[HeaderSpan],
) -> Result<Vec<Field>, AllocError>
    requires { All (IsHeaderWithin (length bytes.now)) headers.now }
    ensures { IfOk result
        (λ fields. map field_view fields.items ≡ map (header_bytes bytes.now) headers.now) }
{
    let mut fields = Vec::new(alloc);
    for header in headers {
        let name = copy(alloc, bytes, header.name)?;
        let value = copy(alloc, bytes, header.value)?;
        fields.push(Field { name, value })?;
    }
    Ok(fields)
}

/// Returns the places of the parts of the head at the front of the bytes, if they begin with one. Those of its fields are put at the front of `headers`.
pub(crate) fn first_spans(
    bytes: &[u8],
    headers: &mut [HeaderSpan; MAX_FIELDS],
) -> Option<RequestSpans>
    ensures within { IfSome result (IsRequestWithin bytes.now headers.new) }
    ensures head { MatchOption result (HasNoHead bytes.now) (λ spans. BeginsWith bytes.now
        (found_head bytes.now headers.new spans) (drop spans.len bytes.now)) }
    ensures small { IfSome result (λ spans. spans.len ≤ MAX_HEAD) }
{
    match parse_request(bytes, headers) {
        Ok(Status::Complete(spans)) if spans.len <= MAX_HEAD => Some(spans),
        _ => None,
    }
}

/// Returns the head at the front of the bytes with its length, if they begin with one.
pub(crate) fn first_head(alloc: Global, bytes: &[u8]) -> Result<Option<(Head, usize)>, AllocError>
    ensures within { IfOk result (λ found. IfSome found (λ first. first.1 ≤ length bytes.now)) }
    ensures head { IfOk result (λ found. MatchOption found (HasNoHead bytes.now)
        (λ first. BeginsWith bytes.now (head_view first.0) (drop first.1 bytes.now))) }
{
    let mut headers = [EMPTY_HEADER_SPAN; MAX_FIELDS];
    let Some(spans) = first_spans(bytes, &mut headers) else {
        return Ok(None);
    };
    let head = Head {
        method: copy(alloc, bytes, spans.method)?,
        target: copy(alloc, bytes, spans.path)?,
        minor: spans.version,
        fields: copy_fields(alloc, bytes, &headers[..spans.headers])?,
    };
    Ok(Some((head, spans.len)))
}

/// Returns all heads at the front of the bytes, and how many bytes they have.
pub(crate) fn cut_heads(alloc: Global, bytes: &[u8]) -> Result<(Vec<Head>, usize), AllocError>
    ensures within { IfOk result (λ cut. cut.1 ≤ length bytes.now) }
    ensures heads { IfOk result
        (λ cut. BeginsWithAll bytes.now (map head_view cut.0.items) (drop cut.1 bytes.now)) }
    ensures none { IfOk result (λ cut. HasNoHead (drop cut.1 bytes.now)) }
{
    let mut heads = Vec::new(alloc);
    let mut at = 0;
    while let Some((head, len)) = first_head(alloc, &bytes[at..])? {
        heads.push(head)?;
        at += len;
    }
    Ok((heads, at))
}

/// Returns true if nothing can follow a rest that puts a head at its front: it has as many bytes as a head may have, or httparse refuses it.
pub(crate) fn is_refused(rest: &[u8]) -> bool
    requires { IsRest rest.now }
    ensures { TellsHopeless rest.now result }
{
    if rest.len() == MAX_HEAD {
        return true;
    }
    let mut headers = [EMPTY_HEADER_SPAN; MAX_FIELDS];
    match parse_request(rest, &mut headers) {
        Ok(Status::Partial) => false,
        Ok(Status::Complete(_)) => true, // there is none: a rest has no head at its front
        Err(_) => true,
    }
}
