//! The lines of replies.
ghost use Rattle.std.specs.Prelude.{◌≡◌, ◌++◌, IfOk, OnOk, codes, decimal, unwrap_or};
ghost use Rattle.http.specs.StatusCode.{IsStatusCode, reason_phrase};
ghost use Rattle.odata_http.specs.Reply.{allow_line, closing_line, field_line, first_lines, reply_lines, rest_reply, status_line};

use crate::media::Media;
use http::StatusCode;
use reply_text::{Code, error_body, push_number};
use std::alloc::{AllocError, Global};

/// Returns the phrase that the HTTP standards give a status.
fn phrase_of(status: u16) -> &'static str
    requires { IsStatusCode status }
    ensures { result.now ≡ unwrap_or (reason_phrase status) (codes "") }
{
    match StatusCode::from_u16(status) {
        Ok(code) => code.canonical_reason().unwrap_or(""),
        Err(_) => "",
    }
}

/// Appends the status line.
fn push_status_line(out: &mut Vec<u8>, status: u16) -> Result<(), AllocError>
    requires { IsStatusCode status }
    ensures { OnOk result (out.new.items ≡ out.old.items ++ status_line status) }
{
    out.extend_from_slice(b"HTTP/1.1 ")?;
    push_number(out, u64::from(status))?;
    out.extend_from_slice(b" ")?;
    out.extend_from_slice(phrase_of(status).as_bytes())?;
    out.extend_from_slice(b"\r\n")
}

/// Appends a field.
fn push_field(out: &mut Vec<u8>, name: &[u8], value: &[u8]) -> Result<(), AllocError>
    ensures { OnOk result (out.new.items ≡ out.old.items ++ field_line name.now value.now) }
{
    out.extend_from_slice(name)?;
    out.extend_from_slice(b": ")?;
    out.extend_from_slice(value)?;
    out.extend_from_slice(b"\r\n")
}

/// Appends the methods that are served, if another was refused.
fn push_allow(out: &mut Vec<u8>, status: u16) -> Result<(), AllocError>
    ensures { OnOk result (out.new.items ≡ out.old.items ++ allow_line status) }
{
    if status == Code::MethodNotAllowed.status() {
        push_field(out, b"Allow", b"GET, HEAD")
    } else {
        Ok(())
    }
}

/// Appends the field of a body's length in bytes.
fn push_length(out: &mut Vec<u8>, size: usize) -> Result<(), AllocError>
    ensures { OnOk result
        (out.new.items ≡ out.old.items ++ field_line (codes "Content-Length") (decimal size)) }
{
    out.extend_from_slice(b"Content-Length: ")?;
    push_number(out, size as u64)?;
    out.extend_from_slice(b"\r\n")
}

/// Appends the field that says that the connection closes, if it does.
fn push_closing(out: &mut Vec<u8>, closes: bool) -> Result<(), AllocError>
    ensures { OnOk result (out.new.items ≡ out.old.items ++ closing_line closes) }
{
    if closes {
        push_field(out, b"Connection", b"close")
    } else {
        Ok(())
    }
}

/// Appends the status line and the fields of every reply with a body of that media type.
fn push_first_lines(out: &mut Vec<u8>, status: u16, media: Media) -> Result<(), AllocError>
    requires { IsStatusCode status }
    ensures { OnOk result (out.new.items ≡ out.old.items ++ first_lines status media) }
{
    push_status_line(out, status)?;
    push_field(out, b"Content-Type", media.name())?;
    push_field(out, b"OData-Version", b"4.0")
}

/// Returns the lines before a body of `size` bytes.
pub(crate) fn lines_before(
    alloc: Global,
    status: u16,
    media: Media,
    size: usize,
    closes: bool,
) -> Result<Vec<u8>, AllocError>
    requires { IsStatusCode status }
    ensures { IfOk result (λ head. head.items ≡ reply_lines status media size closes) }
{
    let mut head = Vec::new(alloc);
    push_first_lines(&mut head, status, media)?;
    push_allow(&mut head, status)?;
    push_length(&mut head, size)?;
    push_closing(&mut head, closes)?;
    head.extend_from_slice(b"\r\n")?;
    Ok(head)
}

/// Returns the reply to a rest of a stream that is no head. It closes.
#[tactic(auto, unfolding(crate::specs::Reply::rest_reply))]
pub fn reply_to_rest(alloc: Global) -> Result<Vec<u8>, AllocError>
    ensures { IfOk result (λ reply. reply.items ≡ rest_reply) }
{
    let body = error_body(alloc, Code::BadRequest)?;
    let status = Code::BadRequest.status();
    let mut reply = lines_before(alloc, status, Media::Json, body.len(), true)?;
    reply.extend_from_slice(&body)?;
    Ok(reply)
}
