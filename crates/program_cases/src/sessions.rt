//! Sessions and heads: a stream in pieces is answered with the same bytes, however it is cut.
use crate::base::{CLOSING, CLOSING_REPLY, NOTES_REPLY, NOTES_REQUEST, notes};
use odata_http::{Field, Head, Session, SessionFault, Splitter, Unreadable};
use std::alloc::{AllocError, Global};
use std::process::Abort;
use std::test::Fail;
use table_store::Catalog;

/// Streams, one with the rest of a head, and their replies: empty lines before a head belong to it, and what follows a reply that closes is taken and not answered.
const STREAMS: &[(&str, &str)] = &[
    ("", ""),
    (
        "\r\n\nGET /notes/$count HTTP/1.1\r\nHost: h\r\n\r\nGET /nope HTTP/1.1\r\nHost: h\r\n\r\nGET /n",
        "HTTP/1.1 200 OK\r\nContent-Type: text/plain;charset=utf-8\r\nOData-Version: 4.0\r\nContent-Length: 1\r\n\r\n2HTTP/1.1 404 Not Found\r\nContent-Type: application/json;odata.metadata=none\r\nOData-Version: 4.0\r\nContent-Length: 57\r\n\r\n{\"error\":{\"code\":\"UnknownSet\",\"message\":\"no such table\"}}HTTP/1.1 400 Bad Request\r\nContent-Type: application/json;odata.metadata=none\r\nOData-Version: 4.0\r\nContent-Length: 70\r\nConnection: close\r\n\r\n{\"error\":{\"code\":\"BadRequest\",\"message\":\"the request cannot be read\"}}",
    ),
    (NOTES_REQUEST, NOTES_REPLY),
    (CLOSING, CLOSING_REPLY),
];

/// Gives a session a stream in two pieces, and its end.
fn give(
    session: &mut Session,
    alloc: Global,
    catalog: &Catalog,
    first: &str,
    second: &str,
) -> Result<(), SessionFault> {
    session.feed(alloc, catalog, first.as_bytes())?;
    session.feed(alloc, catalog, second.as_bytes())?;
    session.end(alloc)
}

/// Returns the output of a session, taken a few bytes at a time.
fn output(session: &mut Session, alloc: Global) -> Result<Vec<u8>, AllocError> {
    let mut taken = Vec::new(alloc);
    let mut buf = [0u8; 7];
    for _call in 0..100 {
        let n = session.take(&mut buf);
        taken.extend_from_slice(&buf[..n])?;
    }
    Ok(taken)
}

/// Returns true if a session answers a stream in two pieces so, closes if there is a stream, and takes no piece after the end.
fn has_replies(
    alloc: Global,
    catalog: &Catalog,
    first: &str,
    second: &str,
    replies: &str,
) -> Result<bool, Fail> {
    let mut session = Session::new(alloc);
    give(&mut session, alloc, catalog, first, second)?;
    let refusal = session.feed(alloc, catalog, b"x");
    let taken = output(&mut session, alloc)?;
    let is_empty = first.is_empty() && second.is_empty();
    Ok(
        taken.as_slice() == replies.as_bytes()
            && refusal == Err(SessionFault::Ended)
            && session.closed() != is_empty,
    )
}

#[test]
fn sessions_answer_streams(rt: HostRuntime) -> Result<(), Fail> {
    let catalog = notes(rt.alloc())?;
    for (stream, replies) in STREAMS {
        for cut in 0..=stream.len() {
            let (first, second) = stream.split_at_checked(cut).ok_or("no cut")?;
            let is_right = has_replies(rt.alloc(), &catalog, first, second, replies)?;
            assert!(rt; is_right, "cut at {cut}");
        }
    }
    Ok(())
}

/// Returns true if this is the head of the stream, with its one field.
fn is_head(head: Option<&Head>) -> bool {
    match head {
        Some(head) => is_request(head) && head.fields.len() == 1 && is_host(head.fields.first()),
        None => false,
    }
}

/// Returns true if the line of a head is that of the stream.
fn is_request(head: &Head) -> bool {
    head.method.as_slice() == b"GET".as_slice()
        && head.target.as_slice() == b"/x?a=b".as_slice()
        && head.minor == 0
}

/// Returns true if this is the field of the stream.
fn is_host(field: Option<&Field>) -> bool {
    match field {
        Some(field) => {
            field.name.as_slice() == b"Host".as_slice() && field.value.as_slice() == b"h".as_slice()
        }
        None => false,
    }
}

#[test]
fn heads_and_rests(rt: HostRuntime) -> Result<(), Fail> {
    let mut splitter = Splitter::new(rt.alloc());
    let none = splitter.feed(rt.alloc(), b"GET /x?a=b HT")?;
    let heads = splitter.feed(rt.alloc(), b"TP/1.0\r\nHost:  h \r\n\r\nGET /n")?;
    let is_one = none.is_empty() && heads.len() == 1 && is_head(heads.first());
    let is_rest = splitter.end() == Some(Unreadable) && splitter.end().is_none();
    assert!(rt; is_one && is_rest);
    Ok(())
}
