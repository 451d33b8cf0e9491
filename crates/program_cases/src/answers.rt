//! Replies over the folder `examples/base` on the disk, and over the one that is built in, and what lines of words end with.
use crate::base::{BASE, NOTES_REPLY, NOTES_REQUEST};
use odata_http::Counted;
use odata_serve::{BuiltIn, DONE, Disk, Folders, NOTES, answer, line_status, request_to};
use std::alloc::Global;
use std::fs;
use std::rt::Files;
use std::test::Fail;

/// Targets, and the bodies of the replies to a GET.
const BODIES: &[(&str, &str)] = &[
    (
        "/",
        "{\"value\":[{\"name\":\"cities\",\"kind\":\"EntitySet\",\"url\":\"cities\"},{\"name\":\"people\",\"kind\":\"EntitySet\",\"url\":\"people\"},{\"name\":\"codes\",\"kind\":\"EntitySet\",\"url\":\"codes\"}]}",
    ),
    (
        "/codes?$format=text/csv",
        "Id,Code\r\n1,\r\n2,\"\"\r\n3,\"a,b\"\r\n",
    ),
    ("/cities/$count?$filter=Id%20gt%201", "2"),
    ("/people('O''Hara')", "{\"Name\":\"O'Hara\",\"Age\":41}"),
    (
        "/cities?$filter=Pop%20add%201%20gt%205%20and%20contains(Name,'sl')&$select=Id,Since",
        "{\"value\":[{\"Id\":1,\"Since\":\"1048-01-01\"}]}",
    ),
    (
        "/cities?$orderby=Pop%20desc&$top=1&$skip=1&$count=true&$select=Id",
        "{\"@odata.count\":3,\"value\":[{\"Id\":3}]}",
    ),
    (
        "/cities?$apply=groupby((Open),aggregate(Pop%20with%20sum%20as%20S,$count%20as%20N))&$orderby=S,N",
        "{\"value\":[{\"Open\":false,\"S\":null,\"N\":1},{\"Open\":null,\"S\":5,\"N\":1},{\"Open\":true,\"S\":700000,\"N\":1}]}",
    ),
    (
        "/nope",
        "{\"error\":{\"code\":\"UnknownSet\",\"message\":\"no such table\"}}",
    ),
];

/// Lines of words over the folder where the test stands.
const LINES: &[&[&str]] = &[&["p", "check", "."], &["p", "replay", ".", "script"]];

/// Returns what a stream over a folder is answered with.
fn answered<F: Folders>(
    alloc: Global,
    folders: &mut F,
    name: &str,
    stream: &str,
) -> Result<Vec<u8>, Fail> {
    let mut written = Vec::new(alloc);
    let end = answer(
        alloc,
        folders,
        name,
        &mut Counted::new(stream.as_bytes()),
        &mut Counted::new(&mut written),
    );
    end.or(Err("a stream that is not answered"))?;
    Ok(written)
}

/// Returns whether a GET of a target over the folder where the test stands has a reply with this body.
fn has_body(rt: &(impl Files + AllocGlobal), target: &str, body: &str) -> Result<bool, Fail> {
    let request = request_to(rt.alloc(), target)?;
    let reply = answered(rt.alloc(), &mut Disk::new(rt), ".", request.as_str())?;
    Ok(reply.ends_with(body.as_bytes()))
}

#[test]
fn replies(rt: HostRuntime) -> Result<(), Fail> {
    for (name, text) in BASE {
        fs::write(&rt, *name, *text)?;
    }
    for (target, body) in BODIES {
        assert!(rt; has_body(&rt, target, body)?, "{target}");
    }
    let reply = answered(rt.alloc(), &mut BuiltIn::new(), NOTES, NOTES_REQUEST)?;
    assert!(rt; reply.as_slice() == NOTES_REPLY.as_bytes());
    for line in LINES {
        assert_eq!(rt; line_status(&rt, line), DONE);
    }
    Ok(())
}
