//! Rests that can begin no head any more: damaged heads, cut at every place, and the offset from which the rest is hopeless.
use odata_http::Splitter;
use std::alloc::{AllocError, Global};
use std::test::Fail;

/// A head, or its beginning: some bytes, and a part that is repeated between them.
struct Sent {
    front: &'static [u8],
    part: &'static [u8],
    times: usize,
    back: &'static [u8],
    /// How many bytes are the first that no head can begin with; `None` if all of them are heads, or may continue as one.
    hopeless: Option<usize>,
}

/// The places are from RFC 9112, sections 3 and 5, and from the limits: 8,192 bytes and 64 fields. A target is looked at for UTF-8 at the space after it,
/// and a field is counted at the end of its line.
const SENT: &[Sent] = &[
    Sent {
        front: b"\r\n\nGET / HTTP/1.1\r\n",
        part: b"A: 1\r\n",
        times: 64,
        back: b"\r\n",
        hopeless: None,
    },
    Sent {
        front: b"GET / HTTP/1.1\r\n",
        part: b"A: 1\r\n",
        times: 70,
        back: b"\r\n",
        hopeless: Some(406),
    },
    Sent {
        front: b"GET /c?a=\xff",
        part: b"b",
        times: 5,
        back: b" HTTP/1.1\r\nHost: h\r\n\r\n",
        hopeless: Some(16),
    },
    Sent {
        front: b"GET /c?a=\xc3\xa9",
        part: b"b",
        times: 5,
        back: b" HTTP/1.1\r\nHost: h\r\n\r\n",
        hopeless: None,
    },
    Sent {
        front: b"GET / HTTP/1.1\r\nX: ",
        part: b"a",
        times: 5,
        back: b"\x01b\r\n\r\n",
        hopeless: Some(25),
    },
    Sent {
        front: b"GET / HTTP/1.1\r\nCookie: ",
        part: b"a=b; ",
        times: 2048,
        back: b"\r\n\r\n",
        hopeless: Some(8192),
    },
    Sent {
        front: b"GET / HTTP/1.1\r\nX: ",
        part: b"a",
        times: 8169,
        back: b"\r\n\r\n",
        hopeless: None,
    },
    Sent {
        front: b"GET / HTTP/1.1\r\nX: ",
        part: b"a",
        times: 8170,
        back: b"\r\n\r\n",
        hopeless: Some(8192),
    },
    Sent {
        front: b"",
        part: b"\r\n",
        times: 5000,
        back: b"GET / HTTP/1.1\r\n\r\n",
        hopeless: Some(8192),
    },
    Sent {
        front: b"G",
        part: b"\x01",
        times: 1,
        back: b"ET / HTTP/1.1\r\n\r\n",
        hopeless: Some(2),
    },
    Sent {
        front: b"GET / HTTP/",
        part: b"1.2",
        times: 1,
        back: b"\r\n\r\n",
        hopeless: Some(14),
    },
    Sent {
        front: b"GET / HTTP/",
        part: b"2.0",
        times: 1,
        back: b"\r\n\r\n",
        hopeless: Some(12),
    },
    Sent {
        front: b"GET  /",
        part: b" ",
        times: 1,
        back: b"HTTP/1.1\r\n\r\n",
        hopeless: Some(5),
    },
    Sent {
        front: b"GET / HTTP/1.1\r",
        part: b"X: 1",
        times: 1,
        back: b"\r\n\r\n",
        hopeless: Some(16),
    },
    Sent {
        front: b"GET / HTTP/1.1\r\nX",
        part: b" : 1",
        times: 1,
        back: b"\r\n\r\n",
        hopeless: Some(18),
    },
    Sent {
        front: b"GET / HTTP/1.1\r\nX: 1\r\n",
        part: b" 2",
        times: 1,
        back: b"\r\n\r\n",
        hopeless: Some(23),
    },
];

/// Returns after how many bytes, one by one, the rest was first hopeless; what is hopeless stays so.
fn place_of(alloc: Global, bytes: &[u8]) -> Result<Option<usize>, Fail> {
    let mut splitter = Splitter::new(alloc);
    let mut place = None;
    for (at, byte) in bytes.iter().enumerate() {
        splitter.cut(alloc, &[*byte])?;
        if splitter.is_hopeless() {
            place = place.or(Some(at + 1));
        } else if place.is_some() {
            return Err("a rest that was hopeless may begin a head".into());
        }
    }
    Ok(place)
}

/// Returns the bytes of a head.
fn bytes_of(alloc: Global, sent: &Sent) -> Result<Vec<u8>, AllocError> {
    let mut bytes = Vec::from_slice(alloc, sent.front)?;
    for _time in 0..sent.times {
        bytes.extend_from_slice(sent.part)?;
    }
    bytes.extend_from_slice(sent.back)?;
    Ok(bytes)
}

#[test]
fn rests_are_told_hopeless(rt: HostRuntime) -> Result<(), Fail> {
    for sent in SENT {
        let bytes = bytes_of(rt.alloc(), sent)?;
        let place = place_of(rt.alloc(), bytes.as_slice())?;
        assert_eq!(rt; place, sent.hopeless);
    }
    Ok(())
}
