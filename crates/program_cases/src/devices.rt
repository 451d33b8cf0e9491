//! Streams over devices that move one byte at a call, and after some calls are interrupted or take nothing: each fault is reported as what it is, and what was
//! written is the replies that were certain.
use crate::base::{COUNT_REPLIES, COUNT_REPLY, COUNTS, notes};
use odata_http::{Counted, RunFault, run};
use std::alloc::Global;
use std::io;
use std::io::{ErrorKind, Read, Write};
use std::test::Fail;
use table_store::Catalog;

/// Gives the stream of two requests, one byte a read. The read after `most` reads is interrupted.
#[derive(Drop)]
struct Drips {
    reads: u32,
    most: u32,
}

impl Read for Drips {
    fn read(&mut self, buf: &mut [u8]) -> io::Result<usize> {
        let at = self.reads;
        self.reads = at.saturating_add(1);
        if at >= self.most {
            return Err(io::Error::from(ErrorKind::Interrupted));
        }
        match (COUNTS.as_bytes().get(at as usize), buf.first_mut()) {
            (Some(byte), Some(room)) => {
                *room = *byte;
                Ok(1)
            }
            _ => Ok(0),
        }
    }
}

/// Takes one byte a write. After some bytes a write is interrupted, or takes nothing.
#[derive(Drop)]
struct Sips {
    taken: Vec<u8>,
    most: usize,
    interrupts: bool,
}

impl Write for Sips {
    fn write(&mut self, buf: &[u8]) -> io::Result<usize> {
        if self.taken.len() < self.most {
            let count = buf.len().min(1);
            self.taken.extend_from_slice(&buf[..count])?;
            Ok(count)
        } else if self.interrupts {
            Err(io::Error::from(ErrorKind::Interrupted))
        } else {
            Ok(0)
        }
    }

    fn flush(&mut self) -> io::Result<()> {
        Ok(())
    }
}

/// The reads of the stream of two requests: the last reports its end.
const READS: u32 = 79;

/// Returns the stream, of which a number of reads was given.
fn stream(most: u32) -> Drips {
    Drips { reads: 0, most }
}

/// Returns how a run ends over devices that are counted.
fn end_of(
    alloc: Global,
    catalog: &Catalog,
    input: &mut Drips,
    out: &mut Sips,
    limit: u32,
) -> Result<(), RunFault> {
    run(
        alloc,
        catalog,
        &mut Counted::new(input),
        &mut Counted::new(out),
        limit,
    )
}

/// Returns how a run within a limit of reads ends, and after how many reads.
#[derive(Clone, Copy)]
struct Reading {
    given: u32,
    limit: u32,
    end: Result<(), RunFault>,
    reads: u32,
}

/// Returns true if it comes to that, with these replies written.
fn is_reading(alloc: Global, catalog: &Catalog, wanted: &Reading, replies: &str) -> bool {
    let mut input = stream(wanted.given);
    let mut out = Sips {
        taken: Vec::new(alloc),
        most: usize::MAX,
        interrupts: false,
    };
    let end = end_of(alloc, catalog, &mut input, &mut out, wanted.limit);
    end == wanted.end && input.reads == wanted.reads && out.taken.as_slice() == replies.as_bytes()
}

/// Returns a device of which a read is interrupted after some others.
fn with_interrupt(most: u32) -> Reading {
    Reading {
        given: most,
        limit: READS,
        end: Err(RunFault::Read),
        reads: most.saturating_add(1),
    }
}

/// Returns a device of which no more reads are allowed.
fn with_limit(most: u32) -> Reading {
    Reading {
        given: READS,
        limit: most,
        end: Err(RunFault::TooManyReads),
        reads: most,
    }
}

/// All reads are given.
const WHOLE: Reading = Reading {
    given: READS,
    limit: READS,
    end: Ok(()),
    reads: READS,
};

#[test]
fn reads(rt: HostRuntime) -> Result<(), Fail> {
    let catalog = notes(rt.alloc())?;
    for most in 0..READS {
        let replies = match most / 39 {
            0 => "",
            1 => COUNT_REPLY,
            _ => COUNT_REPLIES,
        };
        let is_right = is_reading(rt.alloc(), &catalog, &with_interrupt(most), replies)
            && is_reading(rt.alloc(), &catalog, &with_limit(most), replies);
        assert!(rt; is_right, "{most} reads");
    }
    assert!(rt; is_reading(rt.alloc(), &catalog, &WHOLE, COUNT_REPLIES));
    Ok(())
}

/// Returns true if a run fails if its output takes only some bytes, with these bytes of the replies written; and ends well if that takes all.
fn is_writing(alloc: Global, catalog: &Catalog, most: usize, interrupts: bool) -> bool {
    let wanted = if most == COUNT_REPLIES.len() {
        Ok(())
    } else {
        Err(RunFault::Write)
    };
    let mut out = Sips {
        taken: Vec::new(alloc),
        most,
        interrupts,
    };
    let end = end_of(alloc, catalog, &mut stream(READS), &mut out, READS);
    end == wanted
        && COUNT_REPLIES.as_bytes().starts_with(out.taken.as_slice())
        && out.taken.len() == most
}

#[test]
fn writes(rt: HostRuntime) -> Result<(), Fail> {
    let catalog = notes(rt.alloc())?;
    for most in 0..=COUNT_REPLIES.len() {
        let is_right = is_writing(rt.alloc(), &catalog, most, true)
            && is_writing(rt.alloc(), &catalog, most, false);
        assert!(rt; is_right, "{most} bytes");
    }
    Ok(())
}
