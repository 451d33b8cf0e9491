//! A reader or a writer of std as a device, with its reads, ends and failures counted.
ghost use Rattle.std.specs.Prelude.{◌≡◌};
ghost use Rattle.odata_http.specs.Device.{Counts};

use crate::device::{DeviceFault, Sink, Source};
use std::io::{Read, Write};
use std::marker::Model;

/// A reader or a writer of std. The counts stop at `u64::MAX`. An interrupted call has failed.
#[derive(Drop)]
pub struct Counted<T> {
    inner: T,
    reads: u64,
    ends: u64,
    failed: u64,
}

impl<T> Model for Counted<T> {
    ghost use Rattle.odata_http.specs.Counted.{CountedOf};

    ghost Value = { CountedOf T };

    ghost view = { λ c. record { inner = c.inner; reads = c.reads; ends = c.ends; failed = c.failed } };
}

fn one_more(n: u64) -> u64
    ensures { Counts n result }
{
    n.saturating_add(1)
}

impl<T> Counted<T> {
    /// Returns the reader or the writer, with nothing counted yet.
    pub fn new(inner: T) -> Counted<T>
        ensures { result ≡ record { inner = inner; reads = 0; ends = 0; failed = 0 } }
    {
        Counted {
            inner,
            reads: 0,
            ends: 0,
            failed: 0,
        }
    }
}

impl<T: Read> Source for Counted<T> {
    ghost source = { λ s. record { left = T.remaining s.inner; reads = s.reads; ends = s.ends; failed_reads = s.failed } };

    fn read(&mut self, buf: &mut [u8]) -> Result<usize, DeviceFault> {
        self.reads = one_more(self.reads);
        match self.inner.read(buf) {
            Ok(0) if !buf.is_empty() => {
                self.ends = one_more(self.ends);
                Ok(0)
            }
            Ok(n) => Ok(n),
            Err(_) => {
                self.failed = one_more(self.failed);
                Err(DeviceFault)
            }
        }
    }
}

impl<T: Write> Sink for Counted<T> {
    ghost sink = { λ s. record { taken = T.contents s.inner; failed_writes = s.failed } };

    fn write(&mut self, bytes: &[u8]) -> Result<usize, DeviceFault> {
        match self.inner.write(bytes) {
            Ok(n) if n > 0 || bytes.is_empty() => Ok(n),
            Ok(_) | Err(_) => {
                self.failed = one_more(self.failed);
                Err(DeviceFault)
            }
        }
    }
}
