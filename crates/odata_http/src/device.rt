//! Sources and sinks of bytes, which may fail. Contracts see each as one record: what it reports of its bytes, and what it counts.
ghost use Rattle.std.specs.Prelude.{◌≤◌, ℕ, OnOk, OnErr, length, take};
ghost use Rattle.std.specs.Io.{ReadsAtMost, WritesAtMost};
ghost use Rattle.std.specs.Io.KnownBytes.{Appends, ReadConsumes, WriteAppends};
ghost use Rattle.odata_http.specs.Device.{Counts, CountsEnd, CountsFailure, SinkOf, SourceOf, TakesSome};

/// A device gave or took nothing.
#[derive(Clone, Copy, PartialEq, Eq)]
pub struct DeviceFault;

/// What bytes are read from.
pub trait Source {
    /// The bytes that are left, if the device reports them, and its counts.
    ghost source: { Self → SourceOf };

    /// Moves the next bytes into the front of the buffer, and answers how many: 0 only at the end, or if the buffer has no room.
    fn read(&mut self, buf: &mut [u8]) -> Result<usize, DeviceFault>
        ensures bound { ReadsAtMost result buf.new }
        ensures bytes { ReadConsumes (source self.old).left (source self.new).left result buf.new }
        ensures reads { Counts (source self.old).reads (source self.new).reads }
        ensures ends { CountsEnd (source self.old).ends (source self.new).ends result buf.new }
        ensures failed { CountsFailure (source self.old).failed_reads
            (source self.new).failed_reads result };
}

/// What bytes are written to.
pub trait Sink {
    /// The bytes that were taken, if the device reports them, and its count.
    ghost sink: { Self → SinkOf };

    /// Takes a front of the bytes, and answers how long it is: of a nonempty piece at least one byte.
    fn write(&mut self, bytes: &[u8]) -> Result<usize, DeviceFault>
        ensures bound { WritesAtMost result bytes.now }
        ensures some { TakesSome bytes.now result }
        ensures bytes { WriteAppends (sink self.old).taken (sink self.new).taken result bytes.now }
        ensures failed { CountsFailure (sink self.old).failed_writes
            (sink self.new).failed_writes result };
}

/// Writes the whole piece. At an `Err` a front of it was taken.
pub fn send<W: Sink>(out: &mut W, bytes: &[u8]) -> Result<(), DeviceFault>
    ensures ok { OnOk result (Appends (W.sink out.old).taken (W.sink out.new).taken bytes.now) }
    ensures err { OnErr result ((n : ℕ) × (n ≤ length bytes.now)
        × Appends (W.sink out.old).taken (W.sink out.new).taken (take n bytes.now)) }
    ensures failed { CountsFailure (W.sink out.old).failed_writes
        (W.sink out.new).failed_writes result }
{
    let mut at = 0;
    while at < bytes.len() {
        let n = out.write(&bytes[at..])?;
        at += n;
    }
    Ok(())
}
