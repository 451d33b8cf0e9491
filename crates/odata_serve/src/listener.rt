//! Where connections come from. Contracts see a listener as one record: the port that it told, and what it counts.
ghost use Rattle.std.specs.Prelude.{◌≡◌, IfOk, Some};
ghost use Rattle.odata_http.specs.Device.{CountsFailure, CountsFit};
ghost use Rattle.odata_http.specs.Reply.{IsReply};
ghost use Rattle.odata_http.specs.Runs.{course};
ghost use Rattle.odata_serve.specs.Listener.{CountsAnswer, IsConnection, ListenerOf, new_listener};

use exit_statuses::{MAX_READS, ProgramFault};
use odata_http::{Counted, DeviceFault, RunFault, Sink, Source, run};
use std::alloc::Global;
use std::io;
use std::net::{Ipv4Addr, Net, TcpListener, TcpStream};
use table_store::Catalog;

/// What connections are taken from, one after another.
pub trait Listener {
    /// The port that was reported, and the counts.
    ghost listener: { Self → ListenerOf };

    /// Returns the port that it listens on.
    fn port(&mut self) -> Result<u16, DeviceFault>
        ensures port { IfOk result (λ port. (listener self.new).port ≡ Some port) }
        ensures answered { (listener self.new).answered ≡ (listener self.old).answered }
        ensures failed { CountsFailure
            (listener self.old).failed (listener self.new).failed result };

    /// Takes the next connection, and answers its stream from the catalog. A read or a write of it that fails, and too many reads, end it alone.
    fn answer_next(&mut self, alloc: Global, catalog: &Catalog) -> Result<(), ProgramFault>
        ensures port { (listener self.new).port ≡ (listener self.old).port }
        ensures counts { CountsAnswer (listener self.old) (listener self.new) result };
}

/// A listener of the system's. The counts stop at `u64::MAX`.
#[derive(Drop)]
pub struct CountedListener {
    inner: TcpListener,
    port: Option<u16>,
    answered: u64,
    failed: u64,
}

impl CountedListener {
    /// Returns the listener, with nothing told and nothing counted yet.
    pub fn new(inner: TcpListener) -> CountedListener
        ensures { ⟦<CountedListener as Listener>⟧.listener result ≡ new_listener }
    {
        CountedListener {
            inner,
            port: None,
            answered: 0,
            failed: 0,
        }
    }

    /// Returns a listener on that port of 127.0.0.1, which no other machine reaches; on a free port if that is 0.
    pub fn bind<R: Net<Listener = TcpListener, Stream = TcpStream>>(
        rt: &R,
        port: u16,
    ) -> io::Result<CountedListener>
        ensures { IfOk result (λ bound.
            ⟦<CountedListener as Listener>⟧.listener bound ≡ new_listener) }
    {
        let inner = TcpListener::bind(rt, (Ipv4Addr::LOCALHOST, port))?;
        Ok(CountedListener::new(inner))
    }

    /// Answers the stream of one connection, and counts it.
    fn answer_stream<R: Source, W: Sink>(
        &mut self,
        alloc: Global,
        catalog: &Catalog,
        input: &mut R,
        out: &mut W,
    ) -> Result<(), ProgramFault>
        requires { CountsFit (R.source input.old) (W.sink out.old) }
        ensures stream { IsConnection (IsReply catalog.now)
            (course (R.source input.old) (R.source input.new) (W.sink out.old) (W.sink out.new))
            result }
        ensures port { (⟦<CountedListener as Listener>⟧.listener self.new).port
            ≡ (⟦<CountedListener as Listener>⟧.listener self.old).port }
        ensures counts { CountsAnswer (⟦<CountedListener as Listener>⟧.listener self.old)
            (⟦<CountedListener as Listener>⟧.listener self.new) result }
    {
        match run(alloc, catalog, input, out, MAX_READS) {
            Err(RunFault::NoMemory) => Err(ProgramFault::NoMemory),
            _ => {
                self.answered = self.answered.saturating_add(1);
                Ok(())
            }
        }
    }
}

impl Listener for CountedListener {
    ghost listener = { λ s. record { port = s.port; answered = s.answered; failed = s.failed } };

    fn port(&mut self) -> Result<u16, DeviceFault> {
        match self.inner.local_addr() {
            Ok(address) => {
                let port = address.port();
                self.port = Some(port);
                Ok(port)
            }
            Err(_) => {
                self.failed = self.failed.saturating_add(1);
                Err(DeviceFault)
            }
        }
    }

    fn answer_next(&mut self, alloc: Global, catalog: &Catalog) -> Result<(), ProgramFault> {
        let Ok((stream, _)) = self.inner.accept() else {
            self.failed = self.failed.saturating_add(1);
            return Err(ProgramFault::Device);
        };
        // a reply is many bytes: without this the last of them wait for the peer
        let _ = stream.set_nodelay(true);
        let mut input = Counted::new(&stream);
        let mut out = Counted::new(&stream);
        self.answer_stream(alloc, catalog, &mut input, &mut out)
    }
}
