//! Connections, one after another in one thread. Each is a stream of requests, answered as any other stream is.
ghost use Rattle.std.specs.Prelude.{◌≡◌};
ghost use Rattle.odata_serve.specs.Serving.{AnswersInTurn, IsServed, IsTold, serving};

use crate::listener::Listener;
use exit_statuses::ProgramFault;
use odata_http::{Sink, send};
use std::alloc::Global;
use table_store::Catalog;

/// Writes the line that reports the listener's port.
fn write_port<L: Listener, W: Sink>(
    alloc: Global,
    listener: &mut L,
    out: &mut W,
) -> Result<(), ProgramFault>
    ensures { IsTold (serving (L.listener listener.old) (L.listener listener.new)
        (W.sink out.old) (W.sink out.new)) result }
{
    let Ok(port) = listener.port() else {
        return Err(ProgramFault::Device);
    };
    let line = format!(in alloc; "listening 127.0.0.1:{port}\n")?;
    match send(out, line.as_bytes()) {
        Ok(()) => Ok(()),
        Err(_) => Err(ProgramFault::Device),
    }
}

/// Answers a number of connections in turn from the catalog.
fn answer_connections<L: Listener>(
    alloc: Global,
    catalog: &Catalog,
    listener: &mut L,
    connections: u32,
) -> Result<(), ProgramFault>
    ensures port { (L.listener listener.new).port ≡ (L.listener listener.old).port }
    ensures counts { AnswersInTurn connections
        (L.listener listener.old) (L.listener listener.new) result }
{
    for _turn in 0..connections {
        listener.answer_next(alloc, catalog)?;
    }
    Ok(())
}

/// Reports the port, then answers a number of connections in turn from the catalog. Running out of memory ends it, as does a connection that cannot be accepted.
pub fn serve<L: Listener, W: Sink>(
    alloc: Global,
    catalog: &Catalog,
    listener: &mut L,
    connections: u32,
    out: &mut W,
) -> Result<(), ProgramFault>
    ensures { IsServed connections (serving (L.listener listener.old) (L.listener listener.new)
        (W.sink out.old) (W.sink out.new)) result }
{
    write_port(alloc, listener, out)?;
    answer_connections(alloc, catalog, listener, connections)
}
