//! Connections over the loopback device, in one activity: a client sends all of its stream before it is answered, and reads then.
use crate::base::{NOTES_REPLY, NOTES_REQUEST, notes};
use odata_http::Counted;
use odata_serve::{CountedListener, Listener, serve};
use std::io;
use std::io::{ErrorKind, Read, Write};
use std::net::{Ipv4Addr, Net, Shutdown, TcpListener, TcpStream};
use std::test::Fail;

/// Three requests, none of which closes.
const THREE_REQUESTS: &str =
    "GET / HTTP/1.1\r\nHost: h\r\n\r\nGET / HTTP/1.1\r\nHost: h\r\n\r\nGET / HTTP/1.1\r\nHost: h\r\n\r\n";

/// Returns a client that has sent a stream and sends no more.
fn client<R: Net<Listener = TcpListener, Stream = TcpStream>>(
    rt: &R,
    port: u16,
    stream: &str,
) -> io::Result<TcpStream> {
    let mut client = TcpStream::connect(rt, (Ipv4Addr::LOCALHOST, port))?;
    client.write_all(stream.as_bytes())?;
    client.shutdown(Shutdown::Write)?;
    Ok(client)
}

/// Returns the line of the port, and the reply to the second of two connections. The first client is gone before it is answered: its system refuses the first
/// reply, so the write of the second fails.
fn serve_two<R>(
    rt: &R,
    listener: &mut CountedListener,
    port: u16,
) -> Result<(Vec<u8>, Vec<u8>), Fail>
where
    R: Net<Listener = TcpListener, Stream = TcpStream> + AllocGlobal,
{
    let catalog = notes(rt.alloc())?;
    drop(client(rt, port, THREE_REQUESTS)?);
    let mut second = client(rt, port, NOTES_REQUEST)?;
    let mut line = Vec::new(rt.alloc());
    let mut out = Counted::new(&mut line);
    let end = serve(rt.alloc(), &catalog, listener, 2, &mut out);
    end.or(Err("connections that are not served"))?;
    let mut reply = Vec::new(rt.alloc());
    second.read_to_end(&mut reply)?;
    Ok((line, reply))
}

#[test]
fn loopback(rt: HostRuntime) -> Result<(), Fail> {
    let mut listener = CountedListener::bind(&rt, 0).or(Err("no port that is free"))?;
    let port = listener.port().or(Err("a port that is not told"))?;
    // no other address of the machine is listened on
    let refusal = TcpStream::connect(&rt, (Ipv4Addr::new(127, 0, 0, 2), port)).map(drop);
    assert!(rt; refusal.is_err_and(|error| error.kind() == ErrorKind::ConnectionRefused));
    let (line, reply) = serve_two(&rt, &mut listener, port)?;
    let wanted = format!(in rt.alloc(); "listening 127.0.0.1:{port}\n")?;
    assert!(rt; line.as_slice() == wanted.as_bytes() && reply.as_slice() == NOTES_REPLY.as_bytes());
    Ok(())
}
