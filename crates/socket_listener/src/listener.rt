//! Where connections come from: a port, a Unix socket, or nowhere any more. What the system does no clause says.
use mio::net::{TcpListener, TcpStream, UnixListener, UnixStream};
use mio::{Interest, Poll, Token};
use std::fs;
use std::io::{self, ErrorKind};
use std::net::{self, Net, SocketAddr};
use std::os::fd::{AsFd, OwnedFd};
use std::os::unix::fs::FileTypeExt;
use std::rt::Files;

/// A listener, whose `accept` does not wait.
#[derive(Drop)]
pub enum ListeningSocket {
    /// At a port of an address.
    Port(TcpListener),
    /// At a path.
    Unix(UnixListener),
    /// It was closed.
    Closed,
}

/// Returns true if there is a socket at a path on which nobody listens.
fn is_stale<R: Files + Net>(rt: &R, path: &str) -> io::Result<bool> {
    if !fs::symlink_metadata(rt, path)?.file_type().is_socket() {
        return Ok(false);
    }
    match UnixStream::connect(rt, path) {
        Err(error) if error.kind() == ErrorKind::ConnectionRefused => Ok(true),
        // where one listens that has no room for another, this is `WouldBlock`
        _ => Ok(false),
    }
}

impl ListeningSocket {
    /// Listens at a port.
    pub fn at_port<R: Net>(rt: &R, address: SocketAddr) -> io::Result<ListeningSocket> {
        Ok(ListeningSocket::Port(TcpListener::bind(rt, address)?))
    }

    /// Listens at a path. A socket there on which nobody listens is replaced, and nothing else.
    pub fn at_path<R: Files + Net>(rt: &R, path: &str) -> io::Result<ListeningSocket> {
        match UnixListener::bind(rt, path) {
            Ok(listener) => return Ok(ListeningSocket::Unix(listener)),
            Err(error) if error.kind() == ErrorKind::AddrInUse => {}
            Err(error) => return Err(error),
        }
        if !is_stale(rt, path)? {
            return Err(io::Error::from(ErrorKind::AddrInUse));
        }
        fs::remove_file(rt, path)?;
        Ok(ListeningSocket::Unix(UnixListener::bind(rt, path)?))
    }

    /// Listens on the socket that is standard input, of which it takes another descriptor. Fails if that is no socket of TCP that listens.
    pub fn of_input(rt: &HostRuntime) -> io::Result<ListeningSocket> {
        let input = rt.stdin();
        let listener = net::TcpListener::from(input.as_fd().try_clone_to_owned()?);
        listener.local_addr()?;
        listener.set_nonblocking(true)?;
        let listener = TcpListener::from_std(listener);
        Ok(ListeningSocket::Port(listener))
    }

    /// Returns the address of a port.
    pub fn address(&self) -> io::Result<SocketAddr> {
        match self {
            ListeningSocket::Port(listener) => listener.local_addr(),
            _ => Err(io::Error::from(ErrorKind::Unsupported)),
        }
    }

    /// Takes a connection that waits. Over a Unix socket it has the type of one over TCP, which reads, writes and shuts down alike.
    pub fn accept(&self) -> io::Result<TcpStream> {
        match self {
            ListeningSocket::Port(listener) => {
                let (stream, _) = listener.accept()?;
                Ok(stream)
            }
            ListeningSocket::Unix(listener) => {
                let (stream, _) = listener.accept()?;
                Ok(TcpStream::from(OwnedFd::from(stream)))
            }
            ListeningSocket::Closed => Err(io::Error::from(ErrorKind::WouldBlock)),
        }
    }

    /// Has the system report the connections that come.
    pub fn register(&mut self, poll: &Poll, token: Token) -> io::Result<()> {
        match self {
            ListeningSocket::Port(listener) => {
                poll.registry()
                    .register(listener, token, Interest::READABLE)
            }
            ListeningSocket::Unix(listener) => {
                poll.registry()
                    .register(listener, token, Interest::READABLE)
            }
            ListeningSocket::Closed => Ok(()),
        }
    }

    /// Takes no connection any more. The system is asked for no more reports first: another descriptor of the socket may stay open.
    pub fn close(&mut self, poll: &Poll) {
        let _ = match self {
            ListeningSocket::Port(listener) => poll.registry().deregister(listener),
            ListeningSocket::Unix(listener) => poll.registry().deregister(listener),
            ListeningSocket::Closed => Ok(()),
        };
        *self = ListeningSocket::Closed;
    }
}
