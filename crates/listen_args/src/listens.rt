//! Where the service listens: at a port, at a path, or on the socket that is standard input, and what it says if it can't.
ghost use Rattle.std.specs.Prelude.{◌≡◌, IfNone, IfOk, IfSome, string_bytes};
ghost use Rattle.listen_args.specs.Listens.{AsksToListen, listens_text, obstacle_text, unserved_text};

use crate::words::ListenOptions;
use std::alloc::{AllocError, Global};
use std::io::ErrorKind;
use std::net::IpAddr;

/// Where the service listens.
#[derive(Clone, Copy)]
pub enum Listens<'a> {
    /// At a port of an address, which the command line has as a text.
    Port {
        text: &'a str,
        address: IpAddr,
        port: u16,
    },
    /// At a path, on a Unix socket.
    Unix {
        path: &'a str,
    },
    /// On the socket that is standard input.
    Stdin,
}

/// Returns where the options ask to listen, or `None` if they name no place, more than one, or an address that is none.
pub fn listens_of<'a>(words: &ListenOptions<'a>) -> Option<Listens<'a>>
    ensures some { IfSome result (AsksToListen words.now) }
    ensures none { IfNone result ((at : Listens) → AsksToListen words.now at → ⊥) }
{
    if let Some(port) = words.port {
        if words.unix.is_some() || words.socket_stdin {
            return None;
        }
        return match words.address.parse::<IpAddr>() {
            Ok(address) => Some(Listens::Port {
                text: words.address,
                address,
                port,
            }),
            Err(_) => None,
        };
    }
    match words.unix {
        Some(_) if words.socket_stdin => None,
        Some(path) => Some(Listens::Unix { path }),
        None if words.socket_stdin => Some(Listens::Stdin),
        None => None,
    }
}

/// Why a place can't be taken.
#[derive(Clone, Copy)]
pub enum Obstacle {
    /// Somebody listens there.
    Taken,
    /// The address is not of this machine.
    Foreign,
    /// The user of the program may not take it.
    Forbidden,
    /// All else that the system finds.
    Other,
}

impl Obstacle {
    /// Returns the obstacle that an error of the system reports.
    pub fn of(kind: ErrorKind) -> Obstacle
        ensures taken { kind ≡ ErrorKind.AddrInUse → result ≡ Obstacle.Taken }
        ensures foreign { kind ≡ ErrorKind.AddrNotAvailable → result ≡ Obstacle.Foreign }
        ensures forbidden { kind ≡ ErrorKind.PermissionDenied → result ≡ Obstacle.Forbidden }
    {
        match kind {
            ErrorKind::AddrInUse => Obstacle::Taken,
            ErrorKind::AddrNotAvailable => Obstacle::Foreign,
            ErrorKind::PermissionDenied => Obstacle::Forbidden,
            _ => Obstacle::Other,
        }
    }

    /// Returns what is said of it.
    fn text(self) -> &'static str
        ensures { result.now ≡ obstacle_text self }
    {
        match self {
            Obstacle::Taken => "is taken",
            Obstacle::Foreign => "is not of this machine",
            Obstacle::Forbidden => "may not be taken",
            Obstacle::Other => "can't be listened on",
        }
    }
}

/// Returns the name of a place.
fn place_name(alloc: Global, at: &Listens<'_>) -> Result<String, AllocError>
    ensures { IfOk result (λ name. string_bytes name ≡ listens_text at.now) }
{
    match at {
        Listens::Port { text, port, .. } => {
            let mut name = format!(in alloc; "port {port} of ")?;
            name.push_str(text)?;
            Ok(name)
        }
        Listens::Unix { path } => String::from_str(alloc, path),
        Listens::Stdin => String::from_str(alloc, "standard input"),
    }
}

/// Returns the line about a place that could not be taken.
pub fn unserved_line(
    alloc: Global,
    at: &Listens<'_>,
    obstacle: Obstacle,
) -> Result<String, AllocError>
    ensures { IfOk result (λ line. string_bytes line ≡ unserved_text at.now obstacle) }
{
    let mut line = String::from_str(alloc, "not served: ")?;
    line.push_str(place_name(alloc, at)?.as_str())?;
    line.push_str(" ")?;
    line.push_str(obstacle.text())?;
    Ok(line)
}
