//! Listening sockets of both kinds as one.

use crate::streams::Stream;
use std::io;
use std::io::ErrorKind;
use std::net::{TcpListener, TcpStream};
use std::os::fd::OwnedFd;
use std::os::unix::net::{UnixListener, UnixStream};
use std::time::Duration;

/// How long an accept waits for a client, in milliseconds.
const WAIT: u64 = 100;

/// The system's number for a full table of descriptors of all processes; `EMFILE` is that of one process.
const ENFILE: i32 = 23;

/// A listening socket.
#[derive(Drop)]
pub enum Listener {
    Tcp(TcpListener),
    Unix(UnixListener),
}

/// Whether an accept that was refused so may be made again: nobody came in time, a client went away before it was accepted, or
/// there is no descriptor left for now.
fn is_passing(error: &io::Error) -> bool {
    match error.kind() {
        ErrorKind::WouldBlock => true,
        ErrorKind::Interrupted => true,
        ErrorKind::ConnectionAborted => true,
        _ => match error.raw_os_error() {
            Some(number) => number == libc::EMFILE || number == ENFILE,
            None => false,
        },
    }
}

impl Listener {
    /// The port, of a TCP socket.
    pub fn port(&self) -> io::Result<u16> {
        match self {
            Listener::Tcp(listener) => Ok(listener.local_addr()?.port()),
            Listener::Unix(_) => Ok(0),
        }
    }

    /// Has an accept wait in the kernel, so that a client that comes meanwhile waits for nothing.
    pub fn wait_for_clients(&self) -> io::Result<()> {
        let wait = Some(Duration::from_millis(WAIT));
        match self {
            // The time that a listener waits is what other sockets call the time of a read.
            Listener::Tcp(listener) => {
                let socket = OwnedFd::from(listener.try_clone()?);
                TcpStream::from(socket).set_read_timeout(wait)
            }
            Listener::Unix(listener) => {
                let socket = OwnedFd::from(listener.try_clone()?);
                UnixStream::from(socket).set_read_timeout(wait)
            }
        }
    }

    fn accept_stream(&self) -> io::Result<Stream> {
        match self {
            Listener::Tcp(listener) => Ok(Stream::Tcp(listener.accept()?.0)),
            Listener::Unix(listener) => Ok(Stream::Unix(listener.accept()?.0)),
        }
    }

    /// The next client's stream; none where no client came within the wait, or the one that came is gone.
    pub fn accept(&self) -> io::Result<Option<Stream>> {
        let stream = match self.accept_stream() {
            Ok(stream) => stream,
            Err(error) if is_passing(&error) => return Ok(None),
            Err(error) => return Err(error),
        };
        // A client that went away meanwhile is no fault of the listener.
        if stream.wait_for_ever().is_err() || stream.send_at_once().is_err() {
            return Ok(None);
        }
        Ok(Some(stream))
    }
}
