ghost use Rattle.std.specs.Prelude.{◌≡◌, ◌≤◌, None};
ghost use Rattle.sc_entry.specs.Failing.{one_more};
ghost use Rattle.sc_link.specs.declared.link_error.ConnectError.TheVariants as connect_errors;

use crate::host_link::HostLink;
use crate::streams::Stream;
use sc_link::{ConnectError, Connector, is_abstract};
use sc_wire_address::{NetAddr, SocketAddr};
use std::io;
use std::io::ErrorKind;
use std::net::{Net, TcpListener, TcpStream};
use std::os::unix::net::UnixStream;

/// A connector of the host: it opens TCP and Unix sockets.
#[derive(Drop)]
pub struct HostConnector<R> {
    rt: R,
    faults: u64,
}

impl<R> HostConnector<R> {
    pub fn new(rt: R) -> HostConnector<R>
        ensures { result.faults ≡ 0 }
    {
        HostConnector { rt, faults: 0 }
    }

    /// Counts a fault.
    fn refuse(&mut self) -> ConnectError
        ensures fault { result ≡ connect_errors.LinkFault }
        ensures count { self.new.faults ≡ one_more self.old.faults }
        ensures later { self.old.faults ≤ self.new.faults }
    {
        self.faults = self.faults.saturating_add(1);
        ConnectError::LinkFault
    }
}

fn connect_tcp<R: Net<Listener = TcpListener, Stream = TcpStream>>(
    rt: &R,
    addr: &NetAddr,
) -> io::Result<Stream> {
    let stream = Stream::Tcp(TcpStream::connect(rt, (addr.ip, addr.port))?);
    stream.send_at_once()?;
    Ok(stream)
}

fn connect_unix<R: Net>(rt: &R, path: &str) -> io::Result<Stream> {
    Ok(Stream::Unix(UnixStream::connect(rt, path)?))
}

fn open_stream<R: Net<Listener = TcpListener, Stream = TcpStream>>(
    rt: &R,
    addr: &SocketAddr,
) -> io::Result<Stream> {
    match addr {
        SocketAddr::Net(addr) => connect_tcp(rt, addr),
        SocketAddr::Unix(path) => connect_unix(rt, path.as_str()),
        SocketAddr::UnixAbstract(_) => Err(io::Error::from(ErrorKind::Unsupported)),
    }
}

impl<R: Net<Listener = TcpListener, Stream = TcpStream> + Drop> Connector for HostConnector<R> {
    type Link = HostLink;

    ghost asked = { λ _. None };

    ghost links = { λ _. None };

    ghost fault_count = { λ c. c.faults };

    fn faults(&self) -> u64 {
        self.faults
    }

    fn connect(&mut self, addr: &SocketAddr) -> Result<HostLink, ConnectError> {
        if is_abstract(addr) {
            return Err(self.refuse());
        }
        match open_stream(&self.rt, addr) {
            Ok(stream) => Ok(HostLink::new(stream, 0)),
            Err(_) => Err(self.refuse()),
        }
    }
}
