ghost use Rattle.std.specs.Prelude.{◌≡◌, ◌≢◌, ◌≤◌, None, IfOk};
ghost use Rattle.sc_entry.specs.Failing.{one_more};
ghost use Rattle.sc_link.specs.Listening.{ListensAt};
ghost use Rattle.sc_link.specs.declared.link_error.ListenError.TheVariants as listen_errors;

use crate::host_acceptor::HostAcceptor;
use crate::listening::Listener;
use crate::unix_paths::listen_at;
use sc_link::{AcceptorMaker, ListenError, is_abstract};
use sc_wire_address::{NetAddr, SocketAddr};
use std::alloc::AllocGlobal;
use std::fs::Files;
use std::io::ErrorKind;
use std::net::{Net, TcpListener, TcpStream};
use std::time::{Clock, Duration};
use std::{io, thread};

/// How often a taken address is tried again: for a second, since a server that was stopped just now may not have let go of it.
const RETRIES: u32 = 20;

/// How long after, in milliseconds.
const PAUSE: u64 = 50;

/// A maker of acceptors of the host. A Unix socket is the owner's alone. The path of a socket that nobody answers is taken over;
/// any other file at the path stays, and the address is refused. An address that is taken is tried for up to a second.
#[derive(Drop)]
pub struct HostAcceptorMaker<R> {
    rt: R,
    faults: u64,
}

impl<R> HostAcceptorMaker<R> {
    pub fn new(rt: R) -> HostAcceptorMaker<R>
        ensures { result.faults ≡ 0 }
    {
        HostAcceptorMaker { rt, faults: 0 }
    }

    /// Counts a fault, whose kind tells whether the address was taken.
    fn refuse(&mut self, kind: ErrorKind) -> ListenError
        ensures count { self.new.faults ≡ one_more self.old.faults }
        ensures later { self.old.faults ≤ self.new.faults }
        ensures refused { result ≢ listen_errors.NoMemory }
    {
        self.faults = self.faults.saturating_add(1);
        match kind {
            ErrorKind::AddrInUse => ListenError::AddrInUse,
            _ => ListenError::AcceptFault,
        }
    }
}

fn listen_once<R>(rt: &R, addr: &SocketAddr) -> io::Result<Listener>
where
    R: AllocGlobal + Files + Net<Listener = TcpListener, Stream = TcpStream> + Clock,
{
    let listener = match addr {
        SocketAddr::Net(addr) => Listener::Tcp(TcpListener::bind(rt, (addr.ip, addr.port))?),
        SocketAddr::Unix(path) => Listener::Unix(listen_at(rt, path.as_str())?),
        SocketAddr::UnixAbstract(_) => return Err(io::Error::from(ErrorKind::Unsupported)),
    };
    listener.wait_for_clients()?;
    Ok(listener)
}

fn listen<R>(rt: &R, addr: &SocketAddr) -> io::Result<Listener>
where
    R: AllocGlobal + Files + Net<Listener = TcpListener, Stream = TcpStream> + Clock,
{
    for _ in 0..RETRIES {
        match listen_once(rt, addr) {
            Err(error) if error.kind() == ErrorKind::AddrInUse => {
                thread::sleep(rt, Duration::from_millis(PAUSE));
            }
            ended => return ended,
        }
    }
    listen_once(rt, addr)
}

/// The address of a listener: the one that was asked for, with the port that it got.
fn address_of(listener: &Listener, addr: &SocketAddr) -> io::Result<SocketAddr>
    ensures { IfOk result (λ address. ListensAt addr.now address) }
{
    match addr {
        SocketAddr::Net(NetAddr { ip, port: 0 }) => Ok(SocketAddr::Net(NetAddr {
            ip: *ip,
            port: listener.port()?,
        })),
        SocketAddr::Net(addr) => Ok(SocketAddr::Net(*addr)),
        SocketAddr::Unix(path) => Ok(SocketAddr::Unix(path.clone()?)),
        SocketAddr::UnixAbstract(name) => Ok(SocketAddr::UnixAbstract(name.clone()?)),
    }
}

fn acceptor_at<R>(rt: &R, addr: &SocketAddr) -> io::Result<HostAcceptor>
where
    R: AllocGlobal + Files + Net<Listener = TcpListener, Stream = TcpStream> + Clock,
    ensures address { IfOk result (λ acceptor. ListensAt addr.now acceptor.address) }
    ensures given { IfOk result (λ acceptor. acceptor.given ≡ 0) }
{
    let listener = listen(rt, addr)?;
    let address = address_of(&listener, addr)?;
    Ok(HostAcceptor::new(listener, address))
}

impl<R> AcceptorMaker for HostAcceptorMaker<R>
where
    R: AllocGlobal + Files + Net<Listener = TcpListener, Stream = TcpStream> + Clock + Drop,
{
    type Acceptor = HostAcceptor;

    ghost asked = { λ _. None };

    ghost fault_count = { λ m. m.faults };

    fn faults(&self) -> u64 {
        self.faults
    }

    fn make(&mut self, addr: &SocketAddr) -> Result<HostAcceptor, ListenError> {
        if is_abstract(addr) {
            return Err(self.refuse(ErrorKind::Unsupported));
        }
        match acceptor_at(&self.rt, addr) {
            Ok(acceptor) => Ok(acceptor),
            Err(error) => Err(self.refuse(error.kind())),
        }
    }
}
