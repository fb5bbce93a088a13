use sc_entry::{ByteText, Text};
use sc_host_net::{HostAcceptorMaker, HostConnector};
use sc_link::{Accepted, Acceptor, AcceptorMaker, Connector, Link, ListenError, connect, send_all};
use sc_wire_address::SocketAddr;
use std::fs;
use std::os::unix::fs::MetadataExt;
use std::test::Fail;

/// What is left of some bytes behind those that were read, where they begin so.
fn behind<'a>(bytes: &'a [u8], read: &[u8]) -> Option<&'a [u8]> {
    if read.len() <= bytes.len() && &bytes[..read.len()] == read {
        Some(&bytes[read.len()..])
    } else {
        None
    }
}

/// Reads until the end, and says whether these bytes came.
fn reads_all<K: Link>(link: &mut K, bytes: &[u8]) -> bool {
    let mut buffer = [0; 16];
    let mut left = bytes;
    for _ in 0..16u8 {
        let Ok(n) = link.read(&mut buffer) else {
            return false;
        };
        if n == 0 {
            return left.is_empty();
        }
        match behind(left, &buffer[..n]) {
            Some(rest) => left = rest,
            None => return false,
        }
    }
    false
}

fn is_not_yet<A: Acceptor>(acceptor: &mut A) -> bool {
    matches!(acceptor.accept(), Ok(Accepted::NotYet))
}

/// The server's end reads a question to its end and answers.
fn answers<K: Link>(link: &mut K) -> bool {
    let read = reads_all(link, b"question") && send_all(link, b"answer").is_ok();
    link.shut();
    read && link.write(b"more").is_err() && link.faults() == 1
}

fn serves<A: Acceptor>(acceptor: &mut A, number: u64) -> bool {
    match acceptor.accept() {
        Ok(Accepted::Link(mut link)) => link.number() == number && answers(&mut link),
        _ => false,
    }
}

/// A client asks, the server answers, and both read each other's end.
fn talk<A: Acceptor, C: Connector>(
    acceptor: &mut A,
    connector: &mut C,
    addr: &SocketAddr,
    number: u64,
) -> bool {
    match connect(connector, addr) {
        Ok(mut link) => {
            let sent = send_all(&mut link, b"question").is_ok();
            link.shut();
            sent && serves(acceptor, number)
                && reads_all(&mut link, b"answer")
                && link.number() == 0
        }
        Err(_) => false,
    }
}

fn talk_twice<A: Acceptor, C: Connector>(
    acceptor: &mut A,
    connector: &mut C,
    addr: &SocketAddr,
) -> bool {
    let none = is_not_yet(acceptor) && talk(acceptor, connector, addr, 0);
    none && talk(acceptor, connector, addr, 1) && is_not_yet(acceptor) && acceptor.faults() == 0
}

/// The server's end is dropped unread, and the client's writes are refused in the end.
fn loses_its_peer<A: Acceptor, C: Connector>(
    acceptor: &mut A,
    connector: &mut C,
    addr: &SocketAddr,
) -> bool {
    let Ok(mut link) = connect(connector, addr) else {
        return false;
    };
    drop(acceptor.accept());
    for _ in 0..1000u16 {
        if send_all(&mut link, b"question").is_err() {
            return link.faults() == 1;
        }
    }
    false
}

fn refuses<M: AcceptorMaker>(maker: &mut M, addr: &SocketAddr, error: ListenError) -> bool {
    match maker.make(addr) {
        Ok(_) => false,
        Err(refusal) => refusal == error,
    }
}

fn port_of<A: Acceptor>(acceptor: &A) -> u16 {
    match acceptor.local_addr() {
        SocketAddr::Net(addr) => addr.port,
        _ => 0,
    }
}

/// Bytes go both ways over TCP; a taken port is refused, one that was let go is taken at once, and there nobody answers before.
#[test]
fn ample_tcp(rt: HostRuntime) -> Result<(), Fail> {
    let mut connector = HostConnector::new(rt.clone()?);
    let mut maker = HostAcceptorMaker::new(rt.clone()?);
    let mut acceptor = maker.make(&SocketAddr::with_port(0))?;
    let addr = SocketAddr::with_port(port_of(&acceptor));
    assert!(rt; talk_twice(&mut acceptor, &mut connector, &addr));
    assert!(rt; loses_its_peer(&mut acceptor, &mut connector, &addr));
    assert!(rt; refuses(&mut maker, &addr, ListenError::AddrInUse) && maker.faults() == 1);
    drop(acceptor);
    assert!(rt; connect(&mut connector, &addr).is_err() && connector.faults() == 1);
    let mut acceptor = maker.make(&addr)?;
    assert!(rt; talk_twice(&mut acceptor, &mut connector, &addr));
    Ok(())
}

/// The same over a Unix socket, which is its owner's alone; what an ended server left at the path is no hindrance.
#[test]
fn ample_unix(rt: HostRuntime) -> Result<(), Fail> {
    let alloc = rt.alloc();
    let mut connector = HostConnector::new(rt.clone()?);
    let mut maker = HostAcceptorMaker::new(rt.clone()?);
    let addr = SocketAddr::Unix(Text::from_str(alloc, "sockets/server")?);
    fs::create_dir_all(&rt, "sockets")?;
    let mut acceptor = maker.make(&addr)?;
    assert_eq!(rt;
        fs::symlink_metadata(&rt, "sockets/server")?.mode() & 0o7777,
        0o600
    );
    assert!(rt; *acceptor.local_addr() == addr);
    assert!(rt; talk_twice(&mut acceptor, &mut connector, &addr));
    assert!(rt; loses_its_peer(&mut acceptor, &mut connector, &addr));
    assert!(rt; refuses(&mut maker, &addr, ListenError::AddrInUse) && maker.faults() == 1);
    drop(acceptor);
    let mut acceptor = maker.make(&addr)?;
    assert!(rt; talk_twice(&mut acceptor, &mut connector, &addr));
    assert_eq!(rt; fs::read_dir(&rt, "sockets")?.count(), 1);
    Ok(())
}

/// A file that is no socket stays, and abstract names are refused at both ends.
#[test]
fn other_addresses_are_refused(rt: HostRuntime) -> Result<(), Fail> {
    let alloc = rt.alloc();
    let mut connector = HostConnector::new(rt.clone()?);
    let mut maker = HostAcceptorMaker::new(rt.clone()?);
    let path = SocketAddr::Unix(Text::from_str(alloc, "file")?);
    let name = SocketAddr::UnixAbstract(ByteText::from_slice(alloc, b"name")?);
    fs::write(&rt, "file", b"kept")?;
    assert!(rt; refuses(&mut maker, &path, ListenError::AcceptFault));
    assert!(rt; refuses(&mut maker, &name, ListenError::AcceptFault) && maker.faults() == 2);
    assert!(rt; connect(&mut connector, &path).is_err());
    assert!(rt; connect(&mut connector, &name).is_err() && connector.faults() == 2);
    assert_eq!(rt; fs::read(&rt, "file")?.as_slice(), b"kept".as_slice());
    Ok(())
}
