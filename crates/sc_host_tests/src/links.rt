use sc_entry::{ByteText, Calls, Items, NoMemory, Queue};
use sc_link::{
    AcceptFault, Accepted, Acceptor, AcceptorMaker, ConnectError, Connection, ListenError,
    MemAcceptor, MemAcceptorMaker, MemConnector, MemLink, MemListening, connect, send_all,
};
use sc_wire_address::SocketAddr;
use std::alloc::Global;
use std::test::Fail;

/// A link on which these bytes come, and then the end.
fn link(alloc: Global, bytes: &[u8]) -> Result<MemLink, NoMemory> {
    let bytes = ByteText::from_slice(alloc, bytes)?;
    Ok(MemLink::new(alloc, bytes, Calls::new(alloc)))
}

/// Links on which a byte each comes.
fn links(alloc: Global, bytes: &[u8]) -> Result<Queue<MemLink>, NoMemory> {
    let mut links = Queue::new(alloc);
    for byte in bytes {
        links.push_back(link(alloc, &[*byte])?)?;
    }
    Ok(links)
}

/// The calls of which one is to fail.
fn failing(alloc: Global, number: u64) -> Result<Calls, NoMemory> {
    let mut numbers = Items::new(alloc);
    numbers.push(number)?;
    Calls::failing_at(alloc, numbers)
}

/// Reads a piece, and says whether it is this one.
fn reads<K: Connection>(link: &mut K, piece: &[u8]) -> bool {
    let mut buffer = [0; 3];
    match link.read(&mut buffer) {
        Ok(n) => &buffer[..n] == piece,
        Err(_) => false,
    }
}

fn talks<K: Connection>(link: &mut K) -> bool {
    let first = reads(link, b"abc") && send_all(link, b"one").is_ok();
    let second = reads(link, b"d") && send_all(link, b"two").is_ok();
    first
        && second
        && reads(link, b"")
        && reads(link, b"")
        && link.faults() == 0
        && link.number() == 0
}

/// Bytes come in pieces of the buffer's size, and then the end, as often as it is asked for; what was written stands in order.
#[test]
fn ample_mem_link(rt: HostRuntime) -> Result<(), Fail> {
    let mut end = link(rt.alloc(), b"abcd")?;
    assert!(rt; talks(&mut end) && !end.is_shut());
    assert_eq!(rt; end.written(), b"onetwo".as_slice());
    assert_eq!(rt; end.into_written().as_slice(), b"onetwo".as_slice());
    Ok(())
}

fn writes_no_more<K: Connection>(link: &mut K) -> bool {
    let before = send_all(link, b"one").is_ok();
    link.shut();
    let after = send_all(link, b"two").is_err() && link.faults() == 1;
    before && after && reads(link, b"ab") && reads(link, b"") && link.faults() == 1
}

/// After a link was shut it takes nothing and is read as before.
#[test]
fn shut_link_is_read_on(rt: HostRuntime) -> Result<(), Fail> {
    let mut end = link(rt.alloc(), b"ab")?;
    assert!(rt; writes_no_more(&mut end) && end.is_shut());
    assert_eq!(rt; end.written(), b"one".as_slice());
    Ok(())
}

fn refuses_the_second<K: Connection>(link: &mut K) -> bool {
    let first = reads(link, b"abc");
    let second = link.write(b"no").is_err() && link.faults() == 1;
    first && second && link.write(b"yes").is_ok() && reads(link, b"d") && link.faults() == 1
}

/// Reads and writes are counted together, and a listed one is refused once.
#[test]
fn listed_call_is_refused_once(rt: HostRuntime) -> Result<(), Fail> {
    let alloc = rt.alloc();
    let bytes = ByteText::from_slice(alloc, b"abcd")?;
    let mut end = MemLink::new(alloc, bytes, failing(alloc, 2)?);
    assert!(rt; refuses_the_second(&mut end));
    assert_eq!(rt; end.written(), b"yes".as_slice());
    Ok(())
}

/// Connects, and says whether on the link this byte comes.
fn gives<C: sc_link::Connector>(connector: &mut C, addr: &SocketAddr, byte: u8) -> bool {
    match connect(connector, addr) {
        Ok(mut link) => link.number() == 0 && reads(&mut link, &[byte]),
        Err(_) => false,
    }
}

fn refuses<C: sc_link::Connector>(connector: &mut C, addr: &SocketAddr) -> bool {
    matches!(connect(connector, addr), Err(ConnectError::LinkFault))
}

fn connects_twice(connector: &mut MemConnector, addr: &SocketAddr, name: &SocketAddr) -> bool {
    let first = gives(connector, addr, b'a') && refuses(connector, addr);
    let second = refuses(connector, name) && gives(connector, addr, b'b');
    first && second && refuses(connector, addr)
}

/// The links come in order; a listed call, an abstract name and a call behind the last link are refused, and each counts as asked.
#[test]
fn ample_connect(rt: HostRuntime) -> Result<(), Fail> {
    let alloc = rt.alloc();
    let addr = SocketAddr::with_port(4226);
    let name = SocketAddr::UnixAbstract(ByteText::from_slice(alloc, b"name")?);
    let mut connector = MemConnector::new(alloc, links(alloc, b"ab")?, failing(alloc, 2)?);
    assert!(rt; connects_twice(&mut connector, &addr, &name));
    assert_eq!(rt; connector.connects(), 5);
    assert_eq!(rt; sc_link::Connector::faults(&connector), 3);
    let asked = connector.asked();
    assert!(rt; asked.len() == 5 && asked[0] == addr && asked[2] == name && asked[4] == addr);
    Ok(())
}

/// Accepts, and says whether it is a link with this number on which this byte comes.
fn accepts<A: Acceptor>(acceptor: &mut A, number: u64, byte: u8) -> bool {
    match acceptor.accept() {
        Ok(Accepted::Link(mut link)) => link.number() == number && reads(&mut link, &[byte]),
        _ => false,
    }
}

fn is_closed<A: Acceptor>(acceptor: &mut A) -> bool {
    matches!(acceptor.accept(), Ok(Accepted::Closed))
}

fn accepts_all<A: Acceptor>(acceptor: &mut A) -> bool {
    let first = accepts(acceptor, 0, b'a') && acceptor.accept().is_err() && acceptor.faults() == 1;
    let second = accepts(acceptor, 1, b'b') && accepts(acceptor, 2, b'c');
    first && second && is_closed(acceptor) && is_closed(acceptor) && acceptor.faults() == 1
}

/// Links are numbered as they are given, a listed call is refused once, and behind the last link the acceptor is closed.
#[test]
fn ample_mem_acceptor(rt: HostRuntime) -> Result<(), Fail> {
    let alloc = rt.alloc();
    let addr = SocketAddr::with_port(4226);
    let mut acceptor = MemAcceptor::new(addr, links(alloc, b"abc")?, failing(alloc, 2)?);
    assert!(rt; accepts_all(&mut acceptor));
    Ok(())
}

fn makes<M: AcceptorMaker>(maker: &mut M, addr: &SocketAddr) -> bool {
    match maker.make(addr) {
        Ok(mut acceptor) => acceptor.local_addr() == addr
            && accepts(&mut acceptor, 0, b'a')
            && is_closed(&mut acceptor),
        Err(_) => false,
    }
}

fn refuses_so<M: AcceptorMaker>(maker: &mut M, addr: &SocketAddr, error: ListenError) -> bool {
    match maker.make(addr) {
        Ok(_) => false,
        Err(refusal) => refusal == error,
    }
}

fn answers_in_turn<M: AcceptorMaker>(maker: &mut M, addr: &SocketAddr, name: &SocketAddr) -> bool {
    let taken = refuses_so(maker, addr, ListenError::AddrInUse)
        && refuses_so(maker, addr, ListenError::AcceptFault);
    let made = refuses_so(maker, name, ListenError::AcceptFault) && makes(maker, addr);
    taken && made && refuses_so(maker, addr, ListenError::AcceptFault) && maker.faults() == 4
}

/// A maker answers by its list in turn; a listed call, an abstract name and a call behind the list's end are refused.
#[test]
fn ample_make(rt: HostRuntime) -> Result<(), Fail> {
    let alloc = rt.alloc();
    let addr = SocketAddr::with_port(0);
    let name = SocketAddr::UnixAbstract(ByteText::from_slice(alloc, b"name")?);
    let mut answers = Queue::new(alloc);
    answers.push_back(MemListening::AddrInUse)?;
    answers.push_back(MemListening::Links(links(alloc, b"a")?, Calls::new(alloc)))?;
    let mut maker = MemAcceptorMaker::new(alloc, answers, failing(alloc, 2)?);
    assert!(rt; answers_in_turn(&mut maker, &addr, &name));
    assert!(rt; maker.asked().len() == 5 && maker.asked()[2] == name);
    Ok(())
}

/// What refusals are called.
#[test]
fn refusals_are_told(rt: HostRuntime) -> Result<(), Fail> {
    let alloc = rt.alloc();
    let text = format!(in alloc; "{}, {}", ConnectError::LinkFault, ConnectError::NoMemory)?;
    assert_eq!(rt; text.as_str(), "link fault, out of memory");
    let text = format!(in alloc;
        "{}, {}, {}",
        AcceptFault,
        ListenError::AddrInUse,
        ListenError::AcceptFault
    )?;
    assert_eq!(rt; text.as_str(), "accept fault, accept fault, accept fault");
    Ok(())
}
