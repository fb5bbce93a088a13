//! Connections, and requests that have one kind of reply.
use crate::links::{
    FINISHED, STARTED, ZEROED, add_owned, connected, discard_reply, dribbling, failing_link, link,
};
use sc_client::{
    ClientError, RequestError, ServerConnection, Statistics, connect_to_server, connect_with_retry,
    request_dist_status, request_shutdown, request_stats, request_zero_stats,
};
use sc_clock::MemClock;
use sc_entry::{ByteText, CacheMode, Calls, Items, NoMemory, Queue, Text};
use sc_link::{Link, MemConnector, MemLink};
use sc_model::{Request, Response, StorageHandshakeInfo};
use sc_stats::{DistInfo, ServerInfo, ServerStats};
use sc_wire_address::SocketAddr;
use std::alloc::Global;
use std::test::Fail;

/// What a connection answered.
#[derive(Clone, Copy, PartialEq, Eq)]
enum Kind {
    /// Counters were emptied.
    Zeroed,
    /// Another reply came.
    Other,
    Refused(RequestError),
}

fn reply_kind(reply: &Response) -> Kind {
    match reply {
        Response::ZeroStats => Kind::Zeroed,
        _ => Kind::Other,
    }
}

/// What was answered; the reply is dropped.
fn kind_of(answer: Result<Response, RequestError>) -> Kind {
    match answer {
        Ok(reply) => {
            let kind = reply_kind(&reply);
            discard_reply(reply);
            kind
        }
        Err(refusal) => Kind::Refused(refusal),
    }
}

/// What a request is answered.
fn asks<K: Link + Drop>(connection: &mut ServerConnection<K>, request: &Request) -> Kind {
    kind_of(connection.request(request))
}

/// What is read without a request.
fn reads<K: Link + Drop>(connection: &mut ServerConnection<K>) -> Kind {
    kind_of(connection.read_one_response())
}

/// Whether a request for counters is refused so.
fn refuses<K: Link + Drop>(connection: &mut ServerConnection<K>, error: RequestError) -> bool {
    asks(connection, &Request::GetStats) == Kind::Refused(error)
}

/// Whether a reply and the next are read, and then the end, of which only the first was asked for.
fn keeps(connection: &mut ServerConnection<MemLink>) -> bool {
    let first = asks(connection, &Request::ZeroStats) == Kind::Zeroed;
    let sent = connection.link().written() == b"\x00\x00\x00\x04\x00\x00\x00\x00".as_slice();
    let second = reads(connection) == Kind::Zeroed;
    first && sent && second && refuses(connection, RequestError::EndOfStream)
}

/// Two replies come in one piece; the second is kept, and then the end.
#[test]
fn what_is_read_behind_a_reply_is_kept(rt: HostRuntime) -> Result<(), Fail> {
    let bytes = [ZEROED, ZEROED].concat(rt.alloc())?;
    let mut connection = connected(rt.alloc(), &bytes)?;
    assert!(rt; keeps(&mut connection));
    Ok(())
}

/// Whether a request is refused so where these bytes come.
fn is_refused(alloc: Global, bytes: &[u8], error: RequestError) -> Result<bool, Fail> {
    let mut connection = connected(alloc, bytes)?;
    Ok(refuses(&mut connection, error))
}

/// Whether it is refused so again and again.
fn is_refused_twice(alloc: Global, bytes: &[u8], error: RequestError) -> Result<bool, Fail> {
    let mut connection = connected(alloc, bytes)?;
    let first = refuses(&mut connection, error);
    Ok(first && refuses(&mut connection, error))
}

/// Whether it is refused so where they come a byte at a time.
fn is_refused_cut(alloc: Global, bytes: &[u8], error: RequestError) -> Result<bool, Fail> {
    let mut connection = dribbling(alloc, bytes)?;
    Ok(refuses(&mut connection, error))
}

/// A length of 16,777,217 bytes is refused at once, again and again; one of 16,777,216 isn't, and takes no memory for it.
#[test]
fn lengths_are_judged(rt: HostRuntime) -> Result<(), Fail> {
    let long = b"\x01\x00\x00\x01";
    assert!(rt; is_refused_twice(rt.alloc(), long, RequestError::BadFrame)?);
    let cut_off = b"\x01\x00\x00\x00\x01";
    assert!(rt; is_refused_cut(rt.alloc(), cut_off, RequestError::EndOfStream)?);
    let no_reply = b"\x00\x00\x00\x04\x7f\x00\x00\x00";
    assert!(rt; is_refused(rt.alloc(), no_reply, RequestError::BadFrame)?);
    Ok(())
}

/// Whether a refusal of the link is answered twice, and then nothing is read: how many bytes the link took by then, if so.
fn written_at_refusal(
    connection: &mut ServerConnection<MemLink>,
    error: RequestError,
) -> Option<usize> {
    let first = refuses(connection, error);
    let written = connection.link().written().len();
    let second = refuses(connection, error);
    let third = reads(connection) == Kind::Refused(error);
    let same = connection.link().written().len() == written && connection.link().faults() == 1;
    (first && second && third && same).then_some(written)
}

/// A refused read is answered again, and its link is neither read nor written from then on.
#[test]
fn a_refused_read_is_kept(rt: HostRuntime) -> Result<(), Fail> {
    let link = failing_link(rt.alloc(), ZEROED, &[2])?;
    let mut connection = ServerConnection::new(rt.alloc(), link)?;
    assert!(rt; written_at_refusal(&mut connection, RequestError::ReadFault) == Some(8));
    Ok(())
}

#[test]
fn a_refused_write_is_kept(rt: HostRuntime) -> Result<(), Fail> {
    let link = failing_link(rt.alloc(), ZEROED, &[1])?;
    let mut connection = ServerConnection::new(rt.alloc(), link)?;
    assert!(rt; written_at_refusal(&mut connection, RequestError::WriteFault) == Some(0));
    Ok(())
}

/// Drops an error in a call of its own: dropped at the end of a branch it takes the check minutes.
fn discard_error(error: ClientError) {
    drop(error);
}

/// Why nothing else was answered.
#[derive(Clone, Copy, PartialEq, Eq)]
enum Why {
    EndOfStream,
    LinkFault,
    /// The reply was a finished compile.
    Finished,
    /// The reply was a compile's first.
    Compile,
    Other,
}

fn why_of(error: &ClientError) -> Why {
    match error {
        ClientError::EndOfStream => Why::EndOfStream,
        ClientError::LinkFault => Why::LinkFault,
        ClientError::Unexpected(Response::CompileFinished(_)) => Why::Finished,
        ClientError::Unexpected(Response::Compile(_)) => Why::Compile,
        _ => Why::Other,
    }
}

/// Why nothing else was answered; the error is dropped.
fn reason_of(error: ClientError) -> Why {
    let why = why_of(&error);
    discard_error(error);
    why
}

/// Asks that counters are emptied.
fn zeroes<K: Link + Drop>(connection: &mut ServerConnection<K>) -> Result<(), Why> {
    match request_zero_stats(connection) {
        Ok(()) => Ok(()),
        Err(error) => Err(reason_of(error)),
    }
}

/// Whether counters are emptied, and what else comes is told.
fn zeroes_once<K: Link + Drop>(connection: &mut ServerConnection<K>) -> bool {
    let first = zeroes(connection);
    let second = zeroes(connection);
    first == Ok(()) && second == Err(Why::Finished)
}

#[test]
fn ample_request_zero_stats(rt: HostRuntime) -> Result<(), Fail> {
    let bytes = [ZEROED, FINISHED].concat(rt.alloc())?;
    let mut connection = dribbling(rt.alloc(), &bytes)?;
    assert!(rt; zeroes_once(&mut connection));
    Ok(())
}

/// Statistics of seven requests.
fn stats(alloc: Global) -> ServerStats {
    let mut stats = ServerStats::new(alloc);
    stats.compile_requests = 7;
    stats
}

fn info(alloc: Global) -> Result<ServerInfo, NoMemory> {
    let cache_location = Text::from_str(alloc, "here")?;
    let version = Text::from_str(alloc, "0.19.0")?;
    Ok(ServerInfo {
        stats: stats(alloc),
        cache_location,
        cache_size: None,
        max_cache_size: None,
        use_preprocessor_cache_mode: false,
        version,
        basedirs: Items::new(alloc),
    })
}

fn handshake(alloc: Global) -> Result<Response, NoMemory> {
    let location = Text::from_str(alloc, "here")?;
    let cache_type_name = Text::from_str(alloc, "disk")?;
    Ok(Response::StorageHandshake(StorageHandshakeInfo {
        location,
        cache_type_name,
        basedirs: Items::new(alloc),
        use_preprocessor_cache_mode: false,
        cache_mode: CacheMode::ReadOnly,
        max_size: None,
    }))
}

/// Statistics, and then a handshake.
fn stats_frames(alloc: Global) -> Result<Vec<u8>, Fail> {
    let mut frames = Vec::new(alloc);
    add_owned(alloc, &mut frames, Response::Stats(info(alloc)?))?;
    add_owned(alloc, &mut frames, handshake(alloc)?)?;
    Ok(frames)
}

/// Drops statistics in a call of their own: dropped at the end of a branch they take the check minutes.
fn discard_info(info: ServerInfo) {
    drop(info);
}

/// How many requests are told, and whether the store is only read; the statistics are dropped.
fn told(statistics: Statistics) -> (u64, bool) {
    let Statistics { info, mode } = statistics;
    let requests = info.stats.compile_requests;
    discard_info(info);
    (requests, matches!(mode, CacheMode::ReadOnly))
}

/// Asks for counters: how many requests are told, and whether the store is only read.
fn asks_stats<K: Link + Drop>(connection: &mut ServerConnection<K>) -> Result<(u64, bool), Why> {
    match request_stats(connection) {
        Ok(statistics) => Ok(told(statistics)),
        Err(error) => Err(reason_of(error)),
    }
}

/// Statistics come with the handshake's mode.
#[test]
fn ample_request_stats(rt: HostRuntime) -> Result<(), Fail> {
    let frames = stats_frames(rt.alloc())?;
    let mut connection = dribbling(rt.alloc(), &frames)?;
    assert!(rt; asks_stats(&mut connection) == Ok((7, true)));
    Ok(())
}

/// Whether counters are asked for by one request, and a compile's reply comes.
fn asks_once(connection: &mut ServerConnection<MemLink>) -> bool {
    let answer = asks_stats(connection);
    let sent = connection.link().written() == b"\x00\x00\x00\x04\x01\x00\x00\x00".as_slice();
    answer == Err(Why::Compile) && sent
}

/// Where no statistics came, the handshake isn't asked for.
#[test]
fn no_handshake_without_statistics(rt: HostRuntime) -> Result<(), Fail> {
    let mut connection = connected(rt.alloc(), STARTED)?;
    assert!(rt; asks_once(&mut connection));
    Ok(())
}

/// Asks a server to stop: how many requests are told.
fn shuts<K: Link + Drop>(connection: &mut ServerConnection<K>) -> Result<u64, Why> {
    match request_shutdown(connection) {
        Ok(info) => {
            let requests = info.stats.compile_requests;
            discard_info(info);
            Ok(requests)
        }
        Err(error) => Err(reason_of(error)),
    }
}

/// Whether a server is asked to stop once, and then the end comes.
fn shuts_once<K: Link + Drop>(connection: &mut ServerConnection<K>) -> bool {
    let first = shuts(connection);
    let second = shuts(connection);
    first == Ok(7) && second == Err(Why::EndOfStream)
}

fn shutdown_frame(alloc: Global) -> Result<Vec<u8>, Fail> {
    let mut frames = Vec::new(alloc);
    add_owned(alloc, &mut frames, Response::ShuttingDown(info(alloc)?))?;
    Ok(frames)
}

#[test]
fn ample_request_shutdown(rt: HostRuntime) -> Result<(), Fail> {
    let frames = shutdown_frame(rt.alloc())?;
    let mut connection = connected(rt.alloc(), &frames)?;
    assert!(rt; shuts_once(&mut connection));
    Ok(())
}

fn dist_frame(alloc: Global) -> Result<Vec<u8>, Fail> {
    let mut frames = Vec::new(alloc);
    let why = Text::from_str(alloc, "disabled")?;
    let reply = Response::DistStatus(DistInfo::Disabled(why));
    add_owned(alloc, &mut frames, reply)?;
    Ok(frames)
}

fn is_disabled(info: &DistInfo) -> bool {
    matches!(info, DistInfo::Disabled(_))
}

/// Whether a server says that it has no distributed client.
fn tells_disabled<K: Link + Drop>(connection: &mut ServerConnection<K>) -> Result<bool, Why> {
    match request_dist_status(connection) {
        Ok(info) => Ok(is_disabled(&info)),
        Err(error) => Err(reason_of(error)),
    }
}

#[test]
fn ample_request_dist_status(rt: HostRuntime) -> Result<(), Fail> {
    let frames = dist_frame(rt.alloc())?;
    let mut connection = connected(rt.alloc(), &frames)?;
    assert!(rt; tells_disabled(&mut connection) == Ok(true));
    Ok(())
}

/// A connector that gives one link, where the calls before this number are refused.
fn connector(alloc: Global, refused: u64) -> Result<MemConnector, NoMemory> {
    let mut numbers = Items::new(alloc);
    for number in 1..=refused {
        numbers.push(number)?;
    }
    let calls = Calls::failing_at(alloc, numbers)?;
    let mut links = Queue::new(alloc);
    links.push_back(link(alloc, ZEROED)?)?;
    Ok(MemConnector::new(alloc, links, calls))
}

/// Whether a connection was made; it is dropped.
fn is_made(made: Result<ServerConnection<MemLink>, ClientError>) -> Result<(), Why> {
    match made {
        Ok(connection) => {
            drop(connection);
            Ok(())
        }
        Err(error) => Err(reason_of(error)),
    }
}

/// Whether a connection is made at once or later.
fn retries(alloc: Global, connector: &mut MemConnector, clock: &mut MemClock) -> bool {
    let addr = SocketAddr::with_port(4226);
    is_made(connect_with_retry(alloc, connector, clock, &addr)) == Ok(())
}

/// Whether each wait had 500 milliseconds.
fn are_waits(waits: &[u64]) -> bool {
    waits.iter().all(|wait| *wait == 500_000_000)
}

/// How often it was asked, how often it waited so long, and whether a connection was made.
fn connects(alloc: Global, refused: u64) -> Result<(u64, Option<usize>, bool), NoMemory> {
    let mut connector = connector(alloc, refused)?;
    let mut clock = MemClock::new(alloc, Items::new(alloc));
    let made = retries(alloc, &mut connector, &mut clock);
    let waits = clock.pauses();
    let waited = are_waits(waits).then_some(waits.len());
    Ok((connector.connects(), waited, made))
}

/// Eleven connects are refused, with ten pauses between them, and then no more.
#[test]
fn a_refused_connect_is_tried_ten_times_more(rt: HostRuntime) -> Result<(), Fail> {
    assert!(rt; connects(rt.alloc(), 0)? == (1, Some(0), true));
    assert!(rt; connects(rt.alloc(), 1)? == (2, Some(1), true));
    assert!(rt; connects(rt.alloc(), 10)? == (11, Some(10), true));
    assert!(rt; connects(rt.alloc(), 11)? == (11, Some(10), false));
    Ok(())
}

/// What is answered where no connect succeeds, in words; nothing where one does.
fn answer_text(
    alloc: Global,
    made: Result<ServerConnection<MemLink>, ClientError>,
) -> Result<ByteText, NoMemory> {
    match made {
        Ok(connection) => {
            drop(connection);
            Ok(ByteText::new(alloc))
        }
        Err(error) => {
            let text = error.text(alloc);
            discard_error(error);
            text
        }
    }
}

/// The same by a connector without links.
fn timed_out(alloc: Global) -> Result<ByteText, NoMemory> {
    let mut connector = MemConnector::new(alloc, Queue::new(alloc), Calls::new(alloc));
    let mut clock = MemClock::new(alloc, Items::new(alloc));
    let addr = SocketAddr::with_port(4226);
    let made = connect_with_retry(alloc, &mut connector, &mut clock, &addr);
    answer_text(alloc, made)
}

#[test]
fn it_times_out(rt: HostRuntime) -> Result<(), Fail> {
    let text = timed_out(rt.alloc())?;
    assert!(rt; text.as_slice() == b"Connection to server timed out: link fault".as_slice());
    Ok(())
}

/// Whether a connect is refused, by one call.
fn is_refused_once(alloc: Global, connector: &mut MemConnector, addr: &SocketAddr) -> bool {
    let refused = is_made(connect_to_server(alloc, connector, addr));
    refused == Err(Why::LinkFault) && connector.connects() == 1
}

/// What is answered over a connection that is made at once.
fn asks_over(
    made: Result<ServerConnection<MemLink>, ClientError>,
    request: &Request,
) -> Result<Kind, Why> {
    match made {
        Ok(connection) => {
            let mut connection = connection;
            Ok(asks(&mut connection, request))
        }
        Err(error) => Err(reason_of(error)),
    }
}

/// Whether a connection is made by one call more, over which counters are emptied.
fn connects_once(alloc: Global, connector: &mut MemConnector, addr: &SocketAddr) -> bool {
    let made = connect_to_server(alloc, connector, addr);
    let answer = asks_over(made, &Request::ZeroStats);
    answer == Ok(Kind::Zeroed) && connector.connects() == 2
}

/// A connection is made by one connect, and a refused one isn't tried again.
#[test]
fn ample_connect_to_server(rt: HostRuntime) -> Result<(), Fail> {
    let mut connector = connector(rt.alloc(), 1)?;
    let addr = SocketAddr::with_port(4226);
    assert!(rt; is_refused_once(rt.alloc(), &mut connector, &addr));
    assert!(rt; connects_once(rt.alloc(), &mut connector, &addr));
    Ok(())
}
