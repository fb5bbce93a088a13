//! How a client connects to a server.
ghost use Rattle.std.specs.Prelude.{◌≤◌, Result};
ghost use Rattle.sc_link.specs.declared.link_error.ConnectError.{ConnectError};
ghost use Rattle.sc_client.specs.Connecting.{Begins, ConnectsOnce};
ghost use Rattle.sc_client.specs.Conversations.{beginning};
ghost use Rattle.sc_client.specs.Retrying.{Retries, Tries};

use crate::client_error::ClientError;
use crate::connection::ServerConnection;
use sc_clock::Clock;
use sc_link::{ConnectError, Connector, connect};
use sc_wire_address::SocketAddr;
use std::alloc::Global;

/// How often a refused connect is tried again.
const RETRIES: u64 = 10;

/// How long is waited before that, in nanoseconds.
const PAUSE: u64 = 500_000_000;

/// A connection to the server at an address. The connector is asked once.
pub fn connect_to_server<C: Connector>(
    alloc: Global,
    connector: &mut C,
    addr: &SocketAddr,
) -> Result<ServerConnection<C::Link>, ClientError>
    ensures connects { (answer : Result C.Link ConnectError) × ConnectsOnce addr.now answer (C.asked connector.old) (C.asked connector.new) (C.links connector.old) (C.links connector.new) (C.fault_count connector.old) (C.fault_count connector.new)
        × Begins (λ link. beginning (C.Link.ahead link) (C.Link.written link) (C.Link.fault_count link)) answer result }
    ensures later { C.fault_count connector.old ≤ C.fault_count connector.new }
{
    let link = connect(connector, addr)?;
    let connection = ServerConnection::new(alloc, link)?;
    Ok(connection)
}

/// One connect of several.
fn try_once<C: Connector>(
    alloc: Global,
    connector: &mut C,
    addr: &SocketAddr,
) -> Result<Result<ServerConnection<C::Link>, ConnectError>, ClientError>
    ensures tries { (answer : Result C.Link ConnectError) × ConnectsOnce addr.now answer (C.asked connector.old) (C.asked connector.new) (C.links connector.old) (C.links connector.new) (C.fault_count connector.old) (C.fault_count connector.new)
        × Tries (λ link. beginning (C.Link.ahead link) (C.Link.written link) (C.Link.fault_count link)) answer result }
    ensures later { C.fault_count connector.old ≤ C.fault_count connector.new }
{
    match connect(connector, addr) {
        Ok(link) => {
            let connection = ServerConnection::new(alloc, link)?;
            Ok(Ok(connection))
        }
        Err(ConnectError::NoMemory) => Err(ClientError::NoMemory),
        Err(ConnectError::LinkFault) => Ok(Err(ConnectError::LinkFault)),
    }
}

/// A connection to the server at an address, for who has just started one. A refused connect is tried again after a pause of
/// 500,000,000 ns, which is handed to the clock, and ten times at most: then `TimedOut` of the last refusal.
pub fn connect_with_retry<C: Connector, L: Clock>(
    alloc: Global,
    connector: &mut C,
    clock: &mut L,
    addr: &SocketAddr,
) -> Result<ServerConnection<C::Link>, ClientError>
    ensures retries { Retries (λ link. beginning (C.Link.ahead link) (C.Link.written link) (C.Link.fault_count link)) addr.now (C.asked connector.old) (C.asked connector.new)
        (L.pauses clock.old) (L.pauses clock.new) (C.links connector.old) (C.links connector.new) (C.fault_count connector.old) (C.fault_count connector.new) result }
    ensures later { C.fault_count connector.old ≤ C.fault_count connector.new }
{
    let mut pauses = 0;
    while pauses < RETRIES {
        if let Ok(connection) = try_once(alloc, connector, addr)? {
            return Ok(connection);
        }
        clock.pause(PAUSE)?;
        pauses += 1;
    }
    match try_once(alloc, connector, addr)? {
        Ok(connection) => Ok(connection),
        Err(refused) => Err(ClientError::TimedOut(refused)),
    }
}
