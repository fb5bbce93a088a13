//! Requests that have one kind of reply.
ghost use Rattle.std.specs.Prelude.{◌≡◌, ◌≤◌};
ghost use Rattle.sc_model.specs.declared.message.Request.TheVariants as requests;
ghost use Rattle.sc_client.specs.Asking.{Asked, AsksStatistics, dist_status_of, mode_of, read_as, shutting_down_of, stats_of, zeroed_of};

use crate::client_error::ClientError;
use crate::connection::ServerConnection;
use sc_entry::CacheMode;
use sc_link::Link;
use sc_model::{Request, Response};
use sc_stats::{DistInfo, ServerInfo};

/// A server's statistics.
#[derive(Drop)]
pub struct Statistics {
    pub info: ServerInfo,
    /// Whether the server's store is written to, as its handshake says.
    pub mode: CacheMode,
}

/// Asks a server to empty its counters. Any other reply is `Unexpected`.
pub fn request_zero_stats<K: Link + Drop>(
    connection: &mut ServerConnection<K>,
) -> Result<(), ClientError>
    ensures asked { Asked requests.ZeroStats (read_as zeroed_of) connection.old result connection.new }
    ensures later { connection.old.faults ≤ connection.new.faults }
{
    match connection.request(&Request::ZeroStats)? {
        Response::ZeroStats => Ok(()),
        reply => Err(ClientError::Unexpected(reply)),
    }
}

/// Asks a server for its distributed client's status. Any other reply is `Unexpected`.
pub fn request_dist_status<K: Link + Drop>(
    connection: &mut ServerConnection<K>,
) -> Result<DistInfo, ClientError>
    ensures asked { Asked requests.DistStatus (read_as dist_status_of) connection.old result connection.new }
    ensures later { connection.old.faults ≤ connection.new.faults }
{
    match connection.request(&Request::DistStatus)? {
        Response::DistStatus(info) => Ok(info),
        reply => Err(ClientError::Unexpected(reply)),
    }
}

/// Asks a server to stop, and answers its statistics at that moment. Any other reply is `Unexpected`.
pub fn request_shutdown<K: Link + Drop>(
    connection: &mut ServerConnection<K>,
) -> Result<ServerInfo, ClientError>
    ensures asked { Asked requests.Shutdown (read_as shutting_down_of) connection.old result connection.new }
    ensures later { connection.old.faults ≤ connection.new.faults }
{
    match connection.request(&Request::Shutdown)? {
        Response::ShuttingDown(info) => Ok(info),
        reply => Err(ClientError::Unexpected(reply)),
    }
}

/// Asks a server for its counters.
fn request_info<K: Link + Drop>(
    connection: &mut ServerConnection<K>,
) -> Result<ServerInfo, ClientError>
    ensures asked { Asked requests.GetStats (read_as stats_of) connection.old result connection.new }
    ensures later { connection.old.faults ≤ connection.new.faults }
{
    match connection.request(&Request::GetStats)? {
        Response::Stats(info) => Ok(info),
        reply => Err(ClientError::Unexpected(reply)),
    }
}

/// Asks a server for its handshake, and answers the mode in it.
fn request_mode<K: Link + Drop>(
    connection: &mut ServerConnection<K>,
) -> Result<CacheMode, ClientError>
    ensures asked { Asked requests.StorageHandshake (read_as mode_of) connection.old result connection.new }
    ensures later { connection.old.faults ≤ connection.new.faults }
{
    match connection.request(&Request::StorageHandshake)? {
        Response::StorageHandshake(info) => Ok(info.cache_mode),
        reply => Err(ClientError::Unexpected(reply)),
    }
}

/// Asks a server for its statistics, and then for the handshake, whose mode goes with them. A reply of another kind is
/// `Unexpected`; where the first is, the handshake isn't asked for.
pub fn request_stats<K: Link + Drop>(
    connection: &mut ServerConnection<K>,
) -> Result<Statistics, ClientError>
    ensures asked { AsksStatistics connection.old result connection.new }
    ensures later { connection.old.faults ≤ connection.new.faults }
{
    let info = request_info(connection)?;
    let mode = request_mode(connection)?;
    Ok(Statistics { info, mode })
}
