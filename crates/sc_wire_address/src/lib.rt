//! Addresses at which a server listens: of the network, a path of a Unix socket, or an abstract name of one.
#![tactic(auto)]

mod address_error;
mod escapes;
mod laws;
mod socket_addr;

pub use address_error::AddressError;
pub use laws::addresses_are_read_again;
pub use socket_addr::{DEFAULT_PORT, NetAddr, SocketAddr};
