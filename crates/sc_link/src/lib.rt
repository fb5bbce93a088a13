//! Links between a client and a server: how one is made, what comes on it, and what is written to it.
#![tactic(auto)]

mod acceptor;
mod acceptor_maker;
mod addresses;
mod connector;
mod link;
mod link_error;
mod mem_acceptor;
mod mem_acceptor_maker;
mod mem_connector;
mod mem_link;

pub use acceptor::{Accepted, Acceptor};
pub use acceptor_maker::AcceptorMaker;
pub use addresses::is_abstract;
pub use connector::{Connector, connect};
pub use link::{Link, Link as Connection, send_all};
pub use link_error::{AcceptFault, ConnectError, ListenError};
pub use mem_acceptor::MemAcceptor;
pub use mem_acceptor_maker::{MemAcceptorMaker, MemListening};
pub use mem_connector::MemConnector;
pub use mem_link::MemLink;
