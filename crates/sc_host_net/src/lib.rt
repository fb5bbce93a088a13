//! The edge to the outside: TCP and Unix sockets of the host behind the traits of links. They tell nothing, and count each
//! refusal. No socket is handed on to a child, and a peer that is gone is a fault of its link and no signal.
#![tactic(auto)]

mod host_acceptor;
mod host_acceptor_maker;
mod host_connector;
mod host_link;
mod listening;
mod streams;
mod unix_paths;

pub use host_acceptor::HostAcceptor;
pub use host_acceptor_maker::HostAcceptorMaker;
pub use host_connector::HostConnector;
pub use host_link::HostLink;
