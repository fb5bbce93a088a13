//! The client: a connection to a server, the requests that go over it, and a compile by it, which is done here where the server
//! doesn't do it.
#![tactic(auto)]

mod asking;
mod client_error;
mod compiling;
mod connecting;
mod connection;
mod deciding;
mod escapes;
mod escapes_laws;
mod finding;
mod finished;
mod local;
mod notes;
mod outlet;
mod replies;
mod request_error;
mod talking;

pub use asking::{
    Statistics, request_dist_status, request_shutdown, request_stats, request_zero_stats,
};
pub use client_error::ClientError;
pub use compiling::do_compile;
pub use connecting::{connect_to_server, connect_with_retry};
pub use connection::ServerConnection;
pub use escapes::filter_escapes;
pub use escapes_laws::{plain_bytes_stay, sequences_go};
pub use finding::which_in;
pub use finished::handle_compile_finished;
pub use outlet::{Outlet, Outlets};
pub use request_error::{Refusal, RequestError};
