//! What the program is to do.

use sc_entry::{ByteText, Items};
use sc_wire_address::SocketAddr;

/// What the program is to do, with the words of its command as they were read.
#[derive(Debug, Drop)]
pub enum Command {
    /// Reads a script, drives a daemon by it, and reports.
    Drive,
    /// Drives a daemon by the script of a number, 1 to 2,000, and reports from its first level on.
    Generate(u64),
    /// Serves clients by one store on disk.
    Serve {
        /// Where clients connect.
        addr: SocketAddr,
        /// The folder of the store: any bytes.
        dir: ByteText,
        /// The most bytes that the store keeps.
        bytes: u64,
        /// How many compilers may run at once: 1 to 65,535.
        tokens: u64,
    },
    /// Has a server compile.
    Compile {
        /// Where the server listens.
        addr: SocketAddr,
        /// The compiler, by name or path: any bytes.
        exe: ByteText,
        /// The compiler's words, which may be none: any bytes.
        words: Items<ByteText>,
    },
    /// Prints a server's statistics.
    Stats {
        /// Where the server listens.
        addr: SocketAddr,
        /// Whether counts are told by compiler too.
        advanced: bool,
        /// Whether they are printed as JSON.
        json: bool,
    },
    /// Sets a server's statistics to zero.
    Zero {
        /// Where the server listens.
        addr: SocketAddr,
    },
    /// Stops a server.
    Stop {
        /// Where the server listens.
        addr: SocketAddr,
    },
    /// Prints where a server's distributed compilation stands.
    DistStatus {
        /// Where the server listens.
        addr: SocketAddr,
    },
    /// Reads two stores and a list of keys, copies the keys' entries from one store into the other, and reports.
    Warm,
    /// Reads uses of a cache, and reports what they find at each of these capacities in bytes: a line each, in this order.
    Dry(Items<u64>),
    /// Prints the usage and what each command does.
    Help,
    /// Prints the program's version.
    Version,
}
