//! How the serving of a link ended.
use sc_wire_conn::End;

/// How the serving of a link ended.
#[derive(Clone, Copy, Drop)]
pub enum LinkEnd {
    /// Nothing more comes over it, or nothing more is read of it. All that was due was written.
    Over(End),
    /// The server is to stop, so nothing more was read of it. All that was due was written.
    Stopped,
    /// Memory ran out for this link alone.
    NoMemory,
    /// The link refused a read; it counted this. All that was due was written.
    ReadFault,
    /// The link refused a write; it counted this. Nothing more was written or read.
    WriteFault,
}
