//! How a connection ends.

/// What a connection has come to.
#[derive(Clone, Copy, Drop)]
pub enum End {
    /// More bytes may come.
    Open,
    /// It ended behind a whole frame.
    Ended,
    /// It ended within a frame.
    EndInFrame,
    /// A frame's length is over the limit, or its payload spells no request.
    BadFrame,
    /// A reply's payload has so many bytes, more than the limit.
    ReplyTooLong(u64),
}
