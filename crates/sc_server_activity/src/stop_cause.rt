/// Why a server stops.
#[derive(Clone, Copy, Debug, Drop, PartialEq, Eq)]
pub enum StopCause {
    /// A request to shut down came.
    Shutdown,
    /// Its messages were closed: no service is there that could tell it of a request.
    Closed,
    /// No request came for its idle time.
    Idle,
}
