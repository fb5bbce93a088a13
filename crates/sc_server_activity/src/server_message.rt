/// What a service tells its server.
#[derive(Clone, Copy, Debug, Drop, PartialEq, Eq)]
pub enum ServerMessage {
    /// A request came.
    Request,
    /// A request to shut down came.
    Shutdown,
}
