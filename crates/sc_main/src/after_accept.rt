//! When an acceptor is to be asked again.

/// When an acceptor is to be asked again.
#[derive(Clone, Copy, Drop)]
pub enum AfterAccept {
    /// A link was served.
    Now,
    /// No client waited.
    Later,
    /// No link will be given any more.
    Never,
}
