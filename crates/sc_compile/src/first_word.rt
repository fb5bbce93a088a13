//! The first word of a compile.

/// What the first word says of a compile.
#[derive(Clone, Copy)]
pub enum FirstWord {
    /// A key follows, and arguments.
    Key,
    /// It can't be cached.
    Cannot,
    /// It is no compile.
    Other,
}
