//! Why words are read as no command.

/// Why words are read as no command.
#[derive(Clone, Copy, Debug, Drop, PartialEq, Eq)]
pub enum WordsRefusal {
    /// The words are no command.
    Usage,
    /// Memory ran out, which says nothing of the words.
    NoMemory,
}
