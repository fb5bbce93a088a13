use sc_entry::ByteText;

/// What a step of reading did at a connection.
#[derive(Drop)]
pub enum Reading {
    Nothing,
    /// These bytes were taken.
    Taken(ByteText),
    /// No more bytes come.
    Closed,
}
