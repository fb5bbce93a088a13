use sc_entry::{ByteText, Text};

/// What one call of a disk did to its files.
#[derive(Debug, Drop)]
pub enum Change {
    /// An empty file of this moment stands at the path, in place of any that stood there.
    Made(Text, u64),
    /// The bytes stand at the end of the path's file.
    Added(Text, ByteText),
    /// The path's file has this moment.
    Touched(Text, u64),
    /// The first path's file stands at the second, in place of any that stood there.
    Moved(Text, Text),
    /// No file stands at the path.
    Gone(Text),
}
