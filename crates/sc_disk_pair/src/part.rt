/// One of the two folders of a pair.
#[derive(Clone, Copy, Debug, Drop, PartialEq, Eq)]
pub enum Part {
    /// The folder of entries.
    Main,
    /// The folder of preprocessor entries.
    Pre,
}
