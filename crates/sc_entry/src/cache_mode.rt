/// What a store may be used for.
#[derive(Clone, Copy, PartialEq, Eq)]
pub enum CacheMode {
    /// It is looked up, and refuses each put.
    ReadOnly,
    ReadWrite,
}
