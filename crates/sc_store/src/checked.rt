use sc_entry::CacheMode;
use sc_model::Cause;

/// What the check of a store finds.
#[derive(Clone, Copy)]
pub enum Checked {
    /// Whether it can be written, or only read.
    Mode(CacheMode),
    /// It can't be read.
    Refused(Cause),
}
