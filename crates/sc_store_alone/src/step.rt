//! How a check of levels goes on.
use sc_entry::CacheMode;
use sc_model::Cause;

/// How a check of levels goes on after one of them.
#[derive(Clone, Copy)]
pub enum Step {
    /// With the mode that was found so far.
    Goes(CacheMode),
    /// Not at all: a level that has to be written refused.
    Ends(Cause),
}
