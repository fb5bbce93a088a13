//! Why words could not be read.

ghost use Rattle.std.specs.Prelude.{◌≡◌};
ghost use Rattle.sc_words.specs.declared.words_error.WordsError.TheVariants.{NoMemory as OutOfMemory};

use sc_entry::NoMemory;
use std::alloc::{AllocError, AllocFailed};

/// Why words could not be read.
#[derive(Clone, Copy, Debug, Drop, PartialEq, Eq)]
pub enum WordsError {
    /// Memory ran out, which says nothing of the words.
    NoMemory,
    /// The words are not such as are read there.
    Malformed,
}

impl From<NoMemory> for WordsError {
    ghost from_gives = { λ _ e. e ≡ OutOfMemory };

    fn from(_: NoMemory) -> WordsError {
        WordsError::NoMemory
    }
}

impl From<AllocError> for WordsError {
    ghost from_gives = { λ _ e. e ≡ OutOfMemory };

    fn from(_: AllocError) -> WordsError {
        WordsError::NoMemory
    }
}

impl<T: Drop> From<AllocFailed<T>> for WordsError {
    ghost from_gives = { λ _ e. e ≡ OutOfMemory };

    fn from(_: AllocFailed<T>) -> WordsError {
        WordsError::NoMemory
    }
}
