ghost use Rattle.sc_host_folders.specs.declared.folder_error.FolderError.TheVariants as folder_errors;
ghost use Rattle.std.specs.Prelude.{◌≡◌};

use sc_entry::NoMemory;

/// Why a store has no folders.
#[derive(Clone, Copy, Debug, Drop, PartialEq, Eq)]
pub enum FolderError {
    NoMemory,
    /// One of them can't be made, or its path isn't UTF-8.
    NotMade,
}

impl From<NoMemory> for FolderError {
    ghost from_gives = { λ _ error. error ≡ folder_errors.NoMemory };

    fn from(_: NoMemory) -> FolderError {
        FolderError::NoMemory
    }
}
