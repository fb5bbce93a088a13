ghost use Rattle.std.specs.Prelude.{◌≡◌};
ghost use Rattle.sc_main_outside.specs.declared.make_error.MakeError.TheVariants as make_errors;

use sc_entry::NoMemory;

/// Why a part isn't made.
#[derive(Clone, Copy, Debug, Drop, PartialEq, Eq)]
pub enum MakeError {
    NoMemory,
    /// What is outside refused it, and counted that.
    MakeFault,
}

impl From<NoMemory> for MakeError {
    ghost from_gives = { λ _ error. error ≡ make_errors.NoMemory };

    fn from(_: NoMemory) -> MakeError {
        MakeError::NoMemory
    }
}
