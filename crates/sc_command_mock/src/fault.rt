ghost use Rattle.std.specs.Prelude.{◌≡◌};

use sc_command::{CommandFault, CommandRefusal};

/// A refusal of a mock that no creator has booked yet.
#[derive(Debug, Drop)]
pub struct Refused {
    refusal: CommandRefusal,
}

impl CommandFault for Refused {
    ghost refusal = { λ fault. fault.refusal };
}

impl Refused {
    /// Of a command or child that refuses.
    pub(crate) fn new(refusal: CommandRefusal) -> Refused
        ensures { result.refusal ≡ refusal }
    {
        Refused { refusal }
    }

    /// Why it refused, for the creator that books it.
    pub(crate) fn into_refusal(self) -> CommandRefusal
        ensures { result ≡ self.refusal }
    {
        self.refusal
    }
}
