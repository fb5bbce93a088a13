ghost use Rattle.std.specs.Prelude.{◌≡◌};

use sc_command::{CommandFault, CommandRefusal};

/// A refusal of a command or a child of the system that no creator has booked yet.
#[derive(Debug, Drop)]
pub struct ProcessFault {
    refusal: CommandRefusal,
}

impl CommandFault for ProcessFault {
    ghost refusal = { λ fault. fault.refusal };
}

impl ProcessFault {
    /// Of a command or child that refuses.
    pub(crate) fn new(refusal: CommandRefusal) -> ProcessFault
        ensures { result.refusal ≡ refusal }
    {
        ProcessFault { refusal }
    }

    /// Why it refused, for the creator that books it.
    pub(crate) fn into_refusal(self) -> CommandRefusal
        ensures { result ≡ self.refusal }
    {
        self.refusal
    }
}
