ghost use Rattle.sc_command.specs.declared.refusal.CommandRefusal.{CommandRefusal};

/// That a command or a child refused. Only the command or the child makes one; the creator that books it tells why.
pub trait CommandFault {
    /// Why it refused.
    ghost refusal: { Self → CommandRefusal };
}
