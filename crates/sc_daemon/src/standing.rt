//! What can be done at a phase.
ghost use Rattle.std.specs.Prelude.{◌≡◌};
ghost use Rattle.sc_daemon.specs.Standings.{standing_of};

use sc_model::Phase;

/// Whether a request at a phase can be gone on with.
#[derive(Clone, Copy)]
pub enum Standing {
    /// An action is due.
    Goes,
    /// It takes a token, and waits where none is free.
    Takes,
    /// A reply was too long: nothing more comes.
    Ended,
    /// It is over.
    Over,
}

pub fn standing_at(phase: &Phase) -> Standing
    ensures { result ≡ standing_of phase.now }
{
    match phase {
        Phase::AtBegin => Standing::Goes,
        Phase::AtSend(_) => Standing::Goes,
        Phase::AtStarted(_) => Standing::Goes,
        Phase::AtKey(_, _) => Standing::Goes,
        Phase::AtAsk(_, _) => Standing::Goes,
        Phase::AtPlace(_, _, _) => Standing::Goes,
        Phase::AtDist(_) => Standing::Goes,
        Phase::AtTake(_) => Standing::Takes,
        Phase::AtRun(_) => Standing::Goes,
        Phase::AtEnd(_, _, _) => Standing::Goes,
        Phase::AtStore(_, _, _, _) => Standing::Goes,
        Phase::AtWrite(_, _, _, _) => Standing::Goes,
        Phase::AtFill(_, _, _, _, _) => Standing::Goes,
        Phase::AtCommit(_, _, _, _, _) => Standing::Goes,
        Phase::AtFinish(_, _) => Standing::Goes,
        Phase::RawAsk(_, _) => Standing::Goes,
        Phase::PathAsk(_) => Standing::Goes,
        Phase::PreAsk(_, _) => Standing::Goes,
        Phase::PrePut(_, _, _) => Standing::Goes,
        Phase::SizeAsk(_, _, _) => Standing::Goes,
        Phase::AtEnded(_) => Standing::Ended,
        Phase::AtOver => Standing::Over,
    }
}
