ghost use Rattle.std.specs.Prelude.{◌≡◌, ◌↔◌, ◌⊎◌, [], Some, None, if◌then◌else◌, IsTrue, IsSome, is_some, Contains};
ghost use Rattle.std.specs.Option.{option_or};
ghost use Rattle.sc_server_activity.specs.Waits.{cause_of, has_passed, HasPassed, has_request, has_shutdown};

use crate::messages::Messages;
use crate::server_message::ServerMessage;
use crate::stop_cause::StopCause;

/// Waits until a server is to stop: for a Shutdown, for the closing of its messages, or for an idle time without a Request.
/// Once it is ready it stays so, for the cause that it found first.
#[derive(Debug, Drop)]
pub struct ShutdownOrInactive {
    /// In nanoseconds. An idle time of 0 never passes.
    idle_time: u64,
    /// The moment of the poll that took the last Request; before there was one, that of the making.
    active_at: u64,
    cause: Option<StopCause>,
}

impl ShutdownOrInactive {
    /// Waits from a moment on, for an idle time in nanoseconds. One of 0 never passes.
    pub fn new(idle_time: u64, now: u64) -> ShutdownOrInactive
        ensures idle_time { result.idle_time ≡ idle_time }
        ensures active_at { result.active_at ≡ now }
        ensures cause { result.cause ≡ None }
    {
        ShutdownOrInactive {
            idle_time,
            active_at: now,
            cause: None,
        }
    }

    /// Takes all the messages that stand, and says whether the server is to stop: because an earlier poll said so, or because
    /// this one took a Shutdown, found the messages closed, or the idle time has passed since the poll that took the last
    /// Request (this one, maybe). Of several causes the first of this order is kept.
    pub fn poll(&mut self, messages: &mut Messages, now: u64) -> bool
        ensures ready { IsTrue result ↔ (IsSome self.old.cause ⊎ (Contains messages.old.standing ServerMessage.Shutdown ⊎ (IsTrue messages.old.is_closed ⊎ HasPassed self.old.idle_time self.new.active_at now))) }
        ensures kept { result ≡ is_some self.new.cause }
        ensures cause { self.new.cause ≡ option_or self.old.cause (cause_of (has_shutdown messages.old.standing) messages.old.is_closed (has_passed self.old.idle_time self.new.active_at now)) }
        ensures active_at { self.new.active_at ≡ (if has_request messages.old.standing then now else self.old.active_at) }
        ensures idle_time { self.new.idle_time ≡ self.old.idle_time }
        ensures taken { messages.new ≡ record messages.old { standing = [] } }
    {
        let taken = messages.take_all();
        if took_request(taken.as_slice()) {
            self.active_at = now;
        }
        let found = first_cause(
            took_shutdown(taken.as_slice()),
            messages.is_closed(),
            self.has_idled(now),
        );
        self.cause = self.cause.or(found);
        self.cause.is_some()
    }

    /// Whether the idle time has passed since the server was active last. The time since a moment that isn't earlier is 0.
    fn has_idled(&self, now: u64) -> bool
        ensures { result ≡ has_passed self.now.idle_time self.now.active_at now }
    {
        self.idle_time > 0 && self.idle_time <= now.saturating_sub(self.active_at)
    }

    /// Why the server is to stop, once a poll said so.
    pub fn cause(&self) -> Option<StopCause>
        ensures { result ≡ self.now.cause }
    {
        self.cause
    }
}

fn took_request(taken: &[ServerMessage]) -> bool
    ensures { result ≡ has_request taken.now }
{
    taken
        .iter()
        .any(|message| matches!(message, ServerMessage::Request))
}

fn took_shutdown(taken: &[ServerMessage]) -> bool
    ensures { result ≡ has_shutdown taken.now }
{
    taken
        .iter()
        .any(|message| matches!(message, ServerMessage::Shutdown))
}

/// The first cause that holds.
fn first_cause(took_shutdown: bool, is_closed: bool, has_idled: bool) -> Option<StopCause>
    ensures { result ≡ cause_of took_shutdown is_closed has_idled }
{
    if took_shutdown {
        Some(StopCause::Shutdown)
    } else if is_closed {
        Some(StopCause::Closed)
    } else if has_idled {
        Some(StopCause::Idle)
    } else {
        None
    }
}
