ghost use Rattle.std.specs.Prelude.{◌≡◌, ◌++◌, ◌∷◌, [], true, false, OnOk, OnErr};

use crate::server_message::ServerMessage;
use sc_entry::{Items, NoMemory};
use std::alloc::Global;
use std::mem;

/// The messages of services to their server: those that stand, in the order in which they came, and whether the services
/// closed them.
#[derive(Drop)]
pub struct Messages {
    alloc: Global,
    standing: Items<ServerMessage>,
    is_closed: bool,
}

impl Messages {
    /// No message stands, and they aren't closed.
    pub fn new(alloc: Global) -> Messages
        ensures standing { result.standing ≡ [] }
        ensures closed { result.is_closed ≡ false }
    {
        Messages {
            alloc,
            standing: Items::new(alloc),
            is_closed: false,
        }
    }

    /// Adds a message behind those that stand. No message is lost: one that comes after the closing stands too.
    pub fn push(&mut self, message: ServerMessage) -> Result<(), NoMemory>
        ensures ok { OnOk result (self.new ≡ record self.old { standing = self.old.standing ++ message ∷ [] }) }
        ensures err { OnErr result (self.new ≡ self.old) }
    {
        self.standing.push(message)
    }

    /// Says that no service is left. What stands stays, and closed messages stay closed.
    pub fn close(&mut self)
        ensures { self.new ≡ record self.old { is_closed = true } }
    {
        self.is_closed = true;
    }

    pub fn is_closed(&self) -> bool
        ensures { result ≡ self.now.is_closed }
    {
        self.is_closed
    }

    /// Takes all the messages that stand.
    pub fn take_all(&mut self) -> Items<ServerMessage>
        ensures taken { result ≡ self.old.standing }
        ensures left { self.new ≡ record self.old { standing = [] } }
    {
        mem::replace(&mut self.standing, Items::new(self.alloc))
    }
}
