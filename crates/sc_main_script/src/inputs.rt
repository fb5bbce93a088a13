//! What comes on each connection.
ghost use Rattle.std.specs.Prelude.{◌≡◌, ◌<◌, [], length, replicate, IfOk, OnOk};
ghost use Rattle.sc_main_script.specs.Inputs.{appended};

use sc_entry::{ByteText, Items, NoMemory};
use std::alloc::Global;
use std::marker::Model;

/// The bytes that come on each connection. Contracts see them as a list.
#[derive(Drop)]
pub struct Inputs {
    texts: Vec<ByteText>,
}

impl Model for Inputs {
    ghost use Rattle.std.specs.Prelude.{List, ℕ};

    ghost Value = { List (List ℕ) };

    ghost view = { λ i. i.texts.items };
}

impl Inputs {
    /// No connections.
    pub fn none(alloc: Global) -> Inputs
        ensures { result ≡ [] }
    {
        Inputs {
            texts: Vec::new(alloc),
        }
    }

    /// So many connections, on which nothing comes yet.
    pub fn new(alloc: Global, connections: u64) -> Result<Inputs, NoMemory>
        ensures { IfOk result (λ i. i ≡ replicate connections []) }
    {
        let mut texts = Vec::new(alloc);
        for _ in 0..connections {
            texts.push(ByteText::new(alloc))?;
        }
        Ok(Inputs { texts })
    }

    /// How many connections there are.
    pub fn len(&self) -> usize
        ensures { result ≡ length self.now }
    {
        self.texts.len()
    }

    /// Appends bytes to what comes on a connection.
    pub fn append(&mut self, connection: usize, bytes: &[u8]) -> Result<(), NoMemory>
        requires { connection < length self.old }
        ensures { OnOk result (self.new ≡ appended self.old connection bytes.now) }
    {
        self.texts[connection].append(bytes)?;
        Ok(())
    }

    /// The bytes of each connection.
    pub fn into_items(self) -> Items<ByteText>
        ensures { result ≡ self }
    {
        Items::from_vec(self.texts)
    }
}
