ghost use Rattle.std.specs.Prelude.{◌≡◌, ◌<◌, [], Some, OnOk, OnErr, length, slice_get};
ghost use Rattle.sc_command.specs.Variables.{set_variable, set_variables, SetsFirstOf};

use indexmap::IndexMap;
use sc_entry::{ByteText, NoMemory};
use std::alloc::Global;
use std::marker::Model;

/// Variables of an environment, each name once. Contracts see the list of names with their values.
#[derive(Drop)]
pub struct Variables {
    by_name: IndexMap<Vec<u8>, ByteText>,
}

impl Model for Variables {
    ghost use Rattle.std.specs.Prelude.{List, ℕ};
    ghost use Rattle.sc_command.specs.Variables.{named};

    ghost Value = { List (List ℕ × List ℕ) };

    ghost view = { λ v. named v.by_name.entries };
}

impl Variables {
    /// No variables.
    pub fn new(alloc: Global) -> Variables
        ensures { result ≡ [] }
    {
        Variables {
            by_name: IndexMap::new(alloc),
        }
    }

    pub fn len(&self) -> usize
        ensures { result ≡ length self.now }
    {
        self.by_name.len()
    }

    /// The variable at a place: its name and its value.
    pub fn pair_at(&self, place: usize) -> (&[u8], &[u8])
        requires { place < length self.now }
        ensures { slice_get self.now place ≡ Some (result.0.now, result.1.now) }
    {
        let (name, value) = self.by_name.get_index(place).unwrap();
        (name.as_slice(), value.as_slice())
    }

    /// Sets a variable. A name that is there keeps its place, another goes last.
    pub fn set(&mut self, name: &ByteText, value: &ByteText) -> Result<(), NoMemory>
        ensures ok { OnOk result (self.new ≡ set_variable self.old name.now value.now) }
        ensures err { OnErr result (self.new ≡ self.old) }
    {
        let value = value.try_clone()?;
        let name = name.try_clone()?.into_vec();
        self.by_name.insert(name, value)?;
        Ok(())
    }

    /// Sets variables, one after the other. Where memory runs out, the first of them may be set.
    pub fn set_all(&mut self, variables: &[(ByteText, ByteText)]) -> Result<(), NoMemory>
        ensures ok { OnOk result (self.new ≡ set_variables self.old variables.now) }
        ensures err { OnErr result (SetsFirstOf variables.now self.old self.new) }
    {
        for variable in variables {
            self.set(&variable.0, &variable.1)?;
        }
        Ok(())
    }

    /// Forgets all variables.
    pub fn clear(&mut self)
        ensures { self.new ≡ [] }
    {
        self.by_name.clear();
    }
}
