//! What a script says of each level.
ghost use Rattle.std.specs.Prelude.{◌≡◌, ◌<◌, ◌++◌, ◌∷◌, [], length, OnOk};
ghost use Rattle.sc_main_script.specs.Levels.{changed, with_call, with_key};

use crate::level_rule::LevelRule;
use sc_entry::{ByteText, Items, NoMemory, Text};
use std::alloc::Global;
use std::marker::Model;

/// What a script says of each level, in their order. Contracts see it as a list.
#[derive(Drop)]
pub struct LevelRules {
    rules: Vec<LevelRule>,
}

impl Model for LevelRules {
    ghost use Rattle.std.specs.Prelude.{List};
    ghost use Rattle.sc_main_script.specs.declared.level_rule.LevelRule.{LevelRule};

    ghost Value = { List LevelRule };

    ghost view = { λ r. r.rules.items };
}

impl LevelRules {
    /// No levels.
    pub fn none(alloc: Global) -> LevelRules
        ensures { result ≡ [] }
    {
        LevelRules {
            rules: Vec::new(alloc),
        }
    }

    /// How many levels there are.
    pub fn len(&self) -> usize
        ensures { result ≡ length self.now }
    {
        self.rules.len()
    }

    pub fn push(&mut self, rule: LevelRule) -> Result<(), NoMemory>
        ensures { OnOk result (self.new ≡ self.old ++ rule ∷ []) }
    {
        self.rules.push(rule)?;
        Ok(())
    }

    /// Adds a key that a level holds at the start.
    pub fn hold(&mut self, level: usize, key: Text, bytes: ByteText) -> Result<(), NoMemory>
        requires { level < length self.old }
        ensures { OnOk result (self.new ≡ changed self.old level (with_key key bytes)) }
    {
        let rule = &mut self.rules[level];
        rule.holds.push((key, bytes))?;
        Ok(())
    }

    /// Adds a call on a level's device that fails.
    pub fn fail(&mut self, level: usize, call: u64) -> Result<(), NoMemory>
        requires { level < length self.old }
        ensures { OnOk result (self.new ≡ changed self.old level (with_call call)) }
    {
        let rule = &mut self.rules[level];
        rule.fails.push(call)?;
        Ok(())
    }

    /// What is said of each level.
    pub fn into_items(self) -> Items<LevelRule>
        ensures { result ≡ self }
    {
        Items::from_vec(self.rules)
    }
}
