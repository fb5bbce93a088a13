//! A script of warm that is read line by line, and where its lines may stand.
ghost use Rattle.std.specs.Prelude.{◌≡◌};
ghost use Rattle.sc_main_warm.specs.Drafts.{Answers, finished, has_both, is_between, key_of_words, may_stand, no_lines, with_key, with_line};
ghost use Rattle.sc_words.specs.Words.{Leaves, Means};

use crate::warm_script::WarmScript;
use sc_entry::{Items, Text};
use sc_main_script::{Draft, Line, ScriptError};
use sc_main_script_words::text_token;
use sc_words::{LineWords, WordsError};
use std::alloc::Global;

/// The key that the words behind a line's first are.
#[tactic(auto, unfolding(crate::specs::Drafts::key_of_words))]
fn key_at(alloc: Global, words: &mut LineWords<'_>) -> Result<Text, WordsError>
    ensures { Means (key_of_words words.old) result }
{
    let key = text_token(alloc, words.word()?)?;
    match words.next() {
        None => Ok(key),
        Some(_) => Err(WordsError::Malformed),
    }
}

/// What the lines so far say.
#[derive(Drop)]
pub struct WarmDraft {
    /// What those say that any script may have.
    pub script: Draft,
    /// The keys that are listed.
    pub keys: Items<Text>,
}

impl WarmDraft {
    /// Before the first line.
    pub fn new(alloc: Global) -> WarmDraft
        ensures { result ≡ no_lines }
    {
        WarmDraft {
            script: Draft::new(alloc),
            keys: Items::new(alloc),
        }
    }

    /// Whether both levels are there.
    fn has_both(&self) -> bool
        ensures { result ≡ has_both self.now }
    {
        self.script.levels.len() == 2
    }

    /// Whether both levels are there, and no key.
    fn is_between(&self) -> bool
        ensures { result ≡ is_between self.now }
    {
        self.has_both() && self.keys.len() == 0
    }

    fn may_stand(&self, line: &Line) -> bool
        ensures { result ≡ may_stand self.now line.now }
    {
        match line {
            Line::Version => true,
            Line::Level(_) => self.script.levels.len() < 2,
            Line::Hold(_) | Line::Fail { .. } => self.is_between(),
            _ => false,
        }
    }

    /// Adds a line that any script may have, where it may stand here.
    #[tactic(auto, unfolding(crate::specs::Drafts::with_line))]
    pub fn add_line(&mut self, alloc: Global, line: Line) -> Result<(), WordsError>
        ensures { Leaves (with_line self.old line) result self.new }
    {
        if !self.may_stand(&line) {
            return Err(WordsError::Malformed);
        }
        self.script.add(alloc, line)?;
        Ok(())
    }

    /// Adds the key that the words behind a line's first are.
    #[tactic(auto, unfolding(crate::specs::Drafts::with_key))]
    pub fn add_key(&mut self, alloc: Global, words: &mut LineWords<'_>) -> Result<(), WordsError>
        ensures { Leaves (with_key self.old words.old) result self.new }
    {
        if !self.has_both() {
            return Err(WordsError::Malformed);
        }
        let key = key_at(alloc, words)?;
        self.keys.push(key)?;
        Ok(())
    }

    /// The script that the lines so far are, where `number` counts the line behind the last.
    pub fn finish(self, number: u64) -> Result<WarmScript, ScriptError>
        ensures { Answers (finished number self) result }
    {
        let WarmDraft { script, keys } = self;
        let mut levels = script.levels.into_items().into_vec().into_iter();
        let Some(from) = levels.next() else {
            return Err(ScriptError::Bad(number));
        };
        let Some(to) = levels.next() else {
            return Err(ScriptError::Bad(number));
        };
        if levels.next().is_some() {
            return Err(ScriptError::Bad(number));
        }
        Ok(WarmScript { from, to, keys })
    }
}
