//! The words of a list, taken one after another.

ghost use Rattle.std.specs.Prelude.{◌≡◌};
ghost use Rattle.std.specs.Option.{option_copied};
ghost use Rattle.sc_words.specs.Words.{Pops, ReadsBy, flag, word};

use crate::words_error::WordsError;
use sc_entry::ByteText;
use std::marker::Model;

/// The words that are left of a list. Contracts see them as a list. Nothing is copied.
#[derive(Drop)]
pub struct Words<'a> {
    left: &'a [ByteText],
}

impl<'a> Model for Words<'a> {
    ghost use Rattle.std.specs.Prelude.{List, ℕ};

    ghost Value = { List (List ℕ) };

    ghost view = { λ w. w.left.now };
}

impl<'a> Words<'a> {
    /// All these words.
    pub fn new(words: &'a [ByteText]) -> Words<'a>
        ensures { result ≡ words.now }
    {
        Words { left: words }
    }

    /// All words that are left.
    pub fn rest(&self) -> &'a [ByteText]
        ensures { result.now ≡ self.now }
    {
        self.left
    }

    /// Takes the next word.
    pub fn next(&mut self) -> Option<&'a ByteText>
        ensures { Pops self.old (option_copied result) self.new }
    {
        match self.left {
            [] => None,
            [word, rest @ ..] => {
                self.left = rest;
                Some(word)
            }
        }
    }

    /// Takes the next word, where it is this one, and says whether it was.
    pub fn take(&mut self, name: &[u8]) -> bool
        ensures taken { result ≡ (flag name.now self.old).0 }
        ensures left { self.new ≡ (flag name.now self.old).1 }
    {
        let [word, rest @ ..] = self.left else {
            return false;
        };
        if word.as_slice() != name {
            return false;
        }
        self.left = rest;
        true
    }

    /// Takes the next word, of which there must be one.
    ///
    /// # Errors
    ///
    /// `Malformed` where no word is left.
    pub fn word(&mut self) -> Result<&'a ByteText, WordsError>
        ensures { ReadsBy (λ w. w.now) (word self.old) result self.new }
    {
        match self.next() {
            None => Err(WordsError::Malformed),
            Some(word) => Ok(word),
        }
    }
}
