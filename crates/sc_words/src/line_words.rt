//! The words of a line, taken one after another.

ghost use Rattle.std.specs.Prelude.{◌≡◌};
ghost use Rattle.std.specs.Option.{option_copied};
ghost use Rattle.sc_words.specs.Words.{Pops, ReadsBy, word};
ghost use Rattle.sc_words.specs.Lines.{words_of};

use crate::cutting::cut;
use crate::words_error::WordsError;
use std::marker::Model;

/// The words that are left of a line. Contracts see them as a list. Nothing is copied.
#[derive(Drop)]
pub struct LineWords<'a> {
    left: Option<&'a [u8]>,
}

impl<'a> Model for LineWords<'a> {
    ghost use Rattle.std.specs.Prelude.{List, ℕ};
    ghost use Rattle.std.specs.Option.{option_copied};
    ghost use Rattle.sc_words.specs.Lines.{words_left};

    ghost Value = { List (List ℕ) };

    ghost view = { λ w. words_left (option_copied w.left) };
}

impl<'a> LineWords<'a> {
    /// The words of a line, which are parted by one space.
    pub fn new(line: &'a [u8]) -> LineWords<'a>
        ensures { result ≡ words_of line.now }
    {
        LineWords { left: Some(line) }
    }

    /// Takes the next word.
    pub fn next(&mut self) -> Option<&'a [u8]>
        ensures { Pops self.old (option_copied result) self.new }
    {
        let line = self.left?;
        match cut(line, b' ') {
            None => {
                self.left = None;
                Some(line)
            }
            Some((word, rest)) => {
                self.left = Some(rest);
                Some(word)
            }
        }
    }

    /// Takes the next word, of which there must be one.
    ///
    /// # Errors
    ///
    /// `Malformed` where no word is left.
    pub fn word(&mut self) -> Result<&'a [u8], WordsError>
        ensures { ReadsBy (λ w. w.now) (word self.old) result self.new }
    {
        match self.next() {
            None => Err(WordsError::Malformed),
            Some(word) => Ok(word),
        }
    }
}
