//! Paths of both parts of a pair of folders.
ghost use Rattle.std.specs.Prelude.{◌≡◌, IfOk};
ghost use Rattle.std.specs.Option.{option_map};
ghost use Rattle.sc_disk_pair.specs.Parts.{cut_part, in_part, letter_of};

use crate::part::Part;
use sc_entry::{NoMemory, Text};
use std::alloc::Global;

/// The letter that the paths of a part begin with.
fn letter_of(part: Part) -> char
    ensures { result ≡ letter_of part }
{
    match part {
        Part::Main => 'm',
        Part::Pre => 'p',
    }
}

/// The path of a part's file among those of both: the part's letter, `/`, its path in the part.
pub(crate) fn in_part(alloc: Global, part: Part, path: &Text) -> Result<Text, NoMemory>
    ensures { IfOk result (λ both. both ≡ in_part part path.now) }
{
    let letter = letter_of(part);
    let path = path.as_str();
    let both = format!(in alloc; "{letter}/{path}")?;
    Ok(Text::from_string(both))
}

/// The part of a path and what it is in that part, if it has one.
pub(crate) fn cut_part(path: &str) -> Option<(Part, &str)>
    ensures { option_map (λ p. (p.0, p.1.now)) result ≡ cut_part path.now }
{
    let Some((letter, rest)) = path.split_once('/') else {
        return None;
    };
    if letter == "m" {
        return Some((Part::Main, rest));
    }
    if letter == "p" {
        return Some((Part::Pre, rest));
    }
    None
}
