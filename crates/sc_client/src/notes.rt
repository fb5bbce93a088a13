//! Notifications that were written before, and a later text without them.
ghost use Rattle.std.specs.Prelude.{◌≡◌, ◌<◌, ◌≤◌, ◌++◌, ◌∷◌, List, ℕ, IfOk, OnOk, length};
ghost use Rattle.sc_client.specs.Notes.{bare, before_feed, is_among, kept_of, lines_of, place_among, without, without_notes};

use sc_entry::{ByteText, Items, NoMemory};
use std::alloc::Global;

/// How many bytes stand before the first line feed; all of them where there is none.
fn before_feed(text: &[u8]) -> usize
    ensures value { result ≡ before_feed text.now }
    ensures within { result ≤ length text.now }
{
    let mut count = 0;
    let mut left = text;
    while let [byte, rest @ ..] = left {
        if *byte == b'\n' {
            return count;
        }
        count += 1;
        left = rest;
    }
    count
}

/// The first line, with its line feed, and what stands behind it.
fn split_line(text: &[u8]) -> (&[u8], &[u8])
    requires { 0 < length text.now }
    ensures lines { lines_of text.now ≡ result.0.now ∷ lines_of result.1.now }
    ensures shorter { length result.1.now < length text.now }
{
    let place = before_feed(text);
    if place < text.len() {
        return text.split_at(place + 1);
    }
    text.split_at(place)
}

/// A line without its line feed.
fn bare(line: &[u8]) -> &[u8]
    ensures { result.now ≡ bare line.now }
{
    let place = before_feed(line);
    &line[..place]
}

/// The place of the first notification that is this line; their number where there is none.
fn place_of(notes: &[ByteText], line: &[u8]) -> usize
    ensures value { result ≡ place_among line.now notes.now }
    ensures within { result ≤ length notes.now }
{
    let mut count = 0;
    let mut left = notes;
    while let [note, rest @ ..] = left {
        if note.as_slice() == line {
            return count;
        }
        count += 1;
        left = rest;
    }
    count
}

/// Takes the first notification that is this line, and says whether there was one.
fn take_note(notes: &mut Vec<ByteText>, line: &[u8]) -> bool
    ensures taken { result ≡ is_among line.now notes.old.items }
    ensures left { notes.new.items ≡ without line.now notes.old.items }
{
    let place = place_of(notes.as_slice(), line);
    if place < notes.len() {
        drop(notes.remove(place));
        return true;
    }
    false
}

/// Keeps a line, unless it is one of the notifications, which goes then.
fn keep_line(kept: &mut ByteText, notes: &mut Vec<ByteText>, line: &[u8]) -> Result<(), NoMemory>
    ensures { OnOk result ((ls : List (List ℕ)) → kept.new ++ kept_of notes.new.items ls ≡ kept.old ++ kept_of notes.old.items (line.now ∷ ls)) }
{
    if take_note(notes, bare(line)) {
        return Ok(());
    }
    kept.append(line)?;
    Ok(())
}

/// What is left of a text, once for each notification the first line equal to it went, with its line feed.
pub(crate) fn without_notes(
    alloc: Global,
    notes: Items<ByteText>,
    text: ByteText,
) -> Result<ByteText, NoMemory>
    ensures { IfOk result (λ kept. kept ≡ without_notes notes text) }
{
    if notes.is_empty() {
        return Ok(text);
    }
    let mut notes = notes.into_vec();
    let mut kept = ByteText::new(alloc);
    let mut left = text.as_slice();
    while !left.is_empty() {
        let (line, rest) = split_line(left);
        keep_line(&mut kept, &mut notes, line)?;
        left = rest;
    }
    Ok(kept)
}
