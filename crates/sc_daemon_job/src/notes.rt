//! The notifications of a run.
ghost use Rattle.std.specs.Prelude.{◌≡◌, ◌<◌, ◌∷◌, ◌++◌, [], length, IfOk};
ghost use Rattle.sc_model.specs.Notes.{is_note};
ghost use Rattle.sc_model.specs.Finishing.{kept_lines, lines, notes_in};
ghost use Rattle.sc_model.specs.declared.message.Compile.{Compile as CompileRequest};
ghost use Rattle.sc_model.specs.declared.message.Request.TheVariants.{Compile as OfCompile};
ghost use Rattle.sc_daemon_job.specs.Setups.{Config, setup};

use sc_entry::{ByteText, NoMemory, Queue};
use sc_model::{CompilerKind, is_notification};
use std::alloc::Global;

/// The first line, without its line feed, and what stands behind it.
fn split_line(text: &[u8]) -> (&[u8], &[u8])
    requires { 0 < length text.now }
    ensures lines { lines text.now ≡ result.0.now ∷ lines result.1.now }
    ensures shorter { length result.1.now < length text.now }
{
    for (place, byte) in text.iter().enumerate() {
        if *byte == b'\n' {
            return (&text[..place], &text[place + 1..]);
        }
    }
    (text, &text[text.len()..])
}

/// Adds a line, where it is a notification.
fn keep_note(alloc: Global, notes: &mut Queue<ByteText>, line: &[u8]) -> Result<(), NoMemory>
    ensures { IfOk result (λ _. notes.new ≡ notes.old ++ kept_lines is_note (line.now ∷ [])) }
{
    if !is_notification(line) {
        return Ok(());
    }
    let note = ByteText::from_slice(alloc, line)?;
    notes.push_back(note)
}

/// The lines of a text that are notifications, in their order, each without its line feed.
fn notes_of(alloc: Global, text: &[u8]) -> Result<Queue<ByteText>, NoMemory>
    ensures { IfOk result (λ notes. notes ≡ kept_lines is_note (lines text.now)) }
{
    let mut notes = Queue::new(alloc);
    let mut left = text;
    while !left.is_empty() {
        let (line, rest) = split_line(left);
        keep_note(alloc, &mut notes, line)?;
        left = rest;
    }
    Ok(notes)
}

/// The notifications in what a compiler of this kind wrote to its standard error: only Rust's has any. Takes time linear
/// in the bytes.
pub fn run_notes(
    alloc: Global,
    kind: CompilerKind,
    stderr: &[u8],
) -> Result<Queue<ByteText>, NoMemory>
    ensures { IfOk result (λ notes. (k : Config) (c : CompileRequest) → notes ≡ notes_in (setup k) (OfCompile c) kind stderr.now) }
{
    match kind {
        CompilerKind::C(_) => Ok(Queue::new(alloc)),
        CompilerKind::Rust => notes_of(alloc, stderr),
    }
}
