//! What the program prints of a capacity report.
ghost use Rattle.std.specs.Prelude.{◌≡◌, ◌++◌, string_bytes, IfOk, OnOk};
ghost use Rattle.sc_main_dry.specs.Printed.{dry_text, got_words, line_text, stored_words};

use sc_entry::NoMemory;
use sc_lru::DryLine;
use sc_words::put;
use std::alloc::Global;

#[tactic(auto, unfolding(crate::specs::Printed::got_words))]
fn got_words(alloc: Global, line: DryLine) -> Result<String, NoMemory>
    ensures { IfOk result (λ text. string_bytes text ≡ got_words line) }
{
    let capacity = line.capacity;
    let hits = line.hits;
    let misses = line.misses;
    let text = format!(in alloc; "{capacity} hits {hits} misses {misses}")?;
    Ok(text)
}

#[tactic(auto, unfolding(crate::specs::Printed::stored_words))]
fn stored_words(alloc: Global, line: DryLine) -> Result<String, NoMemory>
    ensures { IfOk result (λ text. string_bytes text ≡ stored_words line) }
{
    let evicted = line.evicted;
    let too_large = line.too_large;
    let text = format!(in alloc; " evicted {evicted} too-large {too_large}")?;
    Ok(text)
}

#[tactic(auto, unfolding(crate::specs::Printed::line_text))]
fn put_dry_line(alloc: Global, out: &mut Vec<u8>, line: DryLine) -> Result<(), NoMemory>
    ensures { OnOk result (out.new.items ≡ out.old.items ++ line_text line) }
{
    let got = got_words(alloc, line)?;
    put(out, got.as_bytes())?;
    let stored = stored_words(alloc, line)?;
    put(out, stored.as_bytes())?;
    put(out, b"\n")
}

/// Appends a line for each capacity, in their order: the capacity, the gets that found their key and those that didn't, the pairs
/// that were evicted, and the puts of more than the capacity.
///
/// # Errors
///
/// `NoMemory` where there is none for them.
pub fn put_dry_lines(alloc: Global, out: &mut Vec<u8>, lines: &[DryLine]) -> Result<(), NoMemory>
    ensures { OnOk result (out.new.items ≡ out.old.items ++ dry_text lines.now) }
{
    let mut left = lines;
    while let [line, rest @ ..] = left {
        put_dry_line(alloc, out, *line)?;
        left = rest;
    }
    Ok(())
}
