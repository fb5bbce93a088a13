//! The lines of what became of keys that were warmed.
ghost use Rattle.std.specs.Prelude.{◌≡◌, ◌++◌, IfOk, OnOk};
ghost use Rattle.sc_main.specs.Warming.{key_line, key_lines, outcome_text, refusal_text, warm_text};

use sc_entry::{NoMemory, Text};
use sc_main_report::put_levels;
use sc_main_script::LevelSize;
use sc_main_script_words::{put_line, put_number, put_token};
use sc_store_alone::StorageError;
use sc_store_warm::Warmed;
use sc_words::put;
use std::alloc::Global;

/// Appends a refusal behind the word that says which level's it is.
#[tactic(auto, unfolding(crate::specs::Warming::refusal_text))]
fn put_refusal(
    alloc: Global,
    out: &mut Vec<u8>,
    name: &[u8],
    refusal: &StorageError,
) -> Result<(), NoMemory>
    ensures { OnOk result (out.new.items ≡ out.old.items ++ refusal_text name.now refusal.now) }
{
    let text = format!(in alloc; "{refusal}")?;
    put(out, name)?;
    put_line(out, text.as_bytes())
}

/// Appends what became of a key.
#[tactic(auto, unfolding(crate::specs::Warming::outcome_text))]
fn put_outcome(alloc: Global, out: &mut Vec<u8>, warmed: &Warmed) -> Result<(), NoMemory>
    ensures { OnOk result (out.new.items ≡ out.old.items ++ outcome_text warmed.now) }
{
    match warmed {
        Warmed::Copied(size) => {
            put(out, b"copied ")?;
            put_number(alloc, out, *size)
        }
        Warmed::Absent => put(out, b"absent"),
        Warmed::Torn => put(out, b"torn"),
        Warmed::FromRefused(refusal) => put_refusal(alloc, out, b"from-refused ", refusal),
        Warmed::ToRefused(refusal) => put_refusal(alloc, out, b"to-refused ", refusal),
    }
}

/// Appends a key's line.
#[tactic(auto, unfolding(crate::specs::Warming::key_line))]
fn put_key_line(
    alloc: Global,
    out: &mut Vec<u8>,
    key: &Text,
    warmed: &Warmed,
) -> Result<(), NoMemory>
    ensures { OnOk result (out.new.items ≡ out.old.items ++ key_line key.now warmed.now) }
{
    put(out, b"key ")?;
    put_token(out, key.as_bytes())?;
    put(out, b" ")?;
    put_outcome(alloc, out, warmed)?;
    put(out, b"\n")
}

/// Appends a line for each key, in their order, with what became of it.
fn put_key_lines(
    alloc: Global,
    out: &mut Vec<u8>,
    keys: &[Text],
    warmed: &[Warmed],
) -> Result<(), NoMemory>
    ensures { OnOk result (out.new.items ≡ out.old.items ++ key_lines keys.now warmed.now) }
{
    let mut keys_left = keys;
    let mut left = warmed;
    while let [key, more @ ..] = keys_left {
        let [one, rest @ ..] = left else {
            return Ok(());
        };
        put_key_line(alloc, out, key, one)?;
        keys_left = more;
        left = rest;
    }
    Ok(())
}

/// What is printed: a line for each key, one for each level's size, and the end.
#[tactic(auto, unfolding(crate::specs::Warming::warm_text))]
pub fn text_of(
    alloc: Global,
    keys: &[Text],
    warmed: &[Warmed],
    from: LevelSize,
    to: LevelSize,
) -> Result<Vec<u8>, NoMemory>
    ensures { IfOk result (λ text. text.items ≡ warm_text keys.now warmed.now from to) }
{
    let mut text = Vec::new(alloc);
    put_key_lines(alloc, &mut text, keys, warmed)?;
    put_levels(alloc, &mut text, &[from, to], &[])?;
    put(&mut text, b"end\n")?;
    Ok(text)
}
