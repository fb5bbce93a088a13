//! Whether an answer is one that a workshop may give.

ghost use Rattle.std.specs.Prelude.{◌≡◌, ◌&&◌, [], not, IfOk};
ghost use Rattle.std.specs.BTreeSet.{contains_text};
ghost use Rattle.std.specs.Str.{is_utf8};
ghost use Rattle.sc_model.specs.GoodNames.{are_good, are_named, are_run_objects, is_chain, is_good_answer, is_output_name, is_stream};

use crate::event::{Objects, RunAnswer};
use sc_entry::{NoMemory, Object, Text};
use std::alloc::Global;
use std::collections::BTreeSet;

/// Whether a name is that of what a compiler writes to one of its two streams.
pub fn is_stream(name: &[u8]) -> bool
    ensures { result ≡ is_stream name.now }
{
    name == b"stdout".as_slice() || name == b"stderr".as_slice()
}

fn is_text(bytes: &[u8]) -> bool
    ensures { result ≡ is_utf8 bytes.now }
{
    match std::str::from_utf8(bytes) {
        Ok(_) => true,
        Err(_) => false,
    }
}

/// Whether bytes can name an output: 1 to 65,535 of them, UTF-8, and no stream's name.
pub fn is_output_name(bytes: &[u8]) -> bool
    ensures { result ≡ is_output_name bytes.now }
{
    if bytes.is_empty() || bytes.len() > 65535 || is_stream(bytes) {
        return false;
    }
    is_text(bytes)
}

fn is_new(names: &BTreeSet<String>, name: &Text) -> bool
    ensures { result ≡ (is_output_name name.now && not (contains_text names.now name.now)) }
{
    is_output_name(name.as_bytes()) && !names.contains(name.as_str())
}

/// Whether each object has a name of its own.
fn are_named(alloc: Global, objects: &[Object]) -> Result<bool, NoMemory>
    ensures { IfOk result (λ good. good ≡ are_named [] objects.now) }
{
    let mut names = BTreeSet::new(alloc);
    let mut left = objects;
    while let [object, rest @ ..] = left {
        if !is_new(&names, &object.name) {
            return Ok(false);
        }
        names.insert(String::from_str(alloc, object.name.as_str())?)?;
        left = rest;
    }
    Ok(true)
}

fn are_run_objects(alloc: Global, objects: &[Object]) -> Result<bool, NoMemory>
    ensures { IfOk result (λ good. good ≡ are_run_objects objects.now) }
{
    let named = are_named(alloc, objects)?;
    Ok(named && objects.len() < 65533)
}

fn are_good(alloc: Global, objects: &Objects) -> Result<bool, NoMemory>
    ensures { IfOk result (λ good. good ≡ are_good objects.now) }
{
    match objects {
        Objects::Collected(objects) => are_run_objects(alloc, objects.as_slice()),
        Objects::Broken(chain) => Ok(is_chain(chain.as_slice())),
    }
}

fn is_chain(chain: &[Text]) -> bool
    ensures { result ≡ is_chain chain.now }
{
    match chain {
        [] => false,
        [_, ..] => true,
    }
}

/// Whether an answer is one that a workshop may give: its objects have distinct good names, and its chain has a text.
pub fn is_good_answer(alloc: Global, answer: &RunAnswer) -> Result<bool, NoMemory>
    ensures { IfOk result (λ good. good ≡ is_good_answer answer.now) }
{
    match answer {
        RunAnswer::Output(out) => are_good(alloc, &out.objects),
        RunAnswer::ProcessError(_) => Ok(true),
        RunAnswer::Fault(chain) => Ok(is_chain(chain.as_slice())),
    }
}
