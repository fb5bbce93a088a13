//! What a run's outputs come to.

ghost use Rattle.std.specs.Prelude.{◌≡◌, ◌++◌, ◌&&◌, not, IfOk, ℕ, List, Some, true, option_map};
ghost use Rattle.std.specs.BTreeSet.{contains_text};
ghost use Rattle.sc_entry.specs.Entries.{has_name};
ghost use Rattle.sc_model.specs.World.{first_missing};
ghost use Rattle.sc_model.specs.GoodNames.{are_good, are_run_objects};
ghost use Rattle.sc_model.specs.Collecting.{collected, collected_from, is_broken, output_with};

use crate::event::{Objects, RunOutput};
use sc_entry::{FileObjectSource, Items, NoMemory, Object, Text};
use std::alloc::Global;
use std::collections::BTreeSet;

/// The names of some objects.
fn names_of(alloc: Global, objects: &[Object]) -> Result<BTreeSet<String>, NoMemory>
    ensures { IfOk result (λ names. (name : List ℕ) → contains_text names name ≡ has_name name objects.now) }
{
    let mut names = BTreeSet::new(alloc);
    let mut left = objects;
    while let [object, rest @ ..] = left {
        names.insert(String::from_str(alloc, object.name.as_str())?)?;
        left = rest;
    }
    Ok(names)
}

/// Whether an output is required, and no object has its name.
fn is_missing(names: &BTreeSet<String>, output: &FileObjectSource) -> bool
    ensures { result ≡ (not output.now.optional && not (contains_text names.now output.now.key)) }
{
    !output.optional && !names.contains(output.key.as_str())
}

/// The first required output that the objects lack.
fn first_missing<'a>(
    alloc: Global,
    objects: &[Object],
    outputs: &'a [FileObjectSource],
) -> Result<Option<&'a Text>, NoMemory>
    ensures { IfOk result (λ name. option_map (λ n. n.now) name ≡ first_missing (Some objects.now) outputs.now) }
{
    let names = names_of(alloc, objects)?;
    let mut left = outputs;
    while let [output, rest @ ..] = left {
        if is_missing(&names, output) {
            return Ok(Some(&output.key));
        }
        left = rest;
    }
    Ok(None)
}

/// Two texts, one behind the other.
fn joined(alloc: Global, front: &str, end: &Text) -> Result<Text, NoMemory>
    ensures { IfOk result (λ t. t ≡ front.now ++ end.now) }
{
    let mut text = String::from_str(alloc, front)?;
    text.push_str(end.as_str())?;
    Ok(Text::from_string(text))
}

fn collected(
    alloc: Global,
    objects: &Items<Object>,
    missing: Option<&Text>,
) -> Result<Objects, NoMemory>
    requires { are_run_objects objects.now ≡ true }
    ensures value { IfOk result (λ os. os ≡ collected objects.now (option_map (λ n. n.now) missing.entry)) }
    ensures good { IfOk result (λ os. are_good os ≡ true) }
{
    let Some(name) = missing else {
        return Ok(Objects::Collected(objects.clone()?));
    };
    let mut chain = Items::new(alloc);
    chain.push(Text::from_str(alloc, "failed to zip up compiler outputs")?)?;
    chain.push(joined(alloc, "failed to open file ", name)?)?;
    Ok(Objects::Broken(chain))
}

fn collected_from(
    alloc: Global,
    outputs: &[FileObjectSource],
    objects: &Objects,
) -> Result<Objects, NoMemory>
    requires { are_good objects.now ≡ true }
    ensures value { IfOk result (λ os. os ≡ collected_from outputs.now objects.now) }
    ensures good { IfOk result (λ os. are_good os ≡ true) }
{
    match objects {
        Objects::Collected(objects) => {
            let missing = first_missing(alloc, objects.as_slice(), outputs)?;
            collected(alloc, objects, missing)
        }
        Objects::Broken(chain) => Ok(Objects::Broken(chain.clone()?)),
    }
}

/// A copy of what a run left, of which these outputs are wanted: where it lacks a required one, a fault's chain takes the place
/// of its objects.
pub fn output_with(
    alloc: Global,
    outputs: &[FileObjectSource],
    out: &RunOutput,
) -> Result<RunOutput, NoMemory>
    requires { are_good out.now.objects ≡ true }
    ensures value { IfOk result (λ o. o ≡ output_with outputs.now out.now) }
    ensures good { IfOk result (λ o. are_good o.objects ≡ true) }
{
    let objects = collected_from(alloc, outputs, &out.objects)?;
    let output = out.output.clone()?;
    Ok(RunOutput { output, objects })
}

/// Whether a chain of texts stands in place of a run's objects.
pub fn is_broken(objects: &Objects) -> bool
    ensures { result ≡ is_broken objects.now }
{
    match objects {
        Objects::Collected(_) => false,
        Objects::Broken(_) => true,
    }
}
