//! Uses whose keys are lent.
ghost use Rattle.std.specs.Prelude.{◌≡◌, map, IfOk};
ghost use Rattle.sc_main_dry.specs.Lending.{lent};

use sc_entry::{NoMemory, Text};
use sc_lru::Use;
use std::alloc::Global;

fn lend_key(one: &Use<Text>) -> Use<&str>
    ensures { lent result ≡ one.now }
{
    match one {
        Use::Get(key) => Use::Get(key.as_str()),
        Use::Put(key, bytes) => Use::Put(key.as_str(), *bytes),
    }
}

/// The same uses with their keys lent, as `dry_run` takes them.
///
/// # Errors
///
/// `NoMemory` where there is none for the list.
pub fn lend<'a>(alloc: Global, uses: &'a [Use<Text>]) -> Result<Vec<Use<&'a str>>, NoMemory>
    ensures { IfOk result (λ lending. map lent lending.items ≡ uses.now) }
{
    let mut lending = Vec::with_capacity(alloc, uses.len())?;
    let mut left = uses;
    while let [one, rest @ ..] = left {
        lending.push(lend_key(one))?;
        left = rest;
    }
    Ok(lending)
}
