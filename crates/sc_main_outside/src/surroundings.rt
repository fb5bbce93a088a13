//! What is around a program.
ghost use Rattle.std.specs.Prelude.{◌≡◌, IfOk, option_map};
ghost use Rattle.sc_main_outside.specs.Around as arounds;

use crate::folders::folders_of;
use sc_client::{Outlet, Outlets};
use sc_entry::{ByteText, Items, NoMemory};
use sc_model::Variable;
use std::alloc::Global;

/// What is around a program.
#[derive(Drop)]
pub struct Surroundings {
    /// Its working folder.
    pub cwd: ByteText,
    /// Where a program is looked for that is named without a folder, in order.
    pub folders: Items<ByteText>,
    /// Whether a compile goes on here where the server can't be read any more.
    pub ignores_server_errors: bool,
    /// Where its two streams go.
    pub outlets: Outlets,
    pub variables: Items<Variable>,
}

/// The value of the first variable of a name.
fn value_in<'a>(name: &[u8], variables: &'a [Variable]) -> Option<&'a [u8]>
    ensures { option_map (λ v. v.now) result ≡ arounds.value_in name.now variables.now }
{
    let mut left = variables;
    while let [variable, rest @ ..] = left {
        if variable.name.as_slice() == name {
            return Some(variable.value.as_slice());
        }
        left = rest;
    }
    None
}

/// Whether the first variable of a name has this value.
fn has_value(name: &[u8], value: &[u8], variables: &[Variable]) -> bool
    ensures { result ≡ arounds.is_value (arounds.value_in name.now variables.now) value.now }
{
    match value_in(name, variables) {
        None => false,
        Some(found) => found == value,
    }
}

/// Where programs are looked for. There are no folders where there is no `PATH`.
fn folders_in(alloc: Global, cwd: &[u8], path: Option<&[u8]>) -> Result<Items<ByteText>, NoMemory>
    ensures { IfOk result (λ folders. folders ≡ arounds.folders_in cwd.now (option_map (λ p. p.now) path.entry)) }
{
    match path {
        None => Ok(Items::new(alloc)),
        Some(path) => folders_of(alloc, cwd, path),
    }
}

/// Where the two streams go. Terminals show no colors where `TERM` is `dumb`.
fn outlets_of(variables: &[Variable], is_out_terminal: bool, is_err_terminal: bool) -> Outlets
    ensures { result ≡ arounds.outlets_of variables.now is_out_terminal is_err_terminal }
{
    let is_dumb = has_value(b"TERM", b"dumb", variables);
    Outlets {
        out: Outlet {
            is_terminal: is_out_terminal,
            is_dumb,
        },
        err: Outlet {
            is_terminal: is_err_terminal,
            is_dumb,
        },
    }
}

/// What is around a program in this working folder, with these variables, whose two streams are terminals or not. Of variables
/// of one name the first holds. The folders are the parts of `PATH` between its colons: an empty one is the working folder, and
/// one that doesn't begin with `/` is in it.
pub fn surroundings_of(
    alloc: Global,
    cwd: ByteText,
    variables: Items<Variable>,
    is_out_terminal: bool,
    is_err_terminal: bool,
) -> Result<Surroundings, NoMemory>
    ensures { IfOk result (λ made. made ≡ arounds.around_of cwd variables is_out_terminal is_err_terminal) }
{
    let all = variables.as_slice();
    let folders = folders_in(alloc, cwd.as_slice(), value_in(b"PATH", all))?;
    let ignores_server_errors = has_value(b"SCCACHE_IGNORE_SERVER_IO_ERROR", b"1", all);
    let outlets = outlets_of(all, is_out_terminal, is_err_terminal);
    Ok(Surroundings {
        cwd,
        folders,
        ignores_server_errors,
        outlets,
        variables,
    })
}
