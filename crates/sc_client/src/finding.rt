//! Where a program is.
ghost use Rattle.std.specs.Prelude.{◌≡◌, ◌⊎◌, ◌∷◌, [], IfOk, IfSome, is_some, map};
ghost use Rattle.sc_entry.specs.Causes.{IfTold};
ghost use Rattle.sc_client.specs.Which.{Finds, has_slash, in_folder, is_absolute, is_there, paths_of, with_slash};
ghost use Rattle.sc_client.specs.declared.client_error.ClientError.TheVariants as client_errors;

use crate::client_error::ClientError;
use sc_compile::Probe;
use sc_entry::{ByteText, NoMemory};
use std::alloc::Global;

fn has_slash(name: &[u8]) -> bool
    ensures { result ≡ has_slash name.now }
{
    let mut left = name;
    while let [byte, rest @ ..] = left {
        if *byte == b'/' {
            return true;
        }
        left = rest;
    }
    false
}

fn is_absolute(name: &[u8]) -> bool
    ensures { result ≡ is_absolute name.now }
{
    match name {
        [] => false,
        [byte, ..] => *byte == b'/',
    }
}

/// A folder's path with one slash at its end.
fn with_slash(alloc: Global, folder: &[u8]) -> Result<ByteText, NoMemory>
    ensures { IfOk result (λ path. path ≡ with_slash folder.now) }
{
    let mut path = ByteText::from_slice(alloc, folder)?;
    if folder.is_empty() || folder[folder.len() - 1] != b'/' {
        path.push(b'/')?;
    }
    Ok(path)
}

/// The path of a name in a folder.
fn in_folder(alloc: Global, name: &[u8], folder: &[u8]) -> Result<ByteText, NoMemory>
    ensures { IfOk result (λ path. path ≡ in_folder name.now folder.now) }
{
    let mut path = with_slash(alloc, folder)?;
    path.append(name)?;
    Ok(path)
}

fn not_found(name: &ByteText) -> ClientError
    ensures { (result ≡ client_errors.NoMemory) ⊎ (result ≡ client_errors.NotFound name.now) }
{
    match name.try_clone() {
        Ok(name) => ClientError::NotFound(name),
        Err(_) => ClientError::NoMemory,
    }
}

/// The path, where there is a file.
fn existing<P: Probe>(probe: &P, name: &ByteText, path: ByteText) -> Result<ByteText, ClientError>
    ensures { Finds (P.table probe.now) name.now (path ∷ []) result }
{
    match probe.moment(&path) {
        Some(_) => Ok(path),
        None => Err(not_found(name)),
    }
}

/// The path of a name in a folder, where there is a file.
fn found_in<P: Probe>(
    alloc: Global,
    probe: &P,
    name: &[u8],
    folder: &[u8],
) -> Result<Option<ByteText>, NoMemory>
    ensures path { IfOk result (λ found. IfSome found (λ path. path ≡ in_folder name.now folder.now)) }
    ensures told { IfOk result (λ found. IfTold (P.table probe.now) (λ tools. is_some found ≡ is_there tools (in_folder name.now folder.now))) }
{
    let path = in_folder(alloc, name, folder)?;
    match probe.moment(&path) {
        Some(_) => Ok(Some(path)),
        None => Ok(None),
    }
}

/// The first of some folders' paths where there is a file.
#[tactic(auto, using(crate::proofs::Found::finds_behind, crate::proofs::Found::finds_here))]
fn first_in<P: Probe>(
    alloc: Global,
    probe: &P,
    name: &ByteText,
    folders: &[ByteText],
) -> Result<ByteText, ClientError>
    ensures { Finds (P.table probe.now) name.now (map (in_folder name.now) folders.now) result }
{
    let [folder, rest @ ..] = folders else {
        return Err(not_found(name));
    };
    match found_in(alloc, probe, name.as_slice(), folder.as_slice())? {
        Some(path) => Ok(path),
        None => first_in(alloc, probe, name, rest),
    }
}

/// Where a program is: the first path that has a file. A name that begins with `/` is the one path itself; another with a `/` is
/// looked for in `cwd` alone; any other in the folders, in order. A folder and a name are joined by one `/`.
pub fn which_in<P: Probe>(
    alloc: Global,
    probe: &P,
    name: &ByteText,
    folders: &[ByteText],
    cwd: &ByteText,
) -> Result<ByteText, ClientError>
    ensures { Finds (P.table probe.now) name.now (paths_of name.now folders.now cwd.now) result }
{
    if is_absolute(name.as_slice()) {
        return existing(probe, name, name.try_clone()?);
    }
    if has_slash(name.as_slice()) {
        let path = in_folder(alloc, name.as_slice(), cwd.as_slice())?;
        return existing(probe, name, path);
    }
    first_in(alloc, probe, name, folders)
}
