//! Names of files: which are keys, and which are of temporaries.
ghost use Rattle.std.specs.Prelude.{◌≡◌, ◌<◌, length, IfOk, IfSome};
ghost use Rattle.std.specs.Option.{option_map};
ghost use Rattle.sc_entry.specs.Keys as keys;
ghost use Rattle.sc_disk.specs.Names.{first_part, is_temporary_path, temporary, PartsBy};

use memchr::memchr;
use sc_entry::{NoMemory, Text};
use std::alloc::Global;

/// What the name of each temporary begins with.
const TEMPORARY: &[u8] = b".sccachetmp";

/// The first part of a path, and what follows behind its slash.
fn cut_part(path: &[u8]) -> Option<(&[u8], &[u8])>
    ensures parts { PartsBy path.now (option_map (λ p. (p.0.now, p.1.now)) result) }
    ensures shorter { IfSome result (λ p. length p.1.now < length path.now) }
{
    match memchr(b'/', path) {
        None => None,
        Some(end) => Some((&path[..end], &path[end + 1..])),
    }
}

/// Whether bytes may be a part of a file key.
fn is_file_part(part: &[u8]) -> bool
    ensures { result ≡ keys.is_file_part part.now }
{
    !part.is_empty() && part != b".".as_slice() && part != b"..".as_slice() && has_no_nul(part)
}

fn has_no_nul(part: &[u8]) -> bool
    ensures { result ≡ keys.has_no_nul part.now }
{
    memchr(0, part).is_none()
}

fn is_temporary(name: &[u8]) -> bool
    ensures { result ≡ keys.is_temporary name.now }
{
    name.starts_with(TEMPORARY)
}

/// Whether a text is a file key: parts joined by `/`, none of them empty, `.` or `..` or with a NUL, and the last not
/// beginning as the name of a temporary.
pub(crate) fn is_file_key(key: &Text) -> bool
    ensures { result ≡ keys.is_file_key key.now }
{
    let mut rest = key.as_bytes();
    while let Some((part, others)) = cut_part(rest) {
        if !is_file_part(part) {
            return false;
        }
        rest = others;
    }
    is_file_part(rest) && !is_temporary(rest)
}

/// Whether the name of a path's file, which is its last part, begins as that of a temporary.
#[tactic(auto, unfolding(crate::specs::Names::is_temporary_path))]
pub(crate) fn is_temporary_path(path: &Text) -> bool
    ensures { result ≡ is_temporary_path path.now }
{
    let mut rest = path.as_bytes();
    while let Some((_, others)) = cut_part(rest) {
        rest = others;
    }
    is_temporary(rest)
}

/// What stands before a path's first slash; without one all of it.
fn first_part(path: &str) -> &str
    ensures { result.now ≡ first_part path.now }
{
    match path.split_once('/') {
        Some((first, _)) => first,
        None => path,
    }
}

/// The path of the temporary with this number, of an entry for this key. On a divided disk it stands in the key's first
/// part.
#[tactic(auto, unfolding(crate::specs::Names::temporary_name))]
pub(crate) fn temporary_path(
    alloc: Global,
    is_divided: bool,
    key: &Text,
    number: usize,
) -> Result<Text, NoMemory>
    ensures { IfOk result (λ path. path ≡ temporary is_divided key.now number) }
{
    if !is_divided {
        let path = format!(in alloc; ".sccachetmp{number}")?;
        return Ok(Text::from_string(path));
    }
    let folder = first_part(key.as_str());
    let path = format!(in alloc; "{folder}/.sccachetmp{number}")?;
    Ok(Text::from_string(path))
}
