//! The paths at which stores keep what stands under their keys.
ghost use Rattle.std.specs.Prelude.{◌≡◌, ◌<◌, ◌++◌, ◌∷◌, [], string_bytes, IfOk, OnOk};
ghost use Rattle.std.specs.List.{list_all};
ghost use Rattle.sc_entry.specs.Keys as keys;

use sc_entry::{NoMemory, Text};
use std::alloc::Global;

/// Whether a byte is an ASCII letter, a digit, `-` or `_`.
fn is_key_byte(byte: u8) -> bool
    ensures { result ≡ keys.is_key_byte byte }
{
    byte.is_ascii_digit()
        || byte.is_ascii_uppercase()
        || byte.is_ascii_lowercase()
        || byte == b'-'
        || byte == b'_'
}

fn are_key_bytes(bytes: &[u8]) -> bool
    ensures { result ≡ list_all keys.is_key_byte bytes.now }
{
    bytes.iter().all(|byte| is_key_byte(*byte))
}

/// Whether a text is a store key: at least three such bytes.
pub fn is_store_key(key: &Text) -> bool
    ensures { result ≡ keys.is_store_key key.now }
{
    key.len() > 2 && are_key_bytes(key.as_bytes())
}

/// Adds a folder whose name is one byte.
fn push_folder(path: &mut String, name: u8) -> Result<(), NoMemory>
    requires { name < 128 }
    ensures { OnOk result (string_bytes path.new ≡ string_bytes path.old ++ name ∷ 47 ∷ []) }
{
    path.push(name as char)?;
    path.push('/')?;
    Ok(())
}

/// Where a disk store keeps the entry of a store key: two folders named by its first bytes, then the key.
pub fn make_key_path(alloc: Global, key: &Text) -> Result<Text, NoMemory>
    requires { keys.IsStoreKey key.now }
    ensures { IfOk result (λ path. path ≡ keys.make_key_path key.now) }
{
    let bytes = key.as_bytes();
    let mut path = String::new(alloc);
    push_folder(&mut path, bytes[0])?;
    push_folder(&mut path, bytes[1])?;
    path.push_str(key.as_str())?;
    Ok(Text::from_string(path))
}

/// Where remote stores, and a disk store of preprocessor entries, keep the entry of a store key: three folders named by
/// its first bytes, then the key.
pub fn normalize_key(alloc: Global, key: &Text) -> Result<Text, NoMemory>
    requires { keys.IsStoreKey key.now }
    ensures { IfOk result (λ path. path ≡ keys.normalize_key key.now) }
{
    let bytes = key.as_bytes();
    let mut path = String::new(alloc);
    push_folder(&mut path, bytes[0])?;
    push_folder(&mut path, bytes[1])?;
    push_folder(&mut path, bytes[2])?;
    path.push_str(key.as_str())?;
    Ok(Text::from_string(path))
}
