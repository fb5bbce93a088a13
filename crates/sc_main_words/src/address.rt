//! The address of a server, as one word.
ghost use Rattle.std.specs.Prelude.{◌≡◌};
ghost use Rattle.std.specs.Option.{option_map};
ghost use Rattle.std.specs.Str.{is_utf8};
ghost use Rattle.sc_wire_address.specs.Addresses.{parsed};
ghost use Rattle.sc_words.specs.Words.{Means, only_if};
ghost use Rattle.sc_main_words.specs.Addresses.{address_of, are_digits, is_digits, port_of, unix_of};

use sc_main_script_words::number_within;
use sc_wire_address::{AddressError, SocketAddr};
use sc_words::WordsError;
use std::alloc::Global;

fn are_digits(word: &[u8]) -> bool
    ensures { result ≡ are_digits word.now }
{
    let mut left = word;
    while let [first, rest @ ..] = left {
        if !first.is_ascii_digit() {
            return false;
        }
        left = rest;
    }
    true
}

/// Whether a word is digits alone, one at least.
fn is_digits(word: &[u8]) -> bool
    ensures { result ≡ is_digits word.now }
{
    match word {
        [] => false,
        [_, ..] => are_digits(word),
    }
}

/// A port of this machine.
#[tactic(auto, unfolding(crate::specs::Addresses::port_of))]
fn port(word: &[u8]) -> Result<SocketAddr, WordsError>
    ensures { Means (port_of word.now) result }
{
    let port = number_within(0, 65535, word)?;
    Ok(SocketAddr::with_port(port as u16))
}

/// The bytes as text, where they are UTF-8.
fn text_of(bytes: &[u8]) -> Option<&str>
    ensures { option_map (λ t. t.now) result ≡ only_if (is_utf8 bytes.now) bytes.now }
{
    match std::str::from_utf8(bytes) {
        Ok(text) => Some(text),
        Err(_) => None,
    }
}

/// The address of a Unix socket that a text names.
fn named(alloc: Global, text: &str) -> Result<SocketAddr, WordsError>
    ensures { Means (parsed text.now) result }
{
    match SocketAddr::parse_uds(alloc, text) {
        Ok(address) => Ok(address),
        Err(AddressError::BadEscape) => Err(WordsError::Malformed),
        Err(AddressError::NoMemory) => Err(WordsError::NoMemory),
    }
}

/// The address of a Unix socket.
#[tactic(auto, unfolding(crate::specs::Addresses::unix_of))]
fn unix(alloc: Global, word: &[u8]) -> Result<SocketAddr, WordsError>
    ensures { Means (unix_of word.now) result }
{
    let Some(text) = text_of(word) else {
        return Err(WordsError::Malformed);
    };
    let address = named(alloc, text)?;
    Ok(address)
}

/// The address that a word is: digits alone are a port of this machine, 0 to 65,535 without needless zeros; any other word in
/// UTF-8 is the address of a Unix socket.
///
/// # Errors
///
/// `Malformed` where it is none.
#[tactic(auto, unfolding(crate::specs::Addresses::address_of))]
pub fn address(alloc: Global, word: &[u8]) -> Result<SocketAddr, WordsError>
    ensures { Means (address_of word.now) result }
{
    if is_digits(word) {
        return port(word);
    }
    unix(alloc, word)
}
