//! The bytes of an abstract name as a text, and read again.
ghost use Rattle.std.specs.Prelude.{◌≡◌, ◌<◌, ◌++◌, ℕ, List, Some, None, IfOk, IfSome, length, option_map, OnErr};
ghost use Rattle.sc_wire_address.specs.Escapes.{byte_after, byte_of, escape_onto, escaped, hex_digit, hex_pair, hex_text, letter_byte, written_byte, unescaped};

use crate::address_error::AddressError;
use sc_entry::ByteText;
use std::alloc::Global;
use std::fmt;
use std::fmt::{Display, Formatter, Write};

/// The value of a hexadecimal digit of either case.
fn hex_digit(digit: u8) -> Option<u8>
    ensures value { result ≡ hex_digit digit }
    ensures small { IfSome result (λ d. d < 16) }
{
    match digit {
        b'0'..=b'9' => Some(digit - b'0'),
        b'a'..=b'f' => Some(digit - b'a' + 10),
        b'A'..=b'F' => Some(digit - b'A' + 10),
        _ => None,
    }
}

fn byte_of(high: u8, low: u8) -> Option<u8>
    ensures { result ≡ byte_of high low }
{
    let high = hex_digit(high)?;
    let low = hex_digit(low)?;
    Some(16 * high + low)
}

/// The byte that a letter behind a backslash stands for.
fn letter_byte(letter: u8) -> Option<u8>
    ensures { result ≡ letter_byte letter }
{
    match letter {
        b't' => Some(b'\t'),
        b'r' => Some(b'\r'),
        b'n' => Some(b'\n'),
        b'\'' | b'"' | b'\\' => Some(letter),
        _ => None,
    }
}

/// The byte that an escape stands for, and the text behind it: `text` is what stands behind its backslash.
fn escape(text: &[u8]) -> Option<(u8, &[u8])>
    ensures value { (sofar : List ℕ) → byte_after sofar (option_map (λ p. (p.0, p.1.now)) result) ≡ escape_onto sofar text.now }
    ensures shorter { IfSome result (λ p. length p.1.now < length text.now) }
{
    match text {
        [b'x', high, low, rest @ ..] => {
            let byte = byte_of(*high, *low)?;
            Some((byte, rest))
        }
        [b'x', ..] => None,
        [letter, rest @ ..] => {
            let byte = letter_byte(*letter)?;
            Some((byte, rest))
        }
        [] => None,
    }
}

/// The bytes that an escaped text stands for.
#[tactic(auto, unfolding(crate::specs::Escapes::unescaped))]
pub fn unescape(alloc: Global, text: &[u8]) -> Result<ByteText, AddressError>
    ensures ok { IfOk result (λ bytes. unescaped text.now ≡ Some bytes) }
    ensures bad { result ≡ Err AddressError.BadEscape → unescaped text.now ≡ None }
{
    let mut bytes = ByteText::new(alloc);
    let mut left = text;
    while let [first, rest @ ..] = left {
        if *first != b'\\' {
            bytes.push(*first)?;
            left = rest;
            continue;
        }
        match escape(rest) {
            None => return Err(AddressError::BadEscape),
            Some((byte, after)) => {
                bytes.push(byte)?;
                left = after;
            }
        }
    }
    Ok(bytes)
}

/// A hexadecimal digit, in lower case.
fn hex_char(digit: u8) -> char
    requires { digit < 16 }
    ensures text { result ≡ hex_text digit }
    ensures ascii { result < 128 }
{
    if digit < 10 {
        (digit + b'0') as char
    } else {
        (digit - 10 + b'a') as char
    }
}

/// A byte as two hexadecimal digits.
#[derive(Clone, Copy)]
struct HexByte(u8);

impl Display for HexByte {
    ghost output = { λ byte. Some (hex_pair byte.0) };

    #[tactic(auto, using(std::proofs::lemmas::Str::encode_ascii))]
    fn fmt<W: Write>(&self, f: &mut Formatter<W>) -> fmt::Result {
        f.write_char(hex_char(self.0 / 16))?;
        f.write_char(hex_char(self.0 % 16))
    }
}

/// A byte of an abstract name, as it is printed.
#[derive(Clone, Copy)]
struct WrittenByte(u8);

impl Display for WrittenByte {
    ghost output = { λ byte. Some (written_byte byte.0) };

    fn fmt<W: Write>(&self, f: &mut Formatter<W>) -> fmt::Result {
        match self.0 {
            b'\t' => f.write_str("\\t"),
            b'\r' => f.write_str("\\r"),
            b'\n' => f.write_str("\\n"),
            b'\'' => f.write_str("\\'"),
            b'"' => f.write_str("\\\""),
            b'\\' => f.write_str("\\\\"),
            b' '..=b'~' => f.write_char(self.0 as char),
            _ => {
                f.write_str("\\x")?;
                f.write(HexByte(self.0))
            }
        }
    }
}

/// The bytes of an abstract name, as they are printed.
#[derive(Clone, Copy)]
pub struct Escaped<'a>(pub &'a [u8]);

impl Display for Escaped<'_> {
    ghost output = { λ bytes. Some (escaped bytes.0.now) };

    fn fmt<W: Write>(&self, f: &mut Formatter<W>) -> fmt::Result {
        for byte in self.0 {
            f.write(WrittenByte(*byte))?;
        }
        Ok(())
    }
}
