//! Words and numbers as they are printed.
ghost use Rattle.std.specs.Prelude.{◌≡◌, ◌<◌, ◌++◌, OnOk, decimal};
ghost use Rattle.sc_main_script_words.specs.Tokens.{digit_text, byte_text, escaped, printed, token_of, line_of};
ghost use Rattle.sc_main_script_words.specs.Numbers.{number_text, named_line};

use crate::fields::stands_for_itself;
use sc_entry::NoMemory;
use sc_words::put;
use std::alloc::Global;

fn digit(digit: u8) -> u8
    requires { digit < 16 }
    ensures { result ≡ digit_text digit }
{
    if digit < 10 { digit + b'0' } else { digit + 87 }
}

fn put_byte(out: &mut Vec<u8>, spaces: bool, byte: u8) -> Result<(), NoMemory>
    ensures { OnOk result (out.new.items ≡ out.old.items ++ byte_text spaces byte) }
{
    if stands_for_itself(byte) || spaces && byte == b' ' {
        out.push(byte)?;
        return Ok(());
    }
    out.extend_from_slice(&[b'\\', b'x', digit(byte / 16), digit(byte % 16)])?;
    Ok(())
}

fn put_escaped(out: &mut Vec<u8>, spaces: bool, bytes: &[u8]) -> Result<(), NoMemory>
    ensures { OnOk result (out.new.items ≡ out.old.items ++ escaped spaces bytes.now) }
{
    let mut left = bytes;
    while let [byte, rest @ ..] = left {
        put_byte(out, spaces, *byte)?;
        left = rest;
    }
    Ok(())
}

#[tactic(auto, unfolding(crate::specs::Tokens::printed))]
pub fn put_printed(out: &mut Vec<u8>, spaces: bool, bytes: &[u8]) -> Result<(), NoMemory>
    ensures { OnOk result (out.new.items ≡ out.old.items ++ printed spaces bytes.now) }
{
    if bytes.is_empty() {
        return put(out, b"-");
    }
    if bytes == b"-".as_slice() {
        return put(out, b"\\x2d");
    }
    put_escaped(out, spaces, bytes)
}

/// Appends bytes as a token.
pub fn put_token(out: &mut Vec<u8>, bytes: &[u8]) -> Result<(), NoMemory>
    ensures { OnOk result (out.new.items ≡ out.old.items ++ token_of bytes.now) }
{
    put_printed(out, false, bytes)
}

/// Appends bytes as a token in which spaces stand for themselves.
pub fn put_line(out: &mut Vec<u8>, bytes: &[u8]) -> Result<(), NoMemory>
    ensures { OnOk result (out.new.items ≡ out.old.items ++ line_of bytes.now) }
{
    put_printed(out, true, bytes)
}

/// Appends a number in decimal.
pub fn put_number(alloc: Global, out: &mut Vec<u8>, number: u64) -> Result<(), NoMemory>
    ensures { OnOk result (out.new.items ≡ out.old.items ++ decimal number) }
{
    let text = number.to_string(alloc)?;
    out.extend_from_slice(text.as_bytes())?;
    Ok(())
}

/// Appends a number in decimal, or a dash where there is none.
#[tactic(auto, unfolding(crate::specs::Numbers::number_text))]
pub fn put_optional(alloc: Global, out: &mut Vec<u8>, number: Option<i32>) -> Result<(), NoMemory>
    ensures { OnOk result (out.new.items ≡ out.old.items ++ number_text number) }
{
    match number {
        None => put(out, b"-"),
        Some(number) => {
            let text = number.to_string(alloc)?;
            out.extend_from_slice(text.as_bytes())?;
            Ok(())
        }
    }
}

/// Appends a line of a name and a number.
pub fn put_named(alloc: Global, out: &mut Vec<u8>, name: &[u8], number: u64) -> Result<(), NoMemory>
    ensures { OnOk result (out.new.items ≡ out.old.items ++ named_line name.now number) }
{
    put(out, name)?;
    put(out, b" ")?;
    put_number(alloc, out, number)?;
    put(out, b"\n")
}
