//! Escape sequences of terminals.
ghost use Rattle.std.specs.Prelude.{◌≡◌, ◌≤◌, ◌++◌, ◌∷◌, IfOk, IfSome, length};
ghost use Rattle.sc_client.specs.Escapes.{control, filtered, last_byte, leading, sequence, skipped};

use sc_entry::{ByteText, NoMemory};
use std::alloc::Global;

const ESCAPE: u8 = 27;

/// How many bytes at the front are at least `low` and at most `high`.
fn leading(low: u8, high: u8, bytes: &[u8]) -> usize
    ensures value { result ≡ leading low high bytes.now }
    ensures within { result ≤ length bytes.now }
{
    let mut count = 0;
    let mut left = bytes;
    while let [byte, rest @ ..] = left {
        if *byte < low || high < *byte {
            return count;
        }
        count += 1;
        left = rest;
    }
    count
}

/// How many bytes end a control sequence: one, none where the end cuts it off.
fn last_byte(left: &[u8]) -> Option<usize>
    ensures value { result ≡ last_byte left.now }
    ensures within { IfSome result (λ n. n ≤ length left.now) }
{
    match left {
        [] => Some(0),
        [0x40..=0x7e, ..] => Some(1),
        [_, ..] => None,
    }
}

/// How many bytes behind `ESC [` belong to their sequence, if it is one: parameters, then intermediates, then the last.
fn control(bytes: &[u8]) -> Option<usize>
    ensures value { result ≡ control bytes.now }
    ensures within { IfSome result (λ n. n ≤ length bytes.now) }
{
    let parameters = leading(0x30, 0x3f, bytes);
    let left = &bytes[parameters..];
    let intermediates = leading(0x20, 0x2f, left);
    let last = last_byte(&left[intermediates..])?;
    Some(parameters + intermediates + last)
}

/// How many bytes behind an ESC belong to its sequence, if it begins one.
fn sequence(bytes: &[u8]) -> Option<usize>
    ensures value { result ≡ sequence bytes.now }
    ensures within { IfSome result (λ n. n ≤ length bytes.now) }
{
    match bytes {
        [] => Some(0),
        [b'[', rest @ ..] => {
            let count = control(rest)?;
            Some(1 + count)
        }
        [0x40..=0x5f, ..] => Some(1),
        [_, ..] => None,
    }
}

/// How many bytes go behind a byte that goes itself; none where it stands.
fn skipped(byte: u8, rest: &[u8]) -> Option<usize>
    ensures value { result ≡ skipped byte rest.now }
    ensures within { IfSome result (λ n. n ≤ length rest.now) }
{
    if byte == ESCAPE {
        return sequence(rest);
    }
    None
}

/// Keeps the next byte, unless it begins a sequence, which goes. What is left behind is still to be filtered.
fn keep_next<'a>(kept: &mut ByteText, byte: u8, rest: &'a [u8]) -> Result<&'a [u8], NoMemory>
    ensures value { IfOk result (λ left. kept.new ++ filtered left.now ≡ kept.old ++ filtered (byte ∷ rest.now)) }
    ensures shorter { IfOk result (λ left. length left.now ≤ length rest.now) }
{
    match skipped(byte, rest) {
        Some(count) => Ok(&rest[count..]),
        None => {
            kept.push(byte)?;
            Ok(rest)
        }
    }
}

/// Some bytes without what only a terminal reads. It drops ESC, `[`, any bytes 0x30 to 0x3f, any bytes 0x20 to 0x2f and one
/// byte of 0x40 to 0x7e; ESC and one byte of 0x40 to 0x5f other than `[`; and one of these that the end cuts off. An ESC that
/// begins none of them stands.
pub fn filter_escapes(alloc: Global, bytes: &[u8]) -> Result<ByteText, NoMemory>
    ensures { IfOk result (λ kept. kept ≡ filtered bytes.now) }
{
    let mut kept = ByteText::new(alloc);
    let mut left = bytes;
    while let [byte, rest @ ..] = left {
        left = keep_next(&mut kept, *byte, rest)?;
    }
    Ok(kept)
}
