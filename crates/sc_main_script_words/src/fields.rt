//! What a word says.
ghost use Rattle.std.specs.Prelude.{◌≡◌, ◌<◌, ◌≤◌, List, ℕ, [], true, IfOk, IfSome, length};
ghost use Rattle.std.specs.List.{list_all};
ghost use Rattle.std.specs.Option.{option_map};
ghost use Rattle.std.specs.Str.{is_utf8};
ghost use Rattle.sc_entry.specs.Keys.{is_key_byte, are_key_bytes, is_store_key};
ghost use Rattle.sc_words.specs.Words.{Means};
ghost use Rattle.sc_main_script_words.specs.Fields.{digits_onto, number_of, number_in, stands, hex_digit, byte_of, bytes_onto, escape_onto, bytes_after, bytes_of_token, text_of_bytes, text_of_token, store_key_of, pair_of, variable_of, is_object_name, object_of, status_of, hex_of};

use hex::FromHexError;
use sc_entry::{ByteText, Object, Text};
use sc_model::{Status, Variable};
use sc_words::{WordsError, cut};
use std::alloc::Global;

fn digits(number: u64, word: &[u8]) -> Option<u64>
    ensures { result ≡ digits_onto number word.now }
{
    match word {
        [] => Some(number),
        [c, rest @ ..] => {
            if !c.is_ascii_digit() {
                return None;
            }
            let tens = number.checked_mul(10)?;
            let more = tens.checked_add(u64::from(*c - b'0'))?;
            digits(more, rest)
        }
    }
}

/// A number below 2^64 in decimal, without needless zeros.
///
/// # Errors
///
/// `Malformed` where the word is none.
#[tactic(auto, unfolding(crate::specs::Fields::number_of))]
pub fn number(word: &[u8]) -> Result<u64, WordsError>
    ensures { Means (number_of word.now) result }
{
    if let [b'0', _, ..] = word {
        return Err(WordsError::Malformed);
    }
    if word.is_empty() {
        return Err(WordsError::Malformed);
    }
    match digits(0, word) {
        None => Err(WordsError::Malformed),
        Some(number) => Ok(number),
    }
}

/// A number from `low` to `high`, both included.
///
/// # Errors
///
/// `Malformed` where the word is none.
#[tactic(auto, unfolding(crate::specs::Fields::number_in))]
pub fn number_within(low: u64, high: u64, word: &[u8]) -> Result<u64, WordsError>
    ensures read { Means (number_in low high word.now) result }
    ensures within { IfOk result (λ n. (low ≤ n) × (n ≤ high)) }
{
    let number = number(word)?;
    if low <= number && number <= high {
        return Ok(number);
    }
    Err(WordsError::Malformed)
}

/// Whether a byte stands for itself in a token.
pub fn stands_for_itself(byte: u8) -> bool
    ensures { result ≡ stands byte }
{
    33 <= byte && byte <= 126 && byte != b'\\'
}

fn all_stand(bytes: &[u8]) -> bool
    ensures { result ≡ list_all stands bytes.now }
{
    bytes.iter().all(|byte| stands_for_itself(*byte))
}

/// The bytes of a token without an escape, which are its own.
fn copied(alloc: Global, word: &[u8]) -> Result<ByteText, WordsError>
    requires { list_all stands word.now ≡ true }
    ensures { Means (bytes_onto [] word.now) result }
{
    match ByteText::from_slice(alloc, word) {
        Ok(bytes) => Ok(bytes),
        Err(_) => Err(WordsError::NoMemory),
    }
}

fn hex_digit(byte: u8) -> Option<u8>
    ensures value { result ≡ hex_digit byte }
    ensures small { IfSome result (λ d. d < 16) }
{
    match byte {
        b'0'..=b'9' => Some(byte - b'0'),
        b'a'..=b'f' => Some(byte - b'a' + 10),
        _ => None,
    }
}

fn byte_of(high: u8, low: u8) -> Option<u8>
    ensures { result ≡ byte_of high low }
{
    let high = hex_digit(high)?;
    let low = hex_digit(low)?;
    Some(16 * high + low)
}

/// The byte that an escape stands for, and the text behind the escape.
fn escape(first: u8, text: &[u8]) -> Option<(u8, &[u8])>
    ensures value { (sofar : List ℕ) → bytes_after sofar (option_map (λ p. (p.0, p.1.now)) result) ≡ escape_onto sofar first text.now }
    ensures shorter { IfSome result (λ p. length p.1.now < length text.now) }
{
    match text {
        [x, high, low, rest @ ..] => {
            if first != b'\\' || *x != b'x' {
                return None;
            }
            let byte = byte_of(*high, *low)?;
            Some((byte, rest))
        }
        _ => None,
    }
}

/// The bytes of a token in which some byte may be an escape.
fn unescaped(alloc: Global, word: &[u8]) -> Result<ByteText, WordsError>
    ensures { Means (bytes_onto [] word.now) result }
{
    let mut bytes = ByteText::new(alloc);
    let mut left = word;
    while let [first, rest @ ..] = left {
        if stands_for_itself(*first) {
            bytes.push(*first)?;
            left = rest;
            continue;
        }
        match escape(*first, rest) {
            None => return Err(WordsError::Malformed),
            Some((byte, after)) => {
                bytes.push(byte)?;
                left = after;
            }
        }
    }
    Ok(bytes)
}

/// The bytes of a token, in which a byte stands for itself or is an escape. A lone dash is no bytes.
///
/// # Errors
///
/// `Malformed` where the word is no token.
#[tactic(auto, unfolding(crate::specs::Fields::bytes_of_token))]
pub fn token(alloc: Global, word: &[u8]) -> Result<ByteText, WordsError>
    ensures { Means (bytes_of_token word.now) result }
{
    if word.is_empty() {
        return Err(WordsError::Malformed);
    }
    if word == b"-".as_slice() {
        return Ok(ByteText::new(alloc));
    }
    // Most tokens have no escape, and are copied at once.
    if all_stand(word) {
        return copied(alloc, word);
    }
    unescaped(alloc, word)
}

/// Bytes that are UTF-8, as a text.
#[tactic(auto, unfolding(crate::specs::Fields::text_of_bytes))]
pub fn text_of(alloc: Global, bytes: &[u8]) -> Result<Text, WordsError>
    ensures { Means (text_of_bytes bytes.now) result }
{
    match std::str::from_utf8(bytes) {
        Ok(text) => {
            let text = Text::from_str(alloc, text)?;
            Ok(text)
        }
        Err(_) => Err(WordsError::Malformed),
    }
}

/// A token whose bytes are UTF-8.
///
/// # Errors
///
/// `Malformed` where the word is none.
#[tactic(auto, unfolding(crate::specs::Fields::text_of_token))]
pub fn text_token(alloc: Global, word: &[u8]) -> Result<Text, WordsError>
    ensures { Means (text_of_token word.now) result }
{
    let bytes = token(alloc, word)?;
    let text = text_of(alloc, bytes.as_slice())?;
    Ok(text)
}

fn is_key_byte(byte: u8) -> bool
    ensures { result ≡ is_key_byte byte }
{
    byte.is_ascii_alphanumeric() || byte == b'-' || byte == b'_'
}

fn are_key_bytes(bytes: &[u8]) -> bool
    ensures { result ≡ are_key_bytes bytes.now }
{
    let mut left = bytes;
    while let [first, rest @ ..] = left {
        if !is_key_byte(*first) {
            return false;
        }
        left = rest;
    }
    true
}

fn is_store_key(key: &[u8]) -> bool
    ensures { result ≡ is_store_key key.now }
{
    key.len() > 2 && are_key_bytes(key)
}

/// A token whose bytes are a store key.
///
/// # Errors
///
/// `Malformed` where the word is none.
#[tactic(auto, unfolding(crate::specs::Fields::store_key_of))]
pub fn store_key(alloc: Global, word: &[u8]) -> Result<Text, WordsError>
    ensures { Means (store_key_of word.now) result }
{
    let key = text_token(alloc, word)?;
    if is_store_key(key.as_bytes()) {
        return Ok(key);
    }
    Err(WordsError::Malformed)
}

/// A token whose bytes are a name, the first `=`, and data.
#[tactic(auto, unfolding(crate::specs::Fields::pair_of))]
fn pair(alloc: Global, word: &[u8]) -> Result<(ByteText, ByteText), WordsError>
    ensures { Means (pair_of word.now) result }
{
    let bytes = token(alloc, word)?;
    match cut(bytes.as_slice(), b'=') {
        None => Err(WordsError::Malformed),
        Some((name, value)) => {
            let name = ByteText::from_slice(alloc, name)?;
            let value = ByteText::from_slice(alloc, value)?;
            Ok((name, value))
        }
    }
}

/// A variable: a pair whose name may be any bytes.
#[tactic(auto, unfolding(crate::specs::Fields::variable_of))]
pub fn variable(alloc: Global, word: &[u8]) -> Result<Variable, WordsError>
    ensures { Means (variable_of word.now) result }
{
    let (name, value) = pair(alloc, word)?;
    Ok(Variable { name, value })
}

fn is_object_name(name: &[u8]) -> bool
    ensures { result ≡ is_object_name name.now }
{
    !name.is_empty()
        && name.len() <= 65535
        && name != b"stdout".as_slice()
        && name != b"stderr".as_slice()
}

/// An object that a run leaves: a pair whose name is a text that may name one.
#[tactic(auto, unfolding(crate::specs::Fields::object_of))]
pub fn object(alloc: Global, word: &[u8]) -> Result<Object, WordsError>
    ensures { Means (object_of word.now) result }
{
    let (name, bytes) = pair(alloc, word)?;
    let name = text_of(alloc, name.as_slice())?;
    if is_object_name(name.as_bytes()) {
        return Ok(Object {
            name,
            mode: None,
            bytes,
        });
    }
    Err(WordsError::Malformed)
}

/// How a compiler ended: a code, or an `s` and a signal.
#[tactic(auto, unfolding(crate::specs::Fields::status_of))]
pub fn status(word: &[u8]) -> Result<Status, WordsError>
    ensures { Means (status_of word.now) result }
{
    if let [b's', signal @ ..] = word {
        let signal = number_within(1, 126, signal)?;
        return Ok(Status::Signal(signal as u8));
    }
    if word.is_empty() {
        return Err(WordsError::Malformed);
    }
    let code = number_within(0, 255, word)?;
    Ok(Status::Code(code as u8))
}

/// Hexadecimal digits of either case, of one byte at least.
///
/// # Errors
///
/// `Malformed` where the word is none.
#[tactic(auto, unfolding(crate::specs::Fields::hex_of))]
pub fn hex_bytes(alloc: Global, word: &[u8]) -> Result<ByteText, WordsError>
    ensures { Means (hex_of word.now) result }
{
    if word.is_empty() {
        return Err(WordsError::Malformed);
    }
    match hex::decode(alloc, word) {
        Ok(bytes) => Ok(ByteText::from_vec(bytes)),
        Err(FromHexError::OutOfMemory) => Err(WordsError::NoMemory),
        Err(_) => Err(WordsError::Malformed),
    }
}
