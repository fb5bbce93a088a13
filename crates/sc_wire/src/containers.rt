//! Options, pairs, bytes, texts, lists and results, as they travel.
ghost use Rattle.std.specs.Prelude.{◌≡◌, ◌++◌, OnOk, IfOk, IfErr, IsTrue, false};
ghost use Rattle.std.specs.Str.{is_utf8};
ghost use Rattle.sc_wire.specs.Codec.{◌&◌};
ghost use Rattle.sc_wire.specs.Gives.{Gives, IfBadFrame};
ghost use Rattle.sc_wire.specs.Lists.{optional, list, byte_text, text, read_many, spell_all, FitAll};
ghost use Rattle.sc_wire.specs.Variants.{result as result_codec};

use crate::error::DecodeError;
use crate::reader::Reader;
use crate::wire::Wire;
use sc_entry::{ByteText, Items, NoMemory, Text};
use std::alloc::Global;

impl<T: Wire> Wire for Option<T> {
    ghost codec = { optional T.codec };

    fn take(alloc: Global, reader: &mut Reader) -> Result<Option<T>, DecodeError> {
        if bool::take(alloc, reader)? {
            Ok(Some(T::take(alloc, reader)?))
        } else {
            Ok(None)
        }
    }

    fn put(&self, out: &mut Vec<u8>) -> Result<(), NoMemory> {
        match self {
            Some(value) => {
                true.put(out)?;
                value.put(out)
            }
            None => false.put(out),
        }
    }
}

impl<A: Wire + Drop, B: Wire> Wire for (A, B) {
    ghost codec = { A.codec & B.codec };

    fn take(alloc: Global, reader: &mut Reader) -> Result<(A, B), DecodeError> {
        let first = A::take(alloc, reader)?;
        let second = B::take(alloc, reader)?;
        Ok((first, second))
    }

    fn put(&self, out: &mut Vec<u8>) -> Result<(), NoMemory> {
        self.0.put(out)?;
        self.1.put(out)
    }
}

impl Wire for ByteText {
    ghost codec = { byte_text };

    fn take(alloc: Global, reader: &mut Reader) -> Result<ByteText, DecodeError> {
        let len = u64::take(alloc, reader)?;
        match reader.front(len as usize) {
            Some(front) => Ok(ByteText::from_slice(alloc, front)?),
            None => Err(DecodeError::BadFrame),
        }
    }

    fn put(&self, out: &mut Vec<u8>) -> Result<(), NoMemory> {
        (self.len() as u64).put(out)?;
        out.extend_from_slice(self.as_slice())?;
        Ok(())
    }
}

impl Wire for Text {
    ghost codec = { text };

    fn take(alloc: Global, reader: &mut Reader) -> Result<Text, DecodeError> {
        let len = u64::take(alloc, reader)?;
        match reader.front(len as usize) {
            Some(front) => text_of(alloc, front),
            None => Err(DecodeError::BadFrame),
        }
    }

    fn put(&self, out: &mut Vec<u8>) -> Result<(), NoMemory> {
        let bytes = self.as_str().as_bytes();
        (bytes.len() as u64).put(out)?;
        out.extend_from_slice(bytes)?;
        Ok(())
    }
}

#[tactic(auto, using(crate::proofs::Numbers::utf8_true, crate::proofs::Numbers::utf8_false))]
fn text_of(alloc: Global, bytes: &[u8]) -> Result<Text, DecodeError>
    ensures ok { IfOk result (λ t. (t ≡ bytes.now) × IsTrue (is_utf8 bytes.now)) }
    ensures err { IfErr result (λ e. IfBadFrame e (is_utf8 bytes.now ≡ false)) }
{
    match str::from_utf8(bytes) {
        Ok(text) => Ok(Text::from_string(String::from_str(alloc, text)?)),
        Err(_) => Err(DecodeError::BadFrame),
    }
}

impl<T: Wire + Drop> Wire for Items<T> {
    ghost codec = { list T.codec };

    fn take(alloc: Global, reader: &mut Reader) -> Result<Items<T>, DecodeError> {
        let count = u64::take(alloc, reader)?;
        take_many(alloc, count, reader)
    }

    fn put(&self, out: &mut Vec<u8>) -> Result<(), NoMemory> {
        let items = self.as_slice();
        (items.len() as u64).put(out)?;
        put_many(items, out)
    }
}

fn take_many<T: Wire + Drop>(
    alloc: Global,
    count: u64,
    reader: &mut Reader,
) -> Result<Items<T>, DecodeError>
    ensures { Gives result reader.new (read_many T.codec count reader.old) }
{
    let mut items = Items::new(alloc);
    for _ in 0..count {
        let item = T::take(alloc, reader)?;
        items.push(item)?;
    }
    Ok(items)
}

fn put_many<T: Wire>(items: &[T], out: &mut Vec<u8>) -> Result<(), NoMemory>
    ensures spelled { OnOk result (out.new.items ≡ out.old.items ++ spell_all T.codec items.now) }
    ensures fits { OnOk result (FitAll T.codec items.now) }
{
    for item in items {
        item.put(out)?;
    }
    Ok(())
}

impl<T: Wire, E: Wire> Wire for Result<T, E> {
    ghost codec = { result_codec T.codec E.codec };

    fn take(alloc: Global, reader: &mut Reader) -> Result<Result<T, E>, DecodeError> {
        match u32::take(alloc, reader)? {
            0 => Ok(Ok(Wire::take(alloc, reader)?)),
            1 => Ok(Err(Wire::take(alloc, reader)?)),
            _ => Err(DecodeError::BadFrame),
        }
    }

    fn put(&self, out: &mut Vec<u8>) -> Result<(), NoMemory> {
        match self {
            Ok(value) => {
                0u32.put(out)?;
                value.put(out)
            }
            Err(error) => {
                1u32.put(out)?;
                error.put(out)
            }
        }
    }
}
