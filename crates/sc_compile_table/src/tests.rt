ghost use Rattle.std.specs.Prelude.{◌≡◌};

use crate::{Book, Keyed, Table};
use sc_entry::ByteText;
use std::alloc::Global;
use std::process::Abort;
use std::test::Fail;

/// A value with a key.
#[derive(Drop)]
struct Entry {
    key: ByteText,
    number: usize,
}

impl Keyed for Entry {
    ghost key = { λ e. e.key };

    fn key(&self) -> &ByteText {
        &self.key
    }
}

/// The numbers 0, 1, .. under these keys.
fn numbered(alloc: Global, keys: &[&[u8]]) -> Result<Vec<Entry>, Fail> {
    let mut entries = Vec::new(alloc);
    for key in keys {
        let number = entries.len();
        let key = ByteText::from_slice(alloc, key)?;
        entries.push(Entry { key, number })?;
    }
    Ok(entries)
}

/// The number of the first value with a key.
fn first_number(alloc: Global, table: &Table<Entry>, key: &[u8]) -> Result<Option<usize>, Fail> {
    let key = ByteText::from_slice(alloc, key)?;
    match table.first(&key) {
        None => Ok(None),
        Some(entry) => Ok(Some(entry.number)),
    }
}

#[test]
fn the_first_of_each_key_is_found(rt: HostRuntime) -> Result<(), Fail> {
    let entries = numbered(rt.alloc(), &[b"b", b"a", b"b", b"", b"a"])?;
    let table = Table::new(rt.alloc(), entries)?;
    let cases = [
        (b"a".as_slice(), Some(1)),
        (b"b", Some(0)),
        (b"", Some(3)),
        (b"c", None),
    ];
    for (key, number) in cases {
        assert_eq!(rt; first_number(rt.alloc(), &table, key)?, number);
    }
    assert_eq!(rt; table.as_slice().len(), 5);
    Ok(())
}

/// The number that the next answer under a key takes; it is kept as the answer.
fn take(
    alloc: Global,
    book: &mut Book<Entry, Option<usize>>,
    key: &[u8],
) -> Result<Option<usize>, Fail> {
    let key = ByteText::from_slice(alloc, key)?;
    let number = book.next(&key).map(|entry| entry.number);
    book.keep(&key, number)?;
    Ok(number)
}

#[test]
fn the_values_of_a_key_are_taken_in_turn(rt: HostRuntime) -> Result<(), Fail> {
    let entries = numbered(rt.alloc(), &[b"a", b"b", b"a"])?;
    let mut book = Book::new(rt.alloc(), entries)?;
    let cases = [
        (b"a".as_slice(), Some(0)),
        (b"a", Some(2)),
        (b"c", None),
        (b"b", Some(1)),
        (b"a", Some(2)),
    ];
    for (key, number) in cases {
        assert_eq!(rt; take(rt.alloc(), &mut book, key)?, number);
    }
    assert_eq!(rt; book.done_count(), 5);
    Ok(())
}
