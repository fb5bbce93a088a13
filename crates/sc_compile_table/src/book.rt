//! Values by key that are taken in turn.
ghost use Rattle.std.specs.Prelude.{◌≡◌, ◌+◌, ◌-◌, ◌^◌, ◌++◌, ◌∷◌, [], if◌then◌else◌, cond, min, length, None, IfOk, OnOk, OnErr, ℕ, List};
ghost use Rattle.std.specs.BTreeMap.{get};
ghost use Rattle.std.specs.Cmp.Lexicographic.{slice_cmp};
ghost use Rattle.std.specs.Option.{option_copied};
ghost use Rattle.std.specs.Ordering.{is_eq, nat_cmp};
ghost use Rattle.std.specs.Str.{bytes_eq};
ghost use Rattle.sc_compile_table.specs.Books.{IsBook, count_of, next_of, next_value, places_at, places_from, taken_at};

use crate::keyed::Keyed;
use sc_entry::{ByteText, NoMemory};
use std::alloc::Global;
use std::collections::BTreeMap;
use std::marker::Model;

/// Values by key that are taken in turn: the nth answer under a key takes the key's nth value, and later ones take the last.
/// Contracts see it as its values, and what was answered under which key.
#[derive(Drop)]
pub struct Book<T: Keyed, A> {
    values: Vec<T>,
    done: Vec<(ByteText, A)>,
    /// Where each key's values stand.
    places: BTreeMap<ByteText, Vec<usize>>,
    /// How often each key was answered.
    taken: BTreeMap<ByteText, usize>,
}

impl<T: Keyed, A> Model for Book<T, A> {
    ghost use Rattle.sc_compile_table.specs.Books.{IsBook, Turns};

    ghost Value = { Turns T A };

    ghost view = { λ b. record { values = b.values.items; done = b.done.items } };

    ghost invariant = { λ b. IsBook T.key b.values.items b.done.items b.places b.taken };
}

/// Takes out the places of a key.
fn take_places(
    alloc: Global,
    places: &mut BTreeMap<ByteText, Vec<usize>>,
    key: &ByteText,
) -> Vec<usize>
    ensures taken { result.items ≡ places_at places.old key.now }
    ensures left { (other : List ℕ) → get (slice_cmp nat_cmp) places.new other ≡ cond (is_eq (slice_cmp nat_cmp key.now other)) None (get (slice_cmp nat_cmp) places.old other) }
{
    match places.remove(key) {
        None => Vec::new(alloc),
        Some(taken) => taken,
    }
}

/// One place more of a key.
fn add_place(
    alloc: Global,
    places: &mut BTreeMap<ByteText, Vec<usize>>,
    key: &ByteText,
    place: usize,
) -> Result<(), NoMemory>
    ensures { OnOk result ((other : List ℕ) → places_at places.new other ≡ (if bytes_eq key.now other then places_at places.old other ++ place ∷ [] else places_at places.old other)) }
{
    let mut list = take_places(alloc, places, key);
    list.push(place)?;
    let key = key.try_clone()?;
    places.insert(key, list)?;
    Ok(())
}

/// The places of each key's values.
fn places_of<T: Keyed>(
    alloc: Global,
    values: &[T],
) -> Result<BTreeMap<ByteText, Vec<usize>>, NoMemory>
    ensures { IfOk result (λ places. (key : List ℕ) → places_at places key ≡ places_from T.key key 0 values.now) }
{
    let mut places = BTreeMap::new(alloc);
    let mut place = 0;
    let mut left = values;
    while let [value, rest @ ..] = left {
        add_place(alloc, &mut places, value.key(), place)?;
        place += 1;
        left = rest;
    }
    Ok(places)
}

/// The places of a key's values.
fn places_at<'a>(places: &'a BTreeMap<ByteText, Vec<usize>>, key: &ByteText) -> &'a [usize]
    ensures { result.now ≡ places_at places.now key.now }
{
    match places.get(key) {
        None => &[],
        Some(places) => places.as_slice(),
    }
}

/// How often a key was answered.
fn taken_at(taken: &BTreeMap<ByteText, usize>, key: &ByteText) -> usize
    ensures { result ≡ taken_at taken.now key.now }
{
    taken.get(key).copied().unwrap_or(0)
}

/// The place after so many; behind the last, the last.
fn next_place(places: &[usize], taken: usize) -> Option<usize>
    ensures { result ≡ next_of taken places.now }
{
    if taken < places.len() {
        return Some(places[taken]);
    }
    places.last().copied()
}

/// One answer more under a key. The count stops at the end of `usize`.
fn count_one(taken: &mut BTreeMap<ByteText, usize>, key: &ByteText) -> Result<(), NoMemory>
    ensures ok { OnOk result ((other : List ℕ) → taken_at taken.new other ≡ (if bytes_eq key.now other then min (taken_at taken.old key.now + 1) (2 ^ 64 - 1) else taken_at taken.old other)) }
    ensures err { OnErr result ((other : List ℕ) → taken_at taken.new other ≡ taken_at taken.old other) }
{
    let more = taken_at(taken, key).saturating_add(1);
    let key = key.try_clone()?;
    taken.insert(key, more)?;
    Ok(())
}

/// One answer more, counted beside the list.
fn keep_answer<A: Drop>(
    done: &mut Vec<(ByteText, A)>,
    taken: &mut BTreeMap<ByteText, usize>,
    key: &ByteText,
    answer: A,
) -> Result<(), NoMemory>
    requires { (other : List ℕ) → taken_at taken.old other ≡ count_of other done.old.items }
    ensures counted { (other : List ℕ) → taken_at taken.new other ≡ count_of other done.new.items }
    ensures ok { OnOk result (done.new.items ≡ done.old.items ++ (key.now, answer) ∷ []) }
    ensures err { OnErr result (done.new.items ≡ done.old.items) }
{
    done.push((key.try_clone()?, answer))?;
    let _ended = done.len();
    match count_one(taken, key) {
        Ok(()) => Ok(()),
        Err(refused) => {
            let _answer = done.pop();
            Err(refused)
        }
    }
}

impl<T: Keyed + Drop, A: Drop> Book<T, A> {
    /// A book of these values, in which nothing was answered.
    pub fn new(alloc: Global, values: Vec<T>) -> Result<Book<T, A>, NoMemory>
        ensures { IfOk result (λ book. book ≡ record { values = values.items; done = [] }) }
    {
        let places = places_of(alloc, values.as_slice())?;
        Ok(Book {
            values,
            done: Vec::new(alloc),
            places,
            taken: BTreeMap::new(alloc),
        })
    }

    /// How many answers were kept.
    pub fn done_count(&self) -> usize
        ensures { result ≡ length self.now.done }
    {
        self.done.len()
    }

    /// The value that the next answer under a key takes.
    pub fn next(&self, key: &ByteText) -> Option<&T>
        ensures { option_copied result ≡ next_value T.key key.now self.now.values self.now.done }
    {
        let taken = taken_at(&self.taken, key);
        match next_place(places_at(&self.places, key), taken) {
            None => None,
            Some(place) => Some(&self.values[place]),
        }
    }

    /// Keeps what was answered under a key.
    pub fn keep(&mut self, key: &ByteText, answer: A) -> Result<(), NoMemory>
        ensures ok { OnOk result (self.new ≡ record self.old { done = self.old.done ++ (key.now, answer) ∷ [] }) }
        ensures err { OnErr result (self.new ≡ self.old) }
    {
        keep_answer(&mut self.done, &mut self.taken, key, answer)
    }
}
