use sc_daemon_ranked::RankedList;
use std::alloc::AllocError;
use std::test::Fail;

type Numbers = RankedList<u64>;

// Whether the list has these values at their places, and no more.
fn has(list: &Numbers, values: &[u64]) -> bool {
    for (place, value) in values.iter().enumerate() {
        if list.get(place).copied() != Some(*value) {
            return false;
        }
    }
    list.len() == values.len()
        && list.is_empty() == values.is_empty()
        && list.get(values.len()) == None
}

fn write(list: &mut Numbers, place: usize, value: u64) {
    if let Some(at) = list.get_mut(place) {
        *at = value;
    }
}

// The next number of a sequence that looks random.
fn draw(state: &mut u64, below: u64) -> u64 {
    *state = state
        .wrapping_mul(6364136223846793005)
        .wrapping_add(1442695040888963407);
    (*state >> 33).checked_rem(below).unwrap_or(0)
}

// Makes a call on both, and says whether they answer the same.
fn call_both(
    list: &mut Numbers,
    values: &mut Vec<u64>,
    kind: u64,
    place: usize,
    round: u64,
) -> Result<bool, AllocError> {
    match kind {
        0 if place < values.len() => Ok(list.remove(place) == Some(values.remove(place))),
        1 => {
            write(list, place, round);
            if let Some(value) = values.get_mut(place) {
                *value = round;
            }
            Ok(true)
        }
        _ => {
            list.push_back(round)?;
            values.push(round)?;
            Ok(true)
        }
    }
}

// Whether the list has the values of the `Vec` after each of the calls on both.
fn agrees(list: &mut Numbers, values: &mut Vec<u64>) -> Result<bool, AllocError> {
    let mut state = 1u64;
    for round in 0..2000u64 {
        let place = draw(&mut state, 40) as usize;
        let kind = draw(&mut state, 4);
        let same = call_both(list, values, kind, place, round)?;
        if !same || !has(list, values.as_slice()) {
            return Ok(false);
        }
    }
    Ok(true)
}

// A `Vec` on which the same calls are made.
#[test]
fn agrees_with_a_vec(rt: HostRuntime) -> Result<(), Fail> {
    let mut values = Vec::new(rt.alloc());
    let mut list = RankedList::new(rt.alloc());
    assert!(rt; agrees(&mut list, &mut values)?);
    Ok(())
}

// Adds the number of the values before, and says whether it found memory, or the list stayed until it did.
fn adds(list: &mut Numbers, value: u64) -> Result<bool, AllocError> {
    if list.push_back(value).is_ok() {
        return Ok(true);
    }
    let stayed = list.len() as u64 == value;
    list.push_back(value)?;
    Ok(stayed)
}

// Whether each of twenty values is added, at once or at the second call.
fn adds_all(list: &mut Numbers) -> Result<bool, AllocError> {
    for value in 0..20u64 {
        if !adds(list, value)? {
            return Ok(false);
        }
    }
    Ok(list.len() == 20 && list.get(19).copied() == Some(19))
}

// A value that finds no memory is dropped, and the list stays. Run with one allocation after another refused.
#[test]
fn stays_where_memory_ends(rt: HostRuntime) -> Result<(), Fail> {
    let mut list = RankedList::new(rt.alloc());
    assert!(rt; adds_all(&mut list)?);
    Ok(())
}
