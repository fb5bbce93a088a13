//! Statuses, tokens and variables.
use sc_command::{Client, Variables, exit_status};
use sc_entry::{ByteText, NoMemory};
use std::alloc::Global;
use std::os::unix::process::ExitStatusExt;
use std::sync::Wait;
use std::sync::atomic::{AtomicU64, Ordering};
use std::test::Fail;
use std::thread;

#[test]
fn statuses(rt: HostRuntime) -> Result<(), Fail> {
    for (value, code, signal) in [(256, Some(1), None), (9, None, Some(9)), (127, None, None)] {
        assert_eq!(rt; exit_status(value).code(), code, "code of {value}");
        assert_eq!(rt; exit_status(value).signal(), signal, "signal of {value}");
    }
    Ok(())
}

#[test]
fn all_low_statuses(rt: HostRuntime) -> Result<(), Fail> {
    for value in 0..65536 {
        let low = value % 128;
        let status = exit_status(value);
        let code = (low == 0).then_some(value / 256);
        let signal = (low != 0 && low != 127).then_some(low);
        assert_eq!(rt; status.code(), code, "code of {value}");
        assert_eq!(rt; status.signal(), signal, "signal of {value}");
    }
    Ok(())
}

fn has_free<R: Wait>(rt: &R, client: &Client) -> bool {
    client.try_acquire(rt).is_some()
}

/// Whether a client gives two tokens, and another once one of them is given back.
fn gives_two<R: Wait>(rt: &R, client: &Client) -> bool {
    let first = client.acquire(rt);
    let second = client.try_acquire(rt);
    let are_two = second.is_some() && !has_free(rt, client);
    drop(first);
    let is_back = has_free(rt, client);
    drop(second);
    are_two && is_back
}

#[test]
fn ample_new_num(rt: HostRuntime) -> Result<(), Fail> {
    let client = Client::new_num(rt.alloc(), 2)?;
    assert!(rt; gives_two(&rt, &client));
    Ok(())
}

/// Whether the one token of a client is held by who took it of a clone, and is free again after that.
fn gives_by_clone<R: Wait + Copy + Drop>(rt: R, client: &Client) -> Result<bool, Fail> {
    let other = client.try_clone()?;
    let token = other.acquire_owned(rt);
    let is_held = !has_free(&rt, client);
    drop(token);
    Ok(is_held && has_free(&rt, client))
}

#[test]
fn ample_try_clone(rt: HostRuntime) -> Result<(), Fail> {
    let client = Client::new(rt.alloc(), 1)?;
    assert!(rt; gives_by_clone(rt, &client)?);
    Ok(())
}

/// How often a thread takes the one token.
const TURNS: u64 = 5000;

/// Takes the token again and again, and answers how often it saw another that had it too.
fn take_turns<R: Wait>(rt: &R, client: &Client, holders: &AtomicU64) -> u64 {
    let mut doubled = 0u64;
    for _ in 0..TURNS {
        let token = client.acquire(rt);
        if holders.fetch_add(1, Ordering::SeqCst) != 0 {
            doubled = doubled.saturating_add(1);
        }
        holders.fetch_sub(1, Ordering::SeqCst);
        drop(token);
    }
    doubled
}

#[test]
fn two_threads_and_one_token(rt: HostRuntime) -> Result<(), Fail> {
    let client = Client::new(rt.alloc(), 1)?;
    let holders = AtomicU64::new(0);
    let (mine, theirs) = thread::join(
        &rt,
        || take_turns(&rt, &client, &holders),
        || take_turns(&rt, &client, &holders),
    );
    assert!(rt; mine == 0 && theirs == 0 && has_free(&rt, &client));
    Ok(())
}

/// A variable with its value.
fn pair_of(alloc: Global, name: &str, value: &str) -> Result<(ByteText, ByteText), NoMemory> {
    let name = ByteText::from_slice(alloc, name.as_bytes())?;
    let value = ByteText::from_slice(alloc, value.as_bytes())?;
    Ok((name, value))
}

fn pairs_of(
    alloc: Global,
    rows: &[(&'static str, &'static str)],
) -> Result<Vec<(ByteText, ByteText)>, Fail> {
    let mut pairs = Vec::new(alloc);
    for (name, value) in rows {
        pairs.push(pair_of(alloc, name, value)?)?;
    }
    Ok(pairs)
}

/// How many variables there are once these are set.
fn number_set(alloc: Global, pairs: &[(ByteText, ByteText)]) -> Result<usize, Fail> {
    let mut variables = Variables::new(alloc);
    variables.set_all(pairs)?;
    Ok(variables.len())
}

/// How many variables there are once three are set, two of them of one name.
fn number_of_three(alloc: Global) -> Result<usize, Fail> {
    let pairs = pairs_of(alloc, &[("A", "1"), ("B", "2"), ("A", "3")])?;
    number_set(alloc, &pairs)
}

#[test]
fn ample_set_all(rt: HostRuntime) -> Result<(), Fail> {
    assert_eq!(rt; number_of_three(rt.alloc())?, 2);
    Ok(())
}
