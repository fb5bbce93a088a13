use sc_clock::{Clock, HostClock, MemClock};
use sc_entry::{Items, NoMemory};
use std::test::Fail;

/// Whether a clock tells these moments in turn, with a pause before each.
fn tells<C: Clock>(clock: &mut C, moments: &[u64]) -> Result<bool, NoMemory> {
    let mut pause = 0u64;
    let mut same = true;
    for moment in moments {
        pause = pause.saturating_add(500);
        clock.pause(pause)?;
        same = same && clock.now() == *moment;
    }
    Ok(same)
}

#[test]
fn ample_pause(rt: HostRuntime) -> Result<(), Fail> {
    let moments = Items::from_vec([5, 3, 9].to_vec(rt.alloc())?);
    let mut clock = MemClock::new(rt.alloc(), moments);
    assert!(rt; tells(&mut clock, &[5, 3, 9, 9, 9])?);
    assert_eq!(rt; clock.pauses(), [500, 1000, 1500, 2000, 2500].as_slice());
    Ok(())
}

#[test]
fn no_moment_is_moment_0(rt: HostRuntime) -> Result<(), Fail> {
    let mut clock = MemClock::new(rt.alloc(), Items::new(rt.alloc()));
    assert!(rt; tells(&mut clock, &[0, 0])?);
    Ok(())
}

/// The year 2020 began then, in nanoseconds since 1970.
const YEAR_2020: u64 = 1_577_836_800_000_000_000;

/// Whether a clock tells moments of today that don't fall, and are further apart over a pause of two milliseconds. The host
/// may set its clock meanwhile, so that one of the two is enough.
fn goes_on<C: Clock>(clock: &mut C) -> Result<bool, NoMemory> {
    let first = clock.now();
    let second = clock.now();
    clock.pause(2_000_000)?;
    let third = clock.now();
    Ok(first > YEAR_2020 && first <= second && third.saturating_sub(second) >= 1_000_000)
}

#[test]
fn host_clock(rt: HostRuntime) -> Result<(), Fail> {
    let mut clock = HostClock::new(rt);
    assert!(rt; goes_on(&mut clock)?);
    Ok(())
}
