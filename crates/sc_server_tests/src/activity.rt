use sc_entry::NoMemory;
use sc_server_activity::{
    ActiveInfo, LiveServices, Messages, ServerMessage, ShutdownOrInactive, StopCause, WaitUntilZero,
};
use std::alloc::Global;
use std::sync::Wait;
use std::test::Fail;
use std::thread;

#[test]
fn ample_push(rt: HostRuntime) -> Result<(), Fail> {
    let mut messages = Messages::new(rt.alloc());
    messages.push(ServerMessage::Request)?;
    messages.close();
    messages.push(ServerMessage::Shutdown)?;
    let taken = messages.take_all();
    let both = [ServerMessage::Request, ServerMessage::Shutdown];
    assert!(rt; taken.as_slice() == both.as_slice() && messages.is_closed());
    assert!(rt; messages.take_all().is_empty());
    Ok(())
}

/// Two polls: the first finds messages, the second none.
#[derive(Clone, Copy)]
struct Case {
    idle_time: u64,
    /// The moments of the making, of the first poll and of the second.
    moments: [u64; 3],
    is_closed: bool,
    /// How many messages stand.
    count: u32,
    /// Which of them are a Shutdown, and no Request: a bit for each, the lowest for the first.
    shutdowns: u32,
}

/// How many messages there may be, and how many lists there are of so many.
const LISTS: [(u32, u32); 5] = [(0, 1), (1, 2), (2, 4), (3, 8), (4, 16)];

/// An idle time, and three moments: two are just so far apart, and two a nanosecond less.
const IDLE_TIME: u64 = 20;

const MOMENTS: [u64; 3] = [10, 30, 49];

/// The messages of the first poll.
fn standing(alloc: Global, case: Case) -> Result<Messages, NoMemory> {
    let mut messages = Messages::new(alloc);
    let mut left = case.shutdowns;
    for _ in 0..case.count {
        messages.push(if left % 2 == 1 {
            ServerMessage::Shutdown
        } else {
            ServerMessage::Request
        })?;
        left /= 2;
    }
    if case.is_closed {
        messages.close();
    }
    Ok(messages)
}

/// Whether it was quiet for the idle time, which isn't 0, from one moment to another.
fn is_quiet(case: Case, from: u64, to: u64) -> bool {
    case.idle_time != 0
        && from
            .checked_add(case.idle_time)
            .is_some_and(|end| to >= end)
}

/// Why the first poll is ready, and why the second, by the rule.
fn rule(case: Case) -> [Option<StopCause>; 2] {
    let [made, first, second] = case.moments;
    if case.shutdowns > 0 {
        [Some(StopCause::Shutdown); 2]
    } else if case.is_closed {
        [Some(StopCause::Closed); 2]
    } else if case.count > 0 {
        [
            None,
            is_quiet(case, first, second).then_some(StopCause::Idle),
        ]
    } else if is_quiet(case, made, first) {
        [Some(StopCause::Idle); 2]
    } else {
        [
            None,
            is_quiet(case, made, second).then_some(StopCause::Idle),
        ]
    }
}

/// Whether the polls answer by the rule, and take the messages.
fn is_by_rule(alloc: Global, case: Case) -> Result<bool, NoMemory> {
    let mut messages = standing(alloc, case)?;
    let [made, first, second] = case.moments;
    let mut wait = ShutdownOrInactive::new(case.idle_time, made);
    let is_ready = [
        wait.poll(&mut messages, first),
        wait.poll(&mut messages, second),
    ];
    let [first_cause, second_cause] = rule(case);
    Ok(
        is_ready == [first_cause.is_some(), second_cause.is_some()]
            && wait.cause() == second_cause
            && messages.take_all().is_empty(),
    )
}

/// How many of the ways to poll for a list of messages aren't by the rule: all moments in any order, closed or not, with an
/// idle time or none.
fn odd_polls(alloc: Global, count: u32, shutdowns: u32) -> Result<u64, NoMemory> {
    let mut odd = 0u64;
    for way in 0..108usize {
        let case = Case {
            idle_time: if way < 54 { IDLE_TIME } else { 0 },
            moments: [MOMENTS[way % 3], MOMENTS[way / 3 % 3], MOMENTS[way / 9 % 3]],
            is_closed: way / 27 % 2 == 1,
            count,
            shutdowns,
        };
        if !is_by_rule(alloc, case)? {
            odd = odd.saturating_add(1);
        }
    }
    Ok(odd)
}

#[test]
fn polls_of_all_lists(rt: HostRuntime) -> Result<(), Fail> {
    for (count, lists) in LISTS {
        for shutdowns in 0..lists {
            let odd = odd_polls(rt.alloc(), count, shutdowns)?;
            assert_eq!(rt;
                odd,
                0,
                "{count} messages, of which {shutdowns} are a Shutdown"
            );
        }
    }
    Ok(())
}

fn live<R: Wait>(rt: &R, services: &LiveServices) -> u64 {
    services.lock(rt).get()
}

fn is_over<R: Wait>(rt: &R, services: &LiveServices) -> bool {
    WaitUntilZero.poll(&services.lock(rt))
}

/// Whether each of two services is counted from its making to its drop.
fn counts_two<R: Wait + Copy + Drop>(rt: R, services: &LiveServices) -> Result<bool, NoMemory> {
    let first = ActiveInfo::new(rt, services.try_clone()?);
    let second = ActiveInfo::new(rt, services.try_clone()?);
    let are_two = live(&rt, services) == 2;
    drop(first);
    let is_one = live(&rt, services) == 1;
    let is_over_early = is_over(&rt, services);
    drop(second);
    Ok(are_two && is_one && !is_over_early)
}

#[test]
fn ample_live_services(rt: HostRuntime) -> Result<(), Fail> {
    let services = LiveServices::new(rt.alloc())?;
    assert!(rt; is_over(&rt, &services));
    assert!(rt; counts_two(&rt, &services)?);
    assert!(rt; is_over(&rt, &services));
    Ok(())
}

#[test]
fn ample_try_clone(rt: HostRuntime) -> Result<(), Fail> {
    let services = LiveServices::new(rt.alloc())?;
    let info = ActiveInfo::new(rt, services.try_clone()?);
    assert_eq!(rt; live(&rt, &services), 1);
    let other = thread::spawn(&rt, move || drop(info))?;
    other.join(&rt);
    assert!(rt; is_over(&rt, &services));
    Ok(())
}

/// How often a thread makes and drops a service.
const TURNS: u64 = 5000;

/// Makes and drops a service again and again, and answers how often none was counted while it was there.
fn take_turns<R: Wait + Copy + Drop>(rt: R, services: &LiveServices) -> Result<u64, NoMemory> {
    let mut missed = 0u64;
    for _ in 0..TURNS {
        let info = ActiveInfo::new(rt, services.try_clone()?);
        if is_over(&rt, services) {
            missed = missed.saturating_add(1);
        }
        drop(info);
    }
    Ok(missed)
}

#[test]
fn two_threads_of_services(rt: HostRuntime) -> Result<(), Fail> {
    let services = LiveServices::new(rt.alloc())?;
    let (mine, theirs) = thread::join(
        &rt,
        || take_turns(&rt, &services),
        || take_turns(&rt, &services),
    );
    assert!(rt; mine? == 0 && theirs? == 0 && is_over(&rt, &services));
    Ok(())
}
