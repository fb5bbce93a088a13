//! What is told of a distributed client, and that it is as its maker answers.
use crate::silent::{Silent, SilentMaker};
use sc_compile_dist::{ClientAnswer, DistClientConfig, DistClientContainer, MemMaker, ScriptDist};
use sc_entry::{Queue, Text};
use sc_model::{DistClientState, Making};
use sc_stats::DistInfo;
use std::alloc::Global;
use std::process::Abort;
use std::test::Fail;

type Container = DistClientContainer<MemMaker>;

/// Where the scheduler is.
const URL: &str = "http://s";

/// 30 s, for which a client that isn't reached is waited for.
const WAIT: u64 = 30_000_000_000;

/// What a maker comes to, as a plain value.
#[derive(Clone, Copy)]
enum Made {
    Made,
    Unreachable,
    NoToken,
}

/// What is told of where a client stands: of one that isn't connected, why.
#[derive(Clone, Copy)]
enum Stands {
    NotConnected(&'static str),
    Scheduler,
}

fn making(alloc: Global, made: Made) -> Result<Making, Fail> {
    match made {
        Made::Made => Ok(Making::Made),
        Made::Unreachable => Ok(Making::Unreachable),
        Made::NoToken => Ok(Making::NoToken(Text::from_str(alloc, "no token")?)),
    }
}

fn push_makings(makings: &mut Queue<Making>, alloc: Global, each: &[Made]) -> Result<(), Fail> {
    for made in each {
        makings.push_back(making(alloc, *made)?)?;
    }
    Ok(())
}

/// A maker that comes to these in turn.
fn maker(alloc: Global, each: &[Made]) -> Result<MemMaker, Fail> {
    let mut makings = Queue::new(alloc);
    push_makings(&mut makings, alloc, each)?;
    Ok(MemMaker::new(makings))
}

fn client(alloc: Global) -> Result<ScriptDist, Fail> {
    Ok(ScriptDist::new(alloc, Vec::new(alloc))?)
}

/// What is known of a client whose scheduler has an address.
fn config(alloc: Global) -> Result<DistClientConfig, Fail> {
    let url = Text::from_str(alloc, URL)?;
    Ok(DistClientConfig {
        scheduler_url: Some(url),
    })
}

/// A container whose client stands so, and whose maker comes to these in turn.
fn container_in(alloc: Global, state: DistClientState, each: &[Made]) -> Result<Container, Fail> {
    let config = config(alloc)?;
    let client = client(alloc)?;
    let maker = maker(alloc, each)?;
    Ok(DistClientContainer::new_with_state(config, state, client, maker))
}

/// A container whose client is made anew at its first use.
fn due_container(alloc: Global, each: &[Made]) -> Result<Container, Fail> {
    container_in(alloc, DistClientState::RetryCreateAt(0), each)
}

fn is_url(url: &Option<Text>) -> bool {
    match url {
        None => false,
        Some(url) => url.as_str() == URL,
    }
}

/// Whether these are the address and the numbers of a script's scheduler, which has none.
fn is_of_a_script(url: &Option<Text>, servers: u64, processors: u64, jobs: u64) -> bool {
    url.is_none() && servers == 0 && processors == 0 && jobs == 0
}

/// Whether this is told of where a client stands.
fn is_told(info: &DistInfo, stands: Stands) -> bool {
    match (info, stands) {
        (DistInfo::NotConnected(url, text), Stands::NotConnected(why)) => {
            is_url(url) && text.as_str() == why
        }
        (
            DistInfo::SchedulerStatus {
                url,
                num_servers,
                num_cpus,
                in_progress,
            },
            Stands::Scheduler,
        ) => is_of_a_script(url, *num_servers, *num_cpus, *in_progress),
        _ => false,
    }
}

/// Whether the container tells this at a moment.
fn tells(alloc: Global, container: &mut Container, now: u64, stands: Stands) -> Result<bool, Fail> {
    let info = container.get_status(alloc, now)?;
    Ok(is_told(&info, stands))
}

/// What a request for a client gets, in a word; a message as it is.
fn word(answer: &ClientAnswer) -> &str {
    match answer {
        ClientAnswer::Ready => "ready",
        ClientAnswer::NoClient => "no client",
        ClientAnswer::Failed(text) => text.as_str(),
    }
}

/// Whether a request for a client gets this at a moment.
fn gets(alloc: Global, container: &mut Container, now: u64, wanted: &str) -> Result<bool, Fail> {
    let answer = container.get_client(alloc, now)?;
    Ok(word(&answer) == wanted)
}

/// Whether a client without a token tells that once, and is made anew then.
fn fails_once(alloc: Global, container: &mut Container) -> Result<bool, Fail> {
    let no_token = Stands::NotConnected("enabled, auth not configured");
    Ok(
        tells(alloc, container, 0, no_token)?
            && tells(alloc, container, u64::MAX, no_token)?
            && gets(alloc, container, 9, "no token")?
            && gets(alloc, container, 9, "ready")?
            && tells(alloc, container, 9, Stands::Scheduler)?,
    )
}

fn tells_failure(alloc: Global) -> Result<bool, Fail> {
    let mut container = due_container(alloc, &[Made::NoToken])?;
    fails_once(alloc, &mut container)
}

#[test]
fn a_client_without_a_token_tells_it_once(rt: HostRuntime) -> Result<(), Fail> {
    assert!(rt; tells_failure(rt.alloc())?);
    Ok(())
}

/// Whether the container makes a client, loses it, and goes on as its maker does.
fn goes_on(alloc: Global, container: &mut Container) -> Result<bool, Fail> {
    let made = gets(alloc, container, 1, "ready")?;
    container.reset_state(2);
    Ok(
        made && gets(alloc, container, 2, "no client")?
            && gets(alloc, container, 1 + WAIT, "no client")?
            && gets(alloc, container, 2 + WAIT, "no token")?
            && gets(alloc, container, 2 + WAIT, "ready")?,
    )
}

fn goes_on_as_made(alloc: Global) -> Result<bool, Fail> {
    let each = [Made::Made, Made::Unreachable, Made::NoToken];
    let mut container = due_container(alloc, &each)?;
    goes_on(alloc, &mut container)
}

#[test]
fn a_client_is_as_its_maker_answers(rt: HostRuntime) -> Result<(), Fail> {
    assert!(rt; goes_on_as_made(rt.alloc())?);
    Ok(())
}

/// Whether a wait from a moment until another is told so.
fn tells_wait(alloc: Global, now: u64, due: u64, why: &'static str) -> Result<bool, Fail> {
    let mut container = container_in(alloc, DistClientState::RetryCreateAt(due), &[])?;
    tells(alloc, &mut container, now, Stands::NotConnected(why))
}

#[test]
fn waits_are_cut_off_at_tenths(rt: HostRuntime) -> Result<(), Fail> {
    let cases = [
        (
            5,
            30_000_000_005,
            "enabled, not connected, will retry in 30.0s",
        ),
        (
            6,
            30_000_000_005,
            "enabled, not connected, will retry in 29.9s",
        ),
        (
            30_000_000,
            30_000_000_000,
            "enabled, not connected, will retry in 29.9s",
        ),
        (
            0,
            29_900_000_000,
            "enabled, not connected, will retry in 29.9s",
        ),
        (
            0,
            29_899_999_999,
            "enabled, not connected, will retry in 29.8s",
        ),
        (
            7,
            1_050_000_007,
            "enabled, not connected, will retry in 1.0s",
        ),
        (0, 999_999_999, "enabled, not connected, will retry in 0.9s"),
        (0, 100_000_000, "enabled, not connected, will retry in 0.1s"),
        (0, 99_999_999, "enabled, not connected, will retry in 0.0s"),
        (
            0,
            u64::MAX,
            "enabled, not connected, will retry in 18446744073.7s",
        ),
    ];
    for (now, due, why) in cases {
        assert!(rt; tells_wait(rt.alloc(), now, due, why)?, "{now} {due}");
    }
    Ok(())
}

/// A container whose scheduler never answers.
fn silent(alloc: Global) -> Result<DistClientContainer<SilentMaker>, Fail> {
    let config = config(alloc)?;
    let client = Silent { faults: 0 };
    Ok(DistClientContainer::new_with_state(
        config,
        DistClientState::RetryCreateAt(0),
        client,
        SilentMaker,
    ))
}

/// Whether the client is made, and its scheduler doesn't answer.
fn is_silent(
    alloc: Global,
    container: &mut DistClientContainer<SilentMaker>,
) -> Result<bool, Fail> {
    let info = container.get_status(alloc, 0)?;
    let why = Stands::NotConnected("could not communicate with scheduler");
    Ok(is_told(&info, why))
}

fn tells_silence(alloc: Global) -> Result<bool, Fail> {
    let mut container = silent(alloc)?;
    is_silent(alloc, &mut container)
}

#[test]
fn a_scheduler_that_does_not_answer_is_told(rt: HostRuntime) -> Result<(), Fail> {
    assert!(rt; tells_silence(rt.alloc())?);
    Ok(())
}
