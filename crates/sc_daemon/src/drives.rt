//! Drives of any steps over any bytes on any connections.
ghost use Rattle.std.specs.Prelude.{◌≡◌, ℕ, [], true, Ok, IfOk, IsOk, length, map, reverse};
ghost use Rattle.sc_wire_conn.specs.Ends.{end_of};
ghost use Rattle.sc_daemon.specs.Daemons.{IsIdleDaemon, anew, script_of};
ghost use Rattle.sc_daemon.specs.Drives.{Progress, line_end, lines_of, result_of};
ghost use Rattle.sc_model.specs.Headline.{Headline};
ghost use Rattle.sc_model.specs.Trace.{reservations, reserved_at};
ghost use Rattle.sc_daemon_owned.specs.State.{reserved_in};

use crate::backlog::Backlog;
use crate::conn::{Conn, discard_conn};
use crate::daemon::Daemon;
use crate::driven::{Driven, DrivenConn};
use crate::driver::Driver;
use sc_daemon_owned::Parts;
use sc_entry::{ByteText, Items, NoMemory};
use sc_model::{Event, Handed, Step, every_run};
use std::alloc::Global;

/// What a connection came to.
fn driven_conn(alloc: Global, conn: Conn) -> DrivenConn
    ensures end { end_of result.end ≡ line_end conn }
    ensures sent { result.sent ≡ conn.out }
{
    let mut conn = conn;
    let end = conn.end();
    let sent = conn.take_sent(alloc);
    discard_conn(conn);
    DrivenConn { end, sent }
}

fn driven_conns(alloc: Global, conns: Vec<Conn>) -> Result<Items<DrivenConn>, NoMemory>
    ensures ends { IfOk result (λ driven. map (λ c. end_of c.end) driven ≡ map line_end conns.items) }
    ensures sent { IfOk result (λ driven. map (λ c. c.sent) driven ≡ map (λ l. l.out) conns.items) }
{
    let mut driven = Items::new(alloc);
    for conn in conns {
        driven.push(driven_conn(alloc, conn))?;
    }
    Ok(driven)
}

/// The writes that are left, in order.
fn writes_left(alloc: Global, background: &Backlog) -> Result<Items<Handed>, NoMemory>
    ensures { IfOk result (λ left. left ≡ map (λ w. w.pending.handed) background.now) }
{
    let mut left = Items::new(alloc);
    for place in 0..background.len() {
        let Some(write) = background.get(place) else {
            return Ok(left);
        };
        left.push(write.handed()?)?;
    }
    Ok(left)
}

/// What a drive came to, beside the writes that are left.
fn finish(alloc: Global, driver: Driver, background: Items<Handed>) -> Result<Driven, NoMemory>
    ensures trace { IfOk result (λ driven. driven.trace ≡ driver.events.items) }
    ensures ends { IfOk result (λ driven. map (λ c. end_of c.end) driven.conns ≡ map line_end driver.conns.items) }
    ensures sent { IfOk result (λ driven. map (λ c. c.sent) driven.conns ≡ map (λ l. l.out) driver.conns.items) }
    ensures background { IfOk result (λ driven. driven.background ≡ background) }
{
    let Driver { conns, events } = driver;
    let trace = Items::from_vec(events);
    let conns = driven_conns(alloc, conns);
    if_driven(trace, conns, background)
}

/// Drops a trace in a call of its own: dropped at the end of a branch it takes the check minutes.
fn discard(trace: Items<Event>) {
    drop(trace);
}

fn if_driven(
    trace: Items<Event>,
    conns: Result<Items<DrivenConn>, NoMemory>,
    background: Items<Handed>,
) -> Result<Driven, NoMemory>
    ensures trace { IfOk result (λ driven. driven.trace ≡ trace) }
    ensures conns { IfOk result (λ driven. conns ≡ Ok driven.conns) }
    ensures background { IfOk result (λ driven. driven.background ≡ background) }
{
    match conns {
        Ok(conns) => Ok(Driven {
            trace,
            conns,
            background,
        }),
        Err(refused) => {
            discard(trace);
            Err(refused)
        }
    }
}

/// Drops a drive in a call of its own: dropped at the end of a branch it takes the check minutes.
fn discard_driver(driver: Driver) {
    drop(driver);
}

/// What a drive came to, once the writes that are left are listed.
fn if_left(
    alloc: Global,
    driver: Driver,
    background: Result<Items<Handed>, NoMemory>,
) -> Result<Driven, NoMemory>
    ensures trace { IfOk result (λ driven. driven.trace ≡ driver.events.items) }
    ensures ends { IfOk result (λ driven. map (λ c. end_of c.end) driven.conns ≡ map line_end driver.conns.items) }
    ensures sent { IfOk result (λ driven. map (λ c. c.sent) driven.conns ≡ map (λ l. l.out) driver.conns.items) }
    ensures background { IfOk result (λ driven. background ≡ Ok driven.background) }
{
    match background {
        Ok(background) => finish(alloc, driver, background),
        Err(refused) => {
            discard_driver(driver);
            Err(refused)
        }
    }
}

/// Does all steps of a drive that begins, from the first on.
fn step_all<P: Parts>(
    alloc: Global,
    driver: &mut Driver,
    daemon: &mut Daemon<P>,
    inputs: &[ByteText],
    steps: &[Step],
) -> Result<(), NoMemory>
    requires idle { IsIdleDaemon daemon.old }
    requires told { daemon.old.state.told ≡ true }
    requires conns { driver.old.conns.items ≡ lines_of daemon.old.state.config.limit (length inputs.now) }
    requires events { driver.old.events.items ≡ [] }
    ensures { IfOk result (λ _. Progress daemon.old daemon.new inputs.now steps.now [] driver.new.events.items driver.new.conns.items) }
{
    for step in steps {
        driver.step(alloc, daemon, inputs, step)?;
    }
    Ok(())
}

/// The drive, once all its steps are done.
fn if_stepped(stepped: Result<(), NoMemory>, driver: Driver) -> Result<Driver, NoMemory>
    ensures driver { IfOk result (λ d. d ≡ driver) }
    ensures stepped { IsOk result → IsOk stepped }
{
    match stepped {
        Ok(()) => Ok(driver),
        Err(refused) => {
            discard_driver(driver);
            Err(refused)
        }
    }
}

/// Does all steps, over connections that nothing came over.
fn all_steps<P: Parts>(
    alloc: Global,
    daemon: &mut Daemon<P>,
    inputs: &[ByteText],
    steps: &[Step],
) -> Result<Driver, NoMemory>
    requires idle { IsIdleDaemon daemon.old }
    requires told { daemon.old.state.told ≡ true }
    ensures { IfOk result (λ driver. Progress (anew daemon.old) daemon.new inputs.now steps.now [] driver.events.items driver.conns.items) }
{
    daemon.number_anew();
    let mut driver = Driver::new(alloc, inputs.len(), daemon.limit())?;
    let stepped = step_all(alloc, &mut driver, daemon, inputs, steps);
    if_stepped(stepped, driver)
}

/// Drives a daemon: each step is one atomic step, over these bytes on each connection. What it answers is what happened,
/// and the headline holds of it. What the daemon is made of stays, it still tells what it holds, the writes that are left are its
/// own, and as much is reserved at each level as what happened says.
pub fn drive<P: Parts>(
    alloc: Global,
    daemon: &mut Daemon<P>,
    inputs: &[ByteText],
    steps: &[Step],
) -> Result<Driven, NoMemory>
    requires idle { IsIdleDaemon daemon.old }
    requires told { daemon.old.state.told ≡ true }
    ensures headline { IfOk result (λ driven. Headline (script_of daemon.old inputs.now) daemon.old.state.world (reverse steps.now) (reverse driven.trace) daemon.new.state.world (result_of daemon.new driven)) }
    ensures config { IfOk result (λ _. daemon.new.state.config ≡ daemon.old.state.config) }
    ensures told { IfOk result (λ _. daemon.new.state.told ≡ true) }
    ensures background { IfOk result (λ driven. driven.background ≡ map (λ w. w.pending.handed) daemon.new.background) }
    ensures reserved { IfOk result (λ driven. (level : ℕ) → reserved_in daemon.new.state level ≡ reserved_at level (reservations (reverse driven.trace))) }
{
    every_run();
    let driver = all_steps(alloc, daemon, inputs, steps)?;
    let background = writes_left(alloc, daemon.background());
    if_left(alloc, driver, background)
}
