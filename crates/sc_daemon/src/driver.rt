//! A drive, one step at a time.
ghost use Rattle.std.specs.Prelude.{◌≡◌, [], true, IfOk, List, length, Some};
ghost use Rattle.sc_daemon.specs.Backlogs.{ArePending};
ghost use Rattle.sc_daemon.specs.Drives.{AreAt, IsScriptOf, Steps, StepsOn, Tied, lines_of};
ghost use Rattle.sc_daemon_job.specs.Setups.{setup};
ghost use Rattle.sc_model.specs.Script.{Script as GivenScript};
ghost use Rattle.sc_model.specs.Trace.{Open};
ghost use Rattle.sc_daemon_owned.specs.State.{disk_at};
ghost use Rattle.sc_daemon_owned.specs.Facts.{config_of};

use crate::conn::Conn;
use crate::daemon::Daemon;
use sc_daemon_owned::Parts;
use sc_entry::{ByteText, NoMemory};
use sc_model::{Event, Step};
use std::alloc::Global;

/// A drive so far: its connections, and its events in their order.
#[derive(Drop)]
pub struct Driver {
    pub(crate) conns: Vec<Conn>,
    pub(crate) events: Vec<Event>,
}

/// So many connections that nothing came over.
#[tactic(auto, using(crate::proofs::Beginning::lines_more))]
fn new_conns(alloc: Global, count: usize, limit: u32) -> Result<Vec<Conn>, NoMemory>
    ensures { IfOk result (λ conns. conns.items ≡ lines_of limit count) }
{
    let mut conns = Vec::new(alloc);
    for _ in 0..count {
        conns.push(Conn::new(alloc, limit))?;
    }
    Ok(conns)
}

impl Driver {
    /// A drive over so many connections, before its first step.
    pub fn new(alloc: Global, count: usize, limit: u32) -> Result<Driver, NoMemory>
        ensures conns { IfOk result (λ driver. driver.conns.items ≡ lines_of limit count) }
        ensures events { IfOk result (λ driver. driver.events.items ≡ []) }
    {
        Ok(Driver {
            conns: new_conns(alloc, count, limit)?,
            events: Vec::new(alloc),
        })
    }

    /// Reads at most so many bytes of a connection's input.
    fn read<P: Parts>(
        &mut self,
        alloc: Global,
        daemon: &Daemon<P>,
        inputs: &[ByteText],
        number: u64,
        count: u64,
    ) -> Result<Event, NoMemory>
        requires at { AreAt (config_of daemon.now.state.config) (disk_at daemon.now.state) self.old.conns.items }
        requires inputs { length self.old.conns.items ≡ length inputs.now }
        ensures steps { IfOk result (λ event. (s : GivenScript) (opens : List Open) → IsScriptOf s (config_of daemon.now.state.config) inputs.now → Tied daemon.now self.old.conns.items opens → Steps s (Step.Read number count) event daemon.now daemon.now self.old.conns.items self.new.conns.items opens) }
        ensures events { self.new.events ≡ self.old.events }
    {
        daemon.keeps();
        if number >= self.conns.len() as u64 {
            return Ok(daemon.idle());
        }
        let place = number as usize;
        let event = daemon.read(
            alloc,
            number,
            &mut self.conns[place],
            inputs[place].as_slice(),
            count,
        )?;
        Ok(event)
    }

    /// Does the action that is due at a connection.
    fn serve<P: Parts>(
        &mut self,
        alloc: Global,
        daemon: &mut Daemon<P>,
        number: u64,
    ) -> Result<Event, NoMemory>
        requires at { AreAt (config_of daemon.old.state.config) (disk_at daemon.old.state) self.old.conns.items }
        requires pending { ArePending (config_of daemon.old.state.config) (Some (disk_at daemon.old.state)) daemon.old.background }
        requires told { daemon.old.state.told ≡ true }
        ensures steps { IfOk result (λ event. (s : GivenScript) (opens : List Open) → s.setup ≡ setup (config_of daemon.old.state.config) → Tied daemon.old self.old.conns.items opens → Steps s (Step.Serve number) event daemon.old daemon.new self.old.conns.items self.new.conns.items opens) }
        ensures events { self.new.events ≡ self.old.events }
    {
        daemon.keeps();
        if number >= self.conns.len() as u64 {
            return Ok(daemon.idle());
        }
        let event = daemon.serve(alloc, number, &mut self.conns[number as usize])?;
        daemon.keeps();
        Ok(event)
    }

    fn event_of<P: Parts>(
        &mut self,
        alloc: Global,
        daemon: &mut Daemon<P>,
        inputs: &[ByteText],
        step: &Step,
    ) -> Result<Event, NoMemory>
        requires at { AreAt (config_of daemon.old.state.config) (disk_at daemon.old.state) self.old.conns.items }
        requires inputs { length self.old.conns.items ≡ length inputs.now }
        requires pending { ArePending (config_of daemon.old.state.config) (Some (disk_at daemon.old.state)) daemon.old.background }
        requires told { daemon.old.state.told ≡ true }
        ensures steps { IfOk result (λ event. (s : GivenScript) (opens : List Open) → IsScriptOf s (config_of daemon.old.state.config) inputs.now → Tied daemon.old self.old.conns.items opens → Steps s step.now event daemon.old daemon.new self.old.conns.items self.new.conns.items opens) }
        ensures events { self.new.events ≡ self.old.events }
    {
        match step {
            Step::Read(number, count) => self.read(alloc, daemon, inputs, *number, *count),
            Step::Serve(number) => self.serve(alloc, daemon, *number),
            Step::Back(place) => {
                let event = daemon.back(alloc, *place)?;
                daemon.keeps();
                Ok(event)
            }
            Step::Pass(nanoseconds) => {
                let event = daemon.pass(*nanoseconds);
                daemon.keeps();
                Ok(event)
            }
        }
    }

    /// Does one step: its event is the last.
    pub fn step<P: Parts>(
        &mut self,
        alloc: Global,
        daemon: &mut Daemon<P>,
        inputs: &[ByteText],
        step: &Step,
    ) -> Result<(), NoMemory>
        requires at { AreAt (config_of daemon.old.state.config) (disk_at daemon.old.state) self.old.conns.items }
        requires inputs { length self.old.conns.items ≡ length inputs.now }
        requires pending { ArePending (config_of daemon.old.state.config) (Some (disk_at daemon.old.state)) daemon.old.background }
        requires told { daemon.old.state.told ≡ true }
        ensures steps { IfOk result (λ _. StepsOn (config_of daemon.old.state.config) inputs.now step.now self.old.events.items self.new.events.items daemon.old daemon.new self.old.conns.items self.new.conns.items) }
    {
        let event = self.event_of(alloc, daemon, inputs, step)?;
        self.events.push(event)?;
        Ok(())
    }
}
