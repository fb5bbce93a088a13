//! A job that is under way.
ghost use Rattle.std.specs.Prelude.{◌≡◌, ◌++◌, ◌∷◌, [], Some, true, OnOk};
ghost use Rattle.sc_daemon_action.specs.Hands.{ServesWith};
ghost use Rattle.sc_compile_direct.specs.Running.{StepsBy, ending_of, is_over};
ghost use Rattle.sc_model.specs.Conns.{outcome_after, reserved_after};

use crate::job_event::JobEvent;
use sc_daemon_action::{Action, act};
use sc_daemon_hold::Hold;
use sc_daemon_job::{Origin, Since};
use sc_disk::LruDiskCacheAddEntry;
use sc_entry::{Items, NoMemory};
use sc_model::{Ending, Phase, Request, What, Written};
use std::alloc::Global;
use std::mem::{drop, replace};

/// How a job is to be told to end of which nothing else is left.
fn ending_of(phase: Phase) -> Ending
    requires { is_over phase ≡ true }
    ensures { Some result ≡ ending_of phase }
{
    match phase {
        Phase::AtFinish(notes, last) => Ending { notes, last },
        _ => unreachable!(),
    }
}

/// A job that is under way: where it stands, the entry of a disk level that it holds, the moments, in nanoseconds, of its last
/// event, of its outcome and of its last reservation (0 where there was none), and its events so far.
#[derive(Drop)]
pub struct Running {
    pub phase: Phase,
    pub entry: Option<LruDiskCacheAddEntry>,
    pub last: u64,
    pub outcome: u64,
    pub reserved: u64,
    pub events: Items<JobEvent>,
}

impl Running {
    /// Whether nothing is left but to tell how it ended.
    pub fn is_over(&self) -> bool
        ensures { result ≡ is_over self.now.phase }
    {
        matches!(&self.phase, Phase::AtFinish(_, _))
    }

    /// Stands at a phase.
    fn stand(&mut self, phase: Phase)
        ensures { self.new ≡ record self.old { phase = phase } }
    {
        // Dropped by a call: assigned over it takes the check minutes.
        drop(replace(&mut self.phase, phase));
    }

    /// Holds an entry of a disk level, or none.
    fn hold(&mut self, entry: Option<LruDiskCacheAddEntry>)
        ensures { self.new ≡ record self.old { entry = entry } }
    {
        drop(replace(&mut self.entry, entry));
    }

    /// Keeps what an event tells that came at this moment.
    fn tell(&mut self, moment: u64, what: &What)
        ensures { self.new ≡ record self.old { last = moment; outcome = outcome_after self.old.outcome moment what.now; reserved = reserved_after self.old.reserved moment what.now } }
    {
        self.last = moment;
        match what {
            What::Outcome(_, _) => self.outcome = moment,
            What::Reserved(_, _, _, Written::Done) => self.reserved = moment,
            _ => {}
        }
    }

    /// Keeps an event.
    fn note(&mut self, moment: u64, what: What) -> Result<(), NoMemory>
        ensures { OnOk result (self.new ≡ record self.old { events = self.old.events ++ record { moment = moment; what = what } ∷ [] }) }
    {
        self.events.push(JobEvent { moment, what })?;
        Ok(())
    }

    /// Does the action that is due, and keeps its event. It waits for nothing; what it would send goes behind `out`.
    pub fn step<H: Hold>(
        &mut self,
        alloc: Global,
        hold: &mut H,
        request: &Request,
        out: &mut Vec<u8>,
    ) -> Result<(), NoMemory>
        requires { ServesWith (H.config hold.old) (H.rooms hold.old) self.old.phase self.old.entry request.now }
        ensures { OnOk result (StepsBy H.config H.rooms H.moment H.moves request.now hold.old hold.new self.old self.new) }
    {
        let since = Since {
            origin: Origin::Direct,
            last: self.last,
            outcome: self.outcome,
            reserved: self.reserved,
        };
        let phase = replace(&mut self.phase, Phase::AtOver);
        let entry = self.entry.take();
        let action = act(alloc, hold, request, phase, entry, out, since)?;
        let moment = hold.now();
        let Action { what, phase, entry } = action;
        self.stand(phase);
        self.hold(entry);
        self.tell(moment, &what);
        self.note(moment, what)?;
        Ok(())
    }

    /// The events of one that is over, and how it is to be told to end.
    pub fn ended(self) -> (Items<JobEvent>, Ending)
        requires { is_over self.phase ≡ true }
        ensures events { result.0 ≡ self.events }
        ensures ending { Some result.1 ≡ ending_of self.phase }
    {
        let Running {
            phase,
            entry: _,
            last: _,
            outcome: _,
            reserved: _,
            events,
        } = self;
        (events, ending_of(phase))
    }
}
