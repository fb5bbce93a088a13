//! A distributed client with its maker, and where it stands.

ghost use Rattle.std.specs.Prelude.{◌≡◌, ◌≤◌, IfOk, OnOk, None, true};
ghost use Rattle.sc_compile_dist.specs.Clients.{Says, info_of};
ghost use Rattle.sc_compile_dist.specs.Containers.{Contained, GetsClient, GetsStatus, Gives, RenewsContained, retry_text, scheduler};
ghost use Rattle.sc_compile_dist.specs.GoodJobs.{is_good_dist};
ghost use Rattle.sc_compile_dist.specs.Jobs.{told_dist};
ghost use Rattle.sc_compile_dist.specs.Waiting.{is_disabled};
ghost use Rattle.sc_entry.specs.Causes.{IfTold};
ghost use Rattle.sc_model.specs.Containers.{Tells_status, is_due, made_state, reset};
ghost use Rattle.sc_model.specs.Levels.{and_one};
ghost use Rattle.sc_model.specs.World.{DistCause};
ghost use Rattle.sc_model.specs.declared.level.DistClientState.TheVariants as states;
ghost use Rattle.sc_stats.specs.declared.counters.DistInfo.TheVariants.{NotConnected};

use crate::client::{DistClient, SchedulerStatus};
use crate::maker::DistMaker;
use sc_entry::{FileObjectSource, NoMemory, Text};
use sc_model::{DistAnswer, DistClientState, Making, SingleCompileCommand};
use sc_stats::DistInfo;
use std::alloc::Global;
use std::marker::Model;
use std::mem::replace;

/// How long a client that couldn't be made is waited for, in nanoseconds: 30 s.
const RETRY_AFTER: u64 = 30_000_000_000;

/// What is known of a distributed client at first.
#[derive(Drop)]
pub struct DistClientConfig {
    /// Where its scheduler is, as statuses tell it.
    pub scheduler_url: Option<Text>,
}

/// What a request for a client gets.
#[derive(Drop)]
pub enum ClientAnswer {
    /// There is a client.
    Ready,
    /// There is none, or it isn't made yet.
    NoClient,
    /// It may not speak to the scheduler; this is told once.
    Failed(Text),
}

/// A distributed client with its maker, and where it stands: disabled, made, waited for until a moment, or without a token.
#[derive(Drop)]
pub struct DistClientContainer<M: DistMaker> {
    url: Option<Text>,
    state: DistClientState,
    client: M::Client,
    maker: M,
}

impl<M: DistMaker> Model for DistClientContainer<M> {
    ghost use Rattle.sc_compile_dist.specs.Containers.{Contained};

    ghost Value = { Contained };

    ghost view = { λ c. record {
      url = c.url;
      state = c.state;
      jobs = M.Client.jobs c.client;
      lines = M.Client.lines c.client;
      status = M.Client.scheduler c.client;
      makings = M.makings c.maker;
      client_faults = M.Client.fault_count c.client;
      maker_faults = M.fault_count c.maker;
    } };
}

/// Whether a client is to be made anew.
fn is_due(state: &DistClientState, now: u64) -> bool
    ensures { result ≡ is_due now state.now }
{
    match state {
        DistClientState::RetryCreateAt(due) => *due <= now,
        DistClientState::Disabled => false,
        DistClientState::Made => false,
        DistClientState::FailWithMessage(_) => false,
    }
}

/// Where a client stands after it was made, or wasn't.
fn made_state(making: Making, now: u64) -> DistClientState
    ensures { result ≡ made_state now making }
{
    match making {
        Making::Made => DistClientState::Made,
        Making::Unreachable => DistClientState::RetryCreateAt(now.saturating_add(RETRY_AFTER)),
        Making::NoToken(text) => DistClientState::FailWithMessage(text),
    }
}

/// How a wait of so many nanoseconds is told.
#[tactic(auto, unfolding(crate::specs::Containers::retry_text))]
fn retry_text(alloc: Global, wait: u64) -> Result<Text, NoMemory>
    ensures { IfOk result (λ text. text ≡ retry_text wait) }
{
    let seconds = wait / 1_000_000_000;
    let tenths = wait / 100_000_000 % 10;
    let text = format!(in alloc; "enabled, not connected, will retry in {seconds}.{tenths}s")?;
    Ok(Text::from_string(text))
}

/// What a scheduler says of itself.
fn info_of(status: SchedulerStatus) -> DistInfo
    ensures { result ≡ info_of status }
{
    DistInfo::SchedulerStatus {
        url: status.url,
        num_servers: status.num_servers,
        num_cpus: status.num_cpus,
        in_progress: status.in_progress,
    }
}

impl<M: DistMaker + Drop> DistClientContainer<M> {
    /// One whose client is never asked.
    pub fn new_disabled(client: M::Client, maker: M) -> DistClientContainer<M>
        ensures url { result.url ≡ None }
        ensures state { result.state ≡ states.Disabled }
        ensures jobs { result.jobs ≡ M.Client.jobs client }
        ensures lines { result.lines ≡ M.Client.lines client }
        ensures status { result.status ≡ M.Client.scheduler client }
        ensures makings { result.makings ≡ M.makings maker }
        ensures faults { (result.client_faults ≡ M.Client.fault_count client) × (result.maker_faults ≡ M.fault_count maker) }
    {
        DistClientContainer {
            url: None,
            state: DistClientState::Disabled,
            client,
            maker,
        }
    }

    /// One whose client stands so.
    pub fn new_with_state(
        config: DistClientConfig,
        state: DistClientState,
        client: M::Client,
        maker: M,
    ) -> DistClientContainer<M>
        ensures url { result.url ≡ config.scheduler_url }
        ensures state { result.state ≡ state }
        ensures jobs { result.jobs ≡ M.Client.jobs client }
        ensures lines { result.lines ≡ M.Client.lines client }
        ensures status { result.status ≡ M.Client.scheduler client }
        ensures makings { result.makings ≡ M.makings maker }
        ensures faults { (result.client_faults ≡ M.Client.fault_count client) × (result.maker_faults ≡ M.fault_count maker) }
    {
        DistClientContainer {
            url: config.scheduler_url,
            state,
            client,
            maker,
        }
    }

    /// Whether its client is never asked, which never changes.
    pub fn is_disabled(&self) -> bool
        ensures { result ≡ is_disabled self.now.state }
    {
        matches!(&self.state, DistClientState::Disabled)
    }

    /// Has the client made anew at its next use, unless it is disabled.
    pub fn reset_state(&mut self, now: u64)
        ensures { self.new ≡ record self.old { state = reset now self.old.state } }
    {
        if !self.is_disabled() {
            self.state = DistClientState::RetryCreateAt(now);
        }
    }

    /// Makes the client anew where that is due.
    fn renew(&mut self, alloc: Global, now: u64) -> Result<(), NoMemory>
        ensures { OnOk result (RenewsContained now self.old self.new) }
    {
        if !is_due(&self.state, now) {
            return Ok(());
        }
        let making = self.maker.make(alloc, &mut self.client, now)?;
        self.state = made_state(making, now);
        Ok(())
    }

    /// Gives the client as it stands; what is told once is told.
    fn give(&mut self, now: u64) -> ClientAnswer
        ensures gives { Gives now self.old.state result self.new.state }
        ensures same { self.new ≡ record self.old { state = self.new.state } }
    {
        match replace(&mut self.state, DistClientState::RetryCreateAt(now)) {
            DistClientState::FailWithMessage(text) => ClientAnswer::Failed(text),
            DistClientState::Made => {
                self.state = DistClientState::Made;
                ClientAnswer::Ready
            }
            DistClientState::Disabled => {
                self.state = DistClientState::Disabled;
                ClientAnswer::NoClient
            }
            DistClientState::RetryCreateAt(due) => {
                self.state = DistClientState::RetryCreateAt(due);
                ClientAnswer::NoClient
            }
        }
    }

    /// Asks for the client, which is made anew first where that is due.
    pub fn get_client(&mut self, alloc: Global, now: u64) -> Result<ClientAnswer, NoMemory>
        ensures { IfOk result (λ answer. GetsClient now self.old answer self.new) }
    {
        self.renew(alloc, now)?;
        Ok(self.give(now))
    }

    /// That the client isn't connected, and why.
    fn not_connected(&self, alloc: Global, why: &str) -> Result<DistInfo, NoMemory>
        ensures { IfOk result (λ info. info ≡ NotConnected self.now.url why.now) }
    {
        let url = match &self.url {
            None => None,
            Some(url) => Some(url.try_clone()?),
        };
        Ok(DistInfo::NotConnected(url, Text::from_str(alloc, why)?))
    }

    /// Asks the client for its scheduler's status.
    fn ask_status(&mut self, alloc: Global) -> Result<Option<SchedulerStatus>, NoMemory>
        ensures says { IfOk result (Says self.old.status self.old.client_faults self.new.client_faults) }
        ensures later { OnOk result (self.old.client_faults ≤ self.new.client_faults) }
        ensures same { OnOk result (self.new ≡ record self.old { client_faults = self.new.client_faults }) }
    {
        let status = self.client.status(alloc)?;
        Ok(status)
    }

    /// Where the client stands.
    fn told_status(&mut self, alloc: Global, now: u64) -> Result<DistInfo, NoMemory>
        ensures tells { IfOk result (λ info. Tells_status (scheduler self.old) now self.old.state info self.old.client_faults self.new.client_faults) }
        ensures later { OnOk result (self.old.client_faults ≤ self.new.client_faults) }
        ensures same { OnOk result (self.new ≡ record self.old { client_faults = self.new.client_faults }) }
    {
        match &self.state {
            DistClientState::Disabled => Ok(DistInfo::Disabled(Text::from_str(alloc, "disabled")?)),
            DistClientState::FailWithMessage(_) => self.not_connected(
                alloc,
                "enabled, auth not configured",
            ),
            DistClientState::RetryCreateAt(due) => {
                let wait = retry_text(alloc, due.saturating_sub(now))?;
                self.not_connected(alloc, wait.as_str())
            }
            DistClientState::Made => match self.ask_status(alloc)? {
                None => self.not_connected(alloc, "could not communicate with scheduler"),
                Some(status) => Ok(info_of(status)),
            },
        }
    }

    /// Tells where the client stands, which is made anew first where that is due.
    pub fn get_status(&mut self, alloc: Global, now: u64) -> Result<DistInfo, NoMemory>
        ensures { IfOk result (λ info. GetsStatus now self.old info self.new) }
    {
        self.renew(alloc, now)?;
        self.told_status(alloc, now)
    }

    /// Compiles by its client.
    pub fn run(
        &mut self,
        alloc: Global,
        key: &Text,
        command: &SingleCompileCommand,
        outputs: &[FileObjectSource],
    ) -> Result<DistAnswer, NoMemory>
        ensures jobs { IfOk result (λ a. self.new ≡ record self.old { jobs = and_one self.old.jobs (key.now, a); client_faults = self.new.client_faults }) }
        ensures later { OnOk result (self.old.client_faults ≤ self.new.client_faults) }
        ensures cause { IfOk result (λ a. DistCause a self.old.client_faults self.new.client_faults) }
        ensures good { IfOk result (λ a. is_good_dist a ≡ true) }
        ensures answer { IfOk result (λ a. IfTold (told_dist self.old.lines key.now self.old.jobs outputs.now) (λ b. a ≡ b)) }
    {
        let answer = self.client.run(alloc, key, command, outputs)?;
        Ok(answer)
    }
}
