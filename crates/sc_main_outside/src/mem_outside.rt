ghost use Rattle.std.specs.Prelude.{◌≡◌, ◌≤◌, ◌++◌, [], Some, IfOk, codes};
ghost use Rattle.sc_entry.specs.Causes.{IfTold};
ghost use Rattle.sc_main_outside.specs.Around.{around_of};
ghost use Rattle.sc_main_outside.specs.Makings.{MakeCause};
ghost use Rattle.sc_main_outside.specs.Memory.{CallsOnce, GivesPart, IsNew, RefusesWhere, fails_next};

use crate::make_error::MakeError;
use crate::outside::Outside;
use crate::surroundings::{Surroundings, surroundings_of};
use sc_clock::MemClock;
use sc_command::Client;
use sc_command_mock::MockCommandCreator;
use sc_compile::ToolTable;
use sc_disk::MemDisk;
use sc_entry::{ByteText, Calls, Items, MemFiles, NoMemory, Queue};
use sc_link::{MemAcceptorMaker, MemConnector};
use sc_model::Variable;
use std::alloc::Global;
use std::collections::BTreeMap;

/// An outside in memory. What is around it is told, and made of its working folder, its variables and its two flags. It gives
/// the parts of its lists, the first first, and makes empty disks that refuse no call. It refuses the calls whose numbers are to
/// fail, and each call where no part is left, and no others.
#[derive(Drop)]
pub struct MemOutside {
    alloc: Global,
    calls: Calls,
    cwd: ByteText,
    variables: Items<Variable>,
    pub is_out_terminal: bool,
    pub is_err_terminal: bool,
    pub connectors: Queue<MemConnector>,
    pub acceptor_makers: Queue<MemAcceptorMaker>,
    pub files: Queue<MemFiles>,
    pub probes: Queue<ToolTable>,
    pub creators: Queue<MockCommandCreator>,
    pub clocks: Queue<MemClock>,
}

impl MemOutside {
    /// One that has no parts, in this working folder, with these variables, whose streams are no terminals.
    pub fn new(alloc: Global, cwd: ByteText, variables: Items<Variable>, calls: Calls) -> MemOutside
        ensures cwd { result.cwd ≡ cwd }
        ensures variables { result.variables ≡ variables }
        ensures calls { result.calls ≡ calls }
        ensures links { (result.connectors ≡ []) × (result.acceptor_makers ≡ []) }
        ensures parts { (result.files ≡ []) × (result.probes ≡ []) × (result.creators ≡ []) × (result.clocks ≡ []) }
    {
        MemOutside {
            alloc,
            calls,
            cwd,
            variables,
            is_out_terminal: false,
            is_err_terminal: false,
            connectors: Queue::new(alloc),
            acceptor_makers: Queue::new(alloc),
            files: Queue::new(alloc),
            probes: Queue::new(alloc),
            creators: Queue::new(alloc),
            clocks: Queue::new(alloc),
        }
    }
}

/// The first of the parts that are left.
fn first<M>(calls: &mut Calls, parts: &mut Queue<M>) -> Result<M, MakeError>
    ensures given { GivesPart (fails_next calls.old) result parts.old parts.new }
    ensures calls { CallsOnce result calls.old calls.new }
    ensures later { calls.old.faults ≤ calls.new.faults }
    ensures cause { MakeCause calls.old.faults calls.new.faults result }
{
    if calls.fails_next() {
        return Err(MakeError::MakeFault);
    }
    match parts.pop_front() {
        Some(part) => Ok(part),
        None => {
            calls.refuse();
            Err(MakeError::MakeFault)
        }
    }
}

fn copies_of(alloc: Global, variables: &[Variable]) -> Result<Items<Variable>, NoMemory>
    ensures { IfOk result (λ copies. copies ≡ variables.now) }
{
    let mut copies = Items::new(alloc);
    for variable in variables {
        copies.push(variable.clone()?)?;
    }
    Ok(copies)
}

/// An empty disk that refuses no call.
fn disk_at(alloc: Global, root: ByteText) -> MemDisk
    ensures root { result.root ≡ root }
    ensures new { IsNew result }
{
    MemDisk::new(alloc, root, BTreeMap::new(alloc), Calls::new(alloc))
}

impl MemOutside {
    /// A copy of what is around it.
    fn found(&self) -> Result<Surroundings, NoMemory>
        ensures { IfOk result (λ found. found ≡ around_of self.now.cwd self.now.variables self.now.is_out_terminal self.now.is_err_terminal) }
    {
        let cwd = self.cwd.try_clone()?;
        let variables = copies_of(self.alloc, self.variables.as_slice())?;
        let (out, err) = (self.is_out_terminal, self.is_err_terminal);
        surroundings_of(self.alloc, cwd, variables, out, err)
    }
}

impl Outside for MemOutside {
    type Connector = MemConnector;

    type AcceptorMaker = MemAcceptorMaker;

    type Disk = MemDisk;

    type Files = MemFiles;

    type Probe = ToolTable;

    type Creator = MockCommandCreator;

    type Clock = MemClock;

    ghost around = { λ o. Some (around_of o.cwd o.variables o.is_out_terminal o.is_err_terminal) };

    ghost fault_count = { λ o. o.calls.faults };

    fn faults(&self) -> u64 {
        self.calls.faults()
    }

    fn alloc(&self) -> Global {
        self.alloc
    }

    fn surroundings(&mut self) -> Result<Surroundings, MakeError>
        ensures told { IfOk result (λ found. IfTold (Some (around_of self.old.cwd self.old.variables self.old.is_out_terminal self.old.is_err_terminal)) (λ a. found ≡ a)) }
        ensures same { Some (around_of self.new.cwd self.new.variables self.new.is_out_terminal self.new.is_err_terminal) ≡ Some (around_of self.old.cwd self.old.variables self.old.is_out_terminal self.old.is_err_terminal) }
        ensures later { self.old.calls.faults ≤ self.new.calls.faults }
        ensures cause { MakeCause self.old.calls.faults self.new.calls.faults result }

        // It refuses exactly the listed calls, and changes nothing else.
        ensures refused { RefusesWhere (fails_next self.old.calls) result }
        ensures calls { CallsOnce result self.old.calls self.new.calls }
        ensures apart { self.new ≡ record self.old { calls = self.new.calls } }
    {
        let found = self.found()?;
        if self.calls.fails_next() {
            return Err(MakeError::MakeFault);
        }
        Ok(found)
    }

    fn connector(&mut self) -> Result<MemConnector, MakeError>
        ensures same { Some (around_of self.new.cwd self.new.variables self.new.is_out_terminal self.new.is_err_terminal) ≡ Some (around_of self.old.cwd self.old.variables self.old.is_out_terminal self.old.is_err_terminal) }
        ensures later { self.old.calls.faults ≤ self.new.calls.faults }
        ensures cause { MakeCause self.old.calls.faults self.new.calls.faults result }

        // It gives the first that is left, and changes nothing else.
        ensures given { GivesPart (fails_next self.old.calls) result self.old.connectors self.new.connectors }
        ensures calls { CallsOnce result self.old.calls self.new.calls }
        ensures apart { self.new ≡ record self.old { connectors = self.new.connectors; calls = self.new.calls } }
    {
        first(&mut self.calls, &mut self.connectors)
    }

    fn acceptor_maker(&mut self) -> Result<MemAcceptorMaker, MakeError>
        ensures same { Some (around_of self.new.cwd self.new.variables self.new.is_out_terminal self.new.is_err_terminal) ≡ Some (around_of self.old.cwd self.old.variables self.old.is_out_terminal self.old.is_err_terminal) }
        ensures later { self.old.calls.faults ≤ self.new.calls.faults }
        ensures cause { MakeCause self.old.calls.faults self.new.calls.faults result }

        // It gives the first that is left, and changes nothing else.
        ensures given { GivesPart (fails_next self.old.calls) result self.old.acceptor_makers self.new.acceptor_makers }
        ensures calls { CallsOnce result self.old.calls self.new.calls }
        ensures apart { self.new ≡ record self.old { acceptor_makers = self.new.acceptor_makers; calls = self.new.calls } }
    {
        first(&mut self.calls, &mut self.acceptor_makers)
    }

    fn disks(&mut self, folder: &ByteText) -> Result<(MemDisk, MemDisk), MakeError>
        ensures main { IfOk result (λ disks. disks.0.root ≡ folder.now) }
        ensures pre { IfOk result (λ disks. disks.1.root ≡ folder.now ++ codes "/preprocessor") }
        ensures same { Some (around_of self.new.cwd self.new.variables self.new.is_out_terminal self.new.is_err_terminal) ≡ Some (around_of self.old.cwd self.old.variables self.old.is_out_terminal self.old.is_err_terminal) }
        ensures later { self.old.calls.faults ≤ self.new.calls.faults }
        ensures cause { MakeCause self.old.calls.faults self.new.calls.faults result }

        // It refuses exactly the listed calls, and changes nothing else.
        ensures refused { RefusesWhere (fails_next self.old.calls) result }
        ensures calls { CallsOnce result self.old.calls self.new.calls }
        ensures apart { self.new ≡ record self.old { calls = self.new.calls } }
        ensures new { IfOk result (λ disks. IsNew disks.0 × IsNew disks.1) }
    {
        let main = folder.try_clone()?;
        let mut pre = folder.try_clone()?;
        pre.append(b"/preprocessor")?;
        if self.calls.fails_next() {
            return Err(MakeError::MakeFault);
        }
        Ok((disk_at(self.alloc, main), disk_at(self.alloc, pre)))
    }

    fn files(&mut self) -> Result<MemFiles, MakeError>
        ensures same { Some (around_of self.new.cwd self.new.variables self.new.is_out_terminal self.new.is_err_terminal) ≡ Some (around_of self.old.cwd self.old.variables self.old.is_out_terminal self.old.is_err_terminal) }
        ensures later { self.old.calls.faults ≤ self.new.calls.faults }
        ensures cause { MakeCause self.old.calls.faults self.new.calls.faults result }

        // It gives the first that is left, and changes nothing else.
        ensures given { GivesPart (fails_next self.old.calls) result self.old.files self.new.files }
        ensures calls { CallsOnce result self.old.calls self.new.calls }
        ensures apart { self.new ≡ record self.old { files = self.new.files; calls = self.new.calls } }
    {
        first(&mut self.calls, &mut self.files)
    }

    fn probe(&mut self) -> Result<ToolTable, MakeError>
        ensures same { Some (around_of self.new.cwd self.new.variables self.new.is_out_terminal self.new.is_err_terminal) ≡ Some (around_of self.old.cwd self.old.variables self.old.is_out_terminal self.old.is_err_terminal) }
        ensures later { self.old.calls.faults ≤ self.new.calls.faults }
        ensures cause { MakeCause self.old.calls.faults self.new.calls.faults result }

        // It gives the first that is left, and changes nothing else.
        ensures given { GivesPart (fails_next self.old.calls) result self.old.probes self.new.probes }
        ensures calls { CallsOnce result self.old.calls self.new.calls }
        ensures apart { self.new ≡ record self.old { probes = self.new.probes; calls = self.new.calls } }
    {
        first(&mut self.calls, &mut self.probes)
    }

    fn creator(&mut self, _client: &Client) -> Result<MockCommandCreator, MakeError>
        ensures same { Some (around_of self.new.cwd self.new.variables self.new.is_out_terminal self.new.is_err_terminal) ≡ Some (around_of self.old.cwd self.old.variables self.old.is_out_terminal self.old.is_err_terminal) }
        ensures later { self.old.calls.faults ≤ self.new.calls.faults }
        ensures cause { MakeCause self.old.calls.faults self.new.calls.faults result }

        // It gives the first that is left, and changes nothing else.
        ensures given { GivesPart (fails_next self.old.calls) result self.old.creators self.new.creators }
        ensures calls { CallsOnce result self.old.calls self.new.calls }
        ensures apart { self.new ≡ record self.old { creators = self.new.creators; calls = self.new.calls } }
    {
        first(&mut self.calls, &mut self.creators)
    }

    fn clock(&mut self) -> Result<MemClock, MakeError>
        ensures same { Some (around_of self.new.cwd self.new.variables self.new.is_out_terminal self.new.is_err_terminal) ≡ Some (around_of self.old.cwd self.old.variables self.old.is_out_terminal self.old.is_err_terminal) }
        ensures later { self.old.calls.faults ≤ self.new.calls.faults }
        ensures cause { MakeCause self.old.calls.faults self.new.calls.faults result }

        // It gives the first that is left, and changes nothing else.
        ensures given { GivesPart (fails_next self.old.calls) result self.old.clocks self.new.clocks }
        ensures calls { CallsOnce result self.old.calls self.new.calls }
        ensures apart { self.new ≡ record self.old { clocks = self.new.clocks; calls = self.new.calls } }
    {
        first(&mut self.calls, &mut self.clocks)
    }
}
