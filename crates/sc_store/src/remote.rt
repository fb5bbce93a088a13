ghost use Rattle.std.specs.Prelude.{◌≡◌, ◌≤◌, ℕ, List, Option, IfOk, is_some};
ghost use Rattle.sc_entry.specs.Causes.{Told};
ghost use Rattle.sc_model.specs.Devices.{Calls, Loses, MakesOn};
ghost use Rattle.sc_model.specs.Levels.{Files};
ghost use Rattle.sc_store.specs.Held.{Names};
ghost use Rattle.sc_store.specs.Remotes.{ReachesBy, ReadCalls, ReadCause, Reads, WriteCalls, WriteCause, Writes};

use sc_entry::{ByteText, NoMemory, Text};
use sc_model::RemoteFault;
use std::alloc::Global;

/// What a read found.
#[derive(Drop)]
pub enum RemoteRead {
    Found(ByteText),
    /// Nothing stands at the path. This is no fault.
    NotFound,
    Refused(RemoteFault),
}

/// How a write ended.
#[derive(Clone, Copy)]
pub enum RemoteWrite {
    Done,
    Refused(RemoteFault),
}

/// A store behind a network.
pub trait Remote {
    /// What it holds, by path, where it tells that. No call changes whether it tells.
    ghost held: { Self → Option Files };

    /// How often it refused.
    ghost fault_count: { Self → ℕ };

    /// How often it found that something was lost.
    ghost loss_count: { Self → ℕ };

    /// Which of its calls are to fail, and how many were made, where it tells that. No call changes whether it tells.
    ghost calls: { Self → Option Calls };

    /// What reached what is behind it, path and bytes in order, where it tells that. No call changes whether it tells.
    ghost reached: { Self → Option (List (List ℕ × List ℕ)) };

    /// What it is called. No call changes that.
    ghost names: { Self → Names };

    /// How often it refused. The count never falls, and stays at the greatest `u64`.
    fn faults(&self) -> u64
        ensures { result ≡ fault_count self.now };

    /// The bytes at a path.
    fn read(&mut self, alloc: Global, path: &Text) -> Result<RemoteRead, NoMemory>
        ensures names { names self.new ≡ names self.old }
        ensures tells { is_some (held self.new) ≡ is_some (held self.old) }
        ensures told { IfOk result (λ answer. Told (Reads answer (loss_count self.old) (loss_count self.new) path.now) (held self.old) (held self.new)) }
        ensures cause { IfOk result (λ answer. ReadCause answer (fault_count self.old) (fault_count self.new)) }
        ensures calls { MakesOn (calls self.old) (calls self.new) (fault_count self.old) (fault_count self.new) }
        ensures one_call { IfOk result (λ answer. ReadCalls answer (calls self.old) (calls self.new) (fault_count self.old) (fault_count self.new)) }
        ensures faults_stay { fault_count self.old ≤ fault_count self.new }
        ensures losses { Loses (calls self.old) (loss_count self.old) (loss_count self.new) }
        ensures reached { reached self.new ≡ reached self.old };

    /// Puts bytes at a path, in place of those that stood there.
    fn write(
        &mut self,
        alloc: Global,
        path: &Text,
        bytes: &ByteText,
    ) -> Result<RemoteWrite, NoMemory>
        ensures names { names self.new ≡ names self.old }
        ensures tells { is_some (held self.new) ≡ is_some (held self.old) }
        ensures told { IfOk result (λ answer. Told (Writes answer (loss_count self.old) (loss_count self.new) path.now bytes.now) (held self.old) (held self.new)) }
        ensures cause { IfOk result (λ answer. WriteCause answer (fault_count self.old) (fault_count self.new)) }
        ensures calls { MakesOn (calls self.old) (calls self.new) (fault_count self.old) (fault_count self.new) }
        ensures one_call { IfOk result (λ answer. WriteCalls answer (calls self.old) (calls self.new) (fault_count self.old) (fault_count self.new)) }
        ensures faults_stay { fault_count self.old ≤ fault_count self.new }
        ensures losses { Loses (calls self.old) (loss_count self.old) (loss_count self.new) }
        ensures tells_reached { is_some (reached self.new) ≡ is_some (reached self.old) }
        ensures reached { IfOk result (λ answer. ReachesBy answer path.now bytes.now (reached self.old) (reached self.new)) };

    /// What kind of store it is.
    fn scheme(&self) -> &str
        ensures { result.now ≡ (names self.now).scheme };

    /// The name of the store among those of its kind.
    fn name(&self) -> &str
        ensures { result.now ≡ (names self.now).name };

    /// The path in the store that all paths begin at.
    fn root(&self) -> &str
        ensures { result.now ≡ (names self.now).root };
}
