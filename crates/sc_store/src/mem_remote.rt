ghost use Rattle.std.specs.Prelude.{◌≡◌, ◌≤◌, ℕ, true, false, None, Some, IfOk, cond, length};
ghost use Rattle.std.specs.List.{list_any};
ghost use Rattle.std.specs.Ordering.{nat_cmp, eq_by_cmp};
ghost use Rattle.sc_entry.specs.Failing.{fails_at, faults_after, one_more};
ghost use Rattle.sc_model.specs.Devices.{Failed, MakesMade, MakesOn, Passed, calls_failing};
ghost use Rattle.sc_model.specs.Levels.{no_files, find_file, put_file};
ghost use Rattle.sc_store_disk.specs.Devices.{calls_of};
ghost use Rattle.sc_store.specs.Held.{memory_names};
ghost use Rattle.sc_store.specs.Paths.{entries_of, put_all, told_size};
ghost use Rattle.sc_store.specs.Remotes.{ReadCalls, ReadCause, Reads, WriteCalls, WriteCause, Writes, read_of, write_of};

use crate::path_map::PathMap;
use crate::remote::{Remote, RemoteRead, RemoteWrite};
use sc_entry::{ByteText, Calls, Items, NoMemory, Text};
use sc_model::RemoteFault;
use std::alloc::Global;

/// A store in memory, which tells what it holds. It refuses the reads and writes whose numbers are to fail, and no
/// others, and loses nothing.
#[derive(Drop)]
pub struct MemRemote {
    files: PathMap,
    calls: Calls,
}

/// The map of a list of paths with their bytes; of two with one path the later stays.
fn map_of(alloc: Global, held: Items<(Text, ByteText)>) -> Result<PathMap, NoMemory>
    ensures { IfOk result (λ files. files ≡ put_all no_files held) }
{
    let mut files = PathMap::new(alloc);
    for (path, bytes) in held.into_vec() {
        files.put(path, bytes)?;
    }
    Ok(files)
}

impl MemRemote {
    /// A store that holds these bytes at these paths (of two with one path the later), and is to refuse the calls of
    /// these numbers. Reads and writes are counted together, from 1.
    #[tactic(auto, using(crate::proofs::Devices::new_calls))]
    pub fn new(
        alloc: Global,
        held: Items<(Text, ByteText)>,
        failing: Items<u64>,
    ) -> Result<MemRemote, NoMemory>
        ensures held { IfOk result (λ remote. remote.files ≡ put_all no_files held) }
        ensures failing { IfOk result (λ remote. (number : ℕ) → fails_at remote.calls number ≡ list_any (eq_by_cmp nat_cmp number) failing) }
        ensures calls { IfOk result (λ remote. calls_of remote.calls ≡ calls_failing failing) }
        ensures made { IfOk result (λ remote. remote.calls.made ≡ 0) }
        ensures faults { IfOk result (λ remote. remote.calls.faults ≡ 0) }
    {
        Ok(MemRemote {
            files: map_of(alloc, held)?,
            calls: Calls::failing_at(alloc, failing)?,
        })
    }

    /// At how many paths it holds bytes.
    pub fn len(&self) -> usize
        ensures { result ≡ length (entries_of self.now.files) }
    {
        self.files.len()
    }

    /// All bytes that it holds together; the sum stops at the end of `u64`.
    pub fn size(&self) -> u64
        ensures { result ≡ told_size self.now.files }
    {
        self.files.size()
    }
}

impl MemRemote {
    // Counts a call, and says whether it is to fail.
    fn count_call(&mut self) -> bool
        ensures answer { result ≡ fails_at self.old.calls self.new.calls.made }
        ensures calls { MakesOn (Some (calls_of self.old.calls)) (Some (calls_of self.new.calls)) self.old.calls.faults self.new.calls.faults }
        ensures passed { result ≡ false → MakesMade (Passed 1) (Some (calls_of self.old.calls)) (Some (calls_of self.new.calls)) self.old.calls.faults self.new.calls.faults }
        ensures failed { result ≡ true → MakesMade (Failed 0 0) (Some (calls_of self.old.calls)) (Some (calls_of self.new.calls)) self.old.calls.faults self.new.calls.faults }
        ensures failing { (number : ℕ) → fails_at self.new.calls number ≡ fails_at self.old.calls number }
        ensures made { self.new.calls.made ≡ one_more self.old.calls.made }
        ensures faults { self.new.calls.faults ≡ faults_after (fails_at self.old.calls self.new.calls.made) self.old.calls.faults }
        ensures later { self.old.calls.faults ≤ self.new.calls.faults }
        ensures files { self.new.files ≡ self.old.files }
    {
        let _made = self.calls.made();
        self.calls.fails_next()
    }
}

impl Remote for MemRemote {
    ghost held = { λ m. Some m.files };

    ghost fault_count = { λ m. m.calls.faults };

    ghost loss_count = { λ m. 0 };

    ghost calls = { λ m. Some (calls_of m.calls) };

    ghost reached = { λ m. None };

    ghost names = { λ _. memory_names };

    fn faults(&self) -> u64 {
        self.calls.faults()
    }

    fn read(&mut self, _alloc: Global, path: &Text) -> Result<RemoteRead, NoMemory>
        ensures told { IfOk result (λ answer. Reads answer 0 0 path.now self.old.files self.new.files) }
        ensures cause { IfOk result (λ answer. ReadCause answer self.old.calls.faults self.new.calls.faults) }
        ensures one_call { IfOk result (λ answer. ReadCalls answer (Some (calls_of self.old.calls)) (Some (calls_of self.new.calls)) self.old.calls.faults self.new.calls.faults) }
        ensures calls { MakesOn (Some (calls_of self.old.calls)) (Some (calls_of self.new.calls)) self.old.calls.faults self.new.calls.faults }
        ensures faults_stay { self.old.calls.faults ≤ self.new.calls.faults }
        ensures answer { IfOk result (λ answer. answer ≡ read_of (fails_at self.old.calls self.new.calls.made) (find_file self.old.files path.now)) }
        ensures files { self.new.files ≡ self.old.files }
        ensures made { self.new.calls.made ≡ one_more self.old.calls.made }
        ensures failing { (number : ℕ) → fails_at self.new.calls number ≡ fails_at self.old.calls number }
        ensures faults { self.new.calls.faults ≡ faults_after (fails_at self.old.calls self.new.calls.made) self.old.calls.faults }
    {
        if self.count_call() {
            return Ok(RemoteRead::Refused(RemoteFault::Other));
        }
        match self.files.get(path) {
            Some(bytes) => Ok(RemoteRead::Found(bytes.try_clone()?)),
            None => Ok(RemoteRead::NotFound),
        }
    }

    fn write(
        &mut self,
        _alloc: Global,
        path: &Text,
        bytes: &ByteText,
    ) -> Result<RemoteWrite, NoMemory>
        ensures told { IfOk result (λ answer. Writes answer 0 0 path.now bytes.now self.old.files self.new.files) }
        ensures cause { IfOk result (λ answer. WriteCause answer self.old.calls.faults self.new.calls.faults) }
        ensures one_call { IfOk result (λ answer. WriteCalls answer (Some (calls_of self.old.calls)) (Some (calls_of self.new.calls)) self.old.calls.faults self.new.calls.faults) }
        ensures calls { MakesOn (Some (calls_of self.old.calls)) (Some (calls_of self.new.calls)) self.old.calls.faults self.new.calls.faults }
        ensures faults_stay { self.old.calls.faults ≤ self.new.calls.faults }
        ensures answer { IfOk result (λ answer. answer ≡ write_of (fails_at self.old.calls self.new.calls.made)) }
        ensures files { IfOk result (λ answer. self.new.files ≡ cond (fails_at self.old.calls self.new.calls.made) self.old.files (put_file self.old.files path.now bytes.now)) }
        ensures made { self.new.calls.made ≡ one_more self.old.calls.made }
        ensures failing { (number : ℕ) → fails_at self.new.calls number ≡ fails_at self.old.calls number }
        ensures faults { self.new.calls.faults ≡ faults_after (fails_at self.old.calls self.new.calls.made) self.old.calls.faults }
    {
        if self.count_call() {
            return Ok(RemoteWrite::Refused(RemoteFault::Other));
        }
        self.files.put(path.try_clone()?, bytes.try_clone()?)?;
        Ok(RemoteWrite::Done)
    }

    fn scheme(&self) -> &str {
        "memory"
    }

    fn name(&self) -> &str {
        "m"
    }

    fn root(&self) -> &str {
        "/"
    }
}
