ghost use Rattle.std.specs.Prelude.{◌≡◌, ◌∷◌, ◌++◌, [], ◌||◌, Some, IfOk, OnOk, OnErr, true, false};
ghost use Rattle.std.specs.Option.{option_copied, option_map};
ghost use Rattle.sc_disk.specs.declared.change.Change.TheVariants.{Made, Added, Touched, Moved, Gone};
ghost use Rattle.sc_disk.specs.Devices.{CountsOn, MakesOn};
ghost use Rattle.sc_disk.specs.Disks.{Adopts, AdoptsPart, ArePlaced, Changes, ChangesPart, DiskCause, Does, DoesPart, HasBytes, IsHeld, IsListing, IsOneDevice, IsSize, change, disk_file, disk_file_at, has_place, outside_file_at, with_disk_file};
ghost use Rattle.sc_disk.specs.Memory.{Alters, Answers, Counts, held_files, lacks, lacks_outside, memory, memory_state, outside_of, with_changes};

use crate::change::Change;
use crate::disk::{Disk, DiskError, Listed};
use crate::disk_file::DiskFile;
use crate::file_table::FileTable;
use sc_entry::{ByteText, Calls, Items, NoMemory, Text};
use std::alloc::Global;
use std::collections::{BTreeMap, VecDeque};
use std::marker::Model;

/// A disk in memory, which tells what it holds. It records each change of its files. It refuses the calls whose numbers
/// are to fail and those for an absent file, and nothing else.
#[derive(Drop)]
pub struct MemDisk {
    alloc: Global,
    root: ByteText,
    outside: BTreeMap<ByteText, ByteText>,
    files: FileTable,
    done: VecDeque<Change>,
    calls: Calls,
}

impl Model for MemDisk {
    ghost use Rattle.std.specs.Prelude.{◌≡◌};
    ghost use Rattle.sc_disk.specs.Disks.{no_disk_files, replay};
    ghost use Rattle.sc_disk.specs.Memory.{Memory, memory};

    ghost Value = { Memory };

    ghost view = { λ d. memory d.root d.outside.entries d.done.items d.calls };

    ghost invariant = { λ d. d.files ≡ replay no_disk_files d.done.items };
}

impl MemDisk {
    /// A disk without files under this root, with these bytes at their paths outside it.
    pub fn new(
        alloc: Global,
        root: ByteText,
        outside: BTreeMap<ByteText, ByteText>,
        calls: Calls,
    ) -> MemDisk
        ensures { result ≡ memory root outside.entries [] calls }
    {
        MemDisk {
            alloc,
            root,
            outside,
            files: FileTable::new(alloc),
            done: VecDeque::new(alloc),
            calls,
        }
    }

    /// Puts a file at a path, as if it had been made and filled; no call is counted.
    pub fn hold(&mut self, path: &Text, moment: u64, bytes: &[u8]) -> Result<(), NoMemory>
        ensures ok { OnOk result (self.new ≡ with_changes (Added path.now bytes.now ∷ Made path.now moment ∷ []) self.old) }
        ensures calls { self.new.calls ≡ self.old.calls }
    {
        self.make(path, moment)?;
        self.add(path, bytes)?;
        Ok(())
    }

    /// A path's file.
    pub fn get(&self, path: &Text) -> Option<&DiskFile>
        ensures { option_copied result ≡ disk_file_at (held_files self.now) path.now }
    {
        self.files.get(path)
    }

    /// All files, as a listing tells them; no call is counted.
    pub fn files(&self) -> Result<Items<Listed>, NoMemory>
        ensures { IfOk result (λ all. IsListing all (memory_state self.now)) }
    {
        self.files.list()
    }

    /// All changes of the files since the disk was made, the newest first.
    pub fn changes(&self) -> &VecDeque<Change>
        ensures { result.now.items ≡ self.now.done }
    {
        &self.done
    }

    /// How many calls came.
    pub fn calls(&self) -> u64
        ensures { result ≡ self.now.calls.made }
    {
        self.calls.made()
    }
}

impl MemDisk {
    // Counts a call, and says whether it is refused.
    fn refuses(&mut self, absent: bool) -> bool
        ensures counted { Counts absent self.old.calls self.new.calls result }
        ensures counts { CountsOn (Some self.old.calls) (Some self.new.calls) self.old.calls.faults self.new.calls.faults }
        ensures present { absent ≡ false → MakesOn (Some self.old.calls) (Some self.new.calls) self.old.calls.faults self.new.calls.faults }
        ensures passes { result ≡ false → MakesOn (Some self.old.calls) (Some self.new.calls) self.old.calls.faults self.new.calls.faults }
        ensures alters { Alters [] self.old self.new }
    {
        let _made = self.calls.made();
        if self.calls.fails_next() {
            return true;
        }
        if absent {
            self.calls.refuse();
        }
        absent
    }

    // Records a change that leaves this file at the path, if it is any.
    fn put(&mut self, made: Change, path: Text, file: Option<DiskFile>) -> Result<(), NoMemory>
        requires { change made (held_files self.old) ≡ with_disk_file (held_files self.old) path file }
        ensures ok { OnOk result (self.new ≡ with_changes (made ∷ []) self.old) }
        ensures err { OnErr result (self.new ≡ self.old) }
    {
        self.done.push_front(made)?;
        let Some(file) = file else {
            return Ok(());
        };
        let Ok(_) = self.files.put(path, file) else {
            self.done.pop_front();
            return Err(NoMemory);
        };
        Ok(())
    }

    fn make(&mut self, path: &Text, now: u64) -> Result<(), NoMemory>
        ensures ok { OnOk result (self.new ≡ with_changes (Made path.now now ∷ []) self.old) }
        ensures err { OnErr result (self.new ≡ self.old) }
    {
        let made = Change::Made(path.try_clone()?, now);
        let file = DiskFile {
            moment: now,
            bytes: ByteText::new(self.alloc),
        };
        let path = path.try_clone()?;
        self.put(made, path, Some(file))
    }

    fn add(&mut self, path: &Text, bytes: &[u8]) -> Result<(), NoMemory>
        ensures ok { OnOk result (self.new ≡ with_changes (Added path.now bytes.now ∷ []) self.old) }
        ensures err { OnErr result (self.new ≡ self.old) }
    {
        let file = longer(self.files.get(path), bytes)?;
        let made = Change::Added(path.try_clone()?, ByteText::from_slice(self.alloc, bytes)?);
        let path = path.try_clone()?;
        self.put(made, path, file)
    }

    fn give_moment(&mut self, path: &Text, now: u64) -> Result<(), NoMemory>
        ensures ok { OnOk result (self.new ≡ with_changes (Touched path.now now ∷ []) self.old) }
        ensures err { OnErr result (self.new ≡ self.old) }
    {
        let file = moved_to(self.files.get(path), now)?;
        let made = Change::Touched(path.try_clone()?, now);
        let path = path.try_clone()?;
        self.put(made, path, file)
    }

    fn move_file(&mut self, from: &Text, to: &Text) -> Result<(), NoMemory>
        ensures ok { OnOk result (self.new ≡ with_changes (Moved from.now to.now ∷ []) self.old) }
        ensures err { OnErr result (self.new ≡ self.old) }
    {
        let made = Change::Moved(from.try_clone()?, to.try_clone()?);
        let to = to.try_clone()?;
        self.done.push_front(made)?;
        let Ok(()) = self.files.rename(from, to) else {
            self.done.pop_front();
            return Err(NoMemory);
        };
        Ok(())
    }

    fn take(&mut self, path: &Text) -> Result<(), NoMemory>
        ensures ok { OnOk result (self.new ≡ with_changes (Gone path.now ∷ []) self.old) }
        ensures err { OnErr result (self.new ≡ self.old) }
    {
        let made = Change::Gone(path.try_clone()?);
        self.done.push_front(made)?;
        self.files.remove(path);
        Ok(())
    }

    fn is_absent(&self, path: &Text) -> bool
        ensures { result ≡ lacks self.now path.now }
    {
        self.files.get(path).is_none()
    }

    fn is_outside_absent(&self, outside: &ByteText) -> bool
        ensures { result ≡ lacks_outside self.now outside.now }
    {
        self.outside.get(outside).is_none()
    }

    // The bytes at an outside path; without a file there none.
    fn outside_bytes(&self, outside: &ByteText) -> Result<ByteText, NoMemory>
        ensures { lacks_outside self.now outside.now ≡ false → IfOk result (λ bytes. outside_file_at (outside_of self.now.outside) outside.now ≡ Some bytes) }
    {
        match self.outside.get(outside) {
            Some(bytes) => {
                let bytes = bytes.try_clone()?;
                Ok(bytes)
            }
            None => Ok(ByteText::new(self.alloc)),
        }
    }
}

impl Disk for MemDisk {
    ghost state = { memory_state };

    fn faults(&self) -> u64 {
        self.calls.faults()
    }

    fn root(&self) -> &ByteText {
        &self.root
    }

    fn is_divided(&self) -> bool {
        false
    }

    fn has_place(&self, _path: &Text) -> bool {
        let _undivided = &self.root;
        true
    }

    fn list(&mut self) -> Result<Items<Listed>, DiskError>
        ensures same { Does [] (memory_state self.old) (memory_state self.new) }
        ensures listed { IfOk result (λ all. IsListing all (memory_state self.old)) }
        ensures placed { IfOk result (λ all. ArePlaced all (memory_state self.old)) }
        ensures cause { DiskCause (memory_state self.old) (memory_state self.new) result }
        ensures answers { Answers (false) self.old self.new result }
    {
        if self.refuses(false) {
            return Err(DiskError::Fault);
        }
        let all = self.files()?;
        Ok(all)
    }

    fn create(&mut self, path: &Text, now: u64) -> Result<(), DiskError>
        ensures ok { OnOk result (Does (Made path.now now ∷ []) (memory_state self.old) (memory_state self.new)) }
        ensures err { OnErr result (Changes [] (memory_state self.old) (memory_state self.new)) }
        ensures placed { has_place (memory_state self.old) path.now ≡ true → OnErr result (Does [] (memory_state self.old) (memory_state self.new)) }
        ensures cause { DiskCause (memory_state self.old) (memory_state self.new) result }
        ensures answers { Answers (false) self.old self.new result }
    {
        if self.refuses(false) {
            return Err(DiskError::Fault);
        }
        self.make(path, now)?;
        Ok(())
    }

    fn append(&mut self, path: &Text, bytes: &[u8]) -> Result<(), DiskError>
        ensures ok { OnOk result (Does (Added path.now bytes.now ∷ []) (memory_state self.old) (memory_state self.new)) }
        ensures err { OnErr result (ChangesPart path.now bytes.now (memory_state self.old) (memory_state self.new)) }
        ensures held { IsHeld path.now (memory_state self.old) → OnErr result (DoesPart path.now bytes.now (memory_state self.old) (memory_state self.new)) }
        ensures cause { DiskCause (memory_state self.old) (memory_state self.new) result }
        ensures answers { Answers (lacks self.old path.now) self.old self.new result }
    {
        let absent = self.is_absent(path);
        if self.refuses(absent) {
            return Err(DiskError::Fault);
        }
        self.add(path, bytes)?;
        Ok(())
    }

    fn adopt(&mut self, outside: &ByteText, path: &Text) -> Result<(), DiskError>
        ensures ok { OnOk result (Adopts outside.now path.now (memory_state self.old) (memory_state self.new)) }
        ensures err { OnErr result (AdoptsPart outside.now path.now (memory_state self.old) (memory_state self.new)) }
        ensures cause { DiskCause (memory_state self.old) (memory_state self.new) result }
        ensures answers { Answers (lacks self.old path.now || lacks_outside self.old outside.now) self.old self.new result }
    {
        let absent = self.is_absent(path) || self.is_outside_absent(outside);
        if self.refuses(absent) {
            return Err(DiskError::Fault);
        }
        let bytes = self.outside_bytes(outside)?;
        self.add(path, bytes.as_slice())?;
        Ok(())
    }

    fn len(&mut self, path: &Text) -> Result<u64, DiskError>
        ensures same { Changes [] (memory_state self.old) (memory_state self.new) }
        ensures ok { OnOk result (Does [] (memory_state self.old) (memory_state self.new)) }
        ensures held { IsHeld path.now (memory_state self.old) → OnErr result (Does [] (memory_state self.old) (memory_state self.new)) }
        ensures size { IfOk result (λ n. IsSize path.now n (memory_state self.old)) }
        ensures cause { DiskCause (memory_state self.old) (memory_state self.new) result }
        ensures answers { Answers (lacks self.old path.now) self.old self.new result }
    {
        let absent = self.is_absent(path);
        if self.refuses(absent) {
            return Err(DiskError::Fault);
        }
        match self.files.get(path) {
            Some(file) => Ok(file.bytes.len() as u64),
            None => Err(DiskError::Fault),
        }
    }

    fn read(&mut self, path: &Text) -> Result<ByteText, DiskError>
        ensures same { Changes [] (memory_state self.old) (memory_state self.new) }
        ensures ok { OnOk result (Does [] (memory_state self.old) (memory_state self.new)) }
        ensures held { IsHeld path.now (memory_state self.old) → OnErr result (Does [] (memory_state self.old) (memory_state self.new)) }
        ensures bytes { IfOk result (λ bytes. HasBytes path.now bytes (memory_state self.old)) }
        ensures cause { DiskCause (memory_state self.old) (memory_state self.new) result }
        ensures answers { Answers (lacks self.old path.now) self.old self.new result }
    {
        let absent = self.is_absent(path);
        if self.refuses(absent) {
            return Err(DiskError::Fault);
        }
        match self.files.get(path) {
            Some(file) => {
                let bytes = file.bytes.try_clone()?;
                Ok(bytes)
            }
            None => Err(DiskError::Fault),
        }
    }

    fn rename(&mut self, from: &Text, to: &Text) -> Result<(), DiskError>
        ensures ok { OnOk result (Does (Moved from.now to.now ∷ []) (memory_state self.old) (memory_state self.new)) }
        ensures err { OnErr result (Changes [] (memory_state self.old) (memory_state self.new)) }
        ensures held { IsHeld from.now (memory_state self.old) → IsOneDevice from.now to.now (memory_state self.old) → OnErr result (Does [] (memory_state self.old) (memory_state self.new)) }
        ensures cause { DiskCause (memory_state self.old) (memory_state self.new) result }
        ensures answers { Answers (lacks self.old from.now) self.old self.new result }
    {
        let absent = self.is_absent(from);
        if self.refuses(absent) {
            return Err(DiskError::Fault);
        }
        self.move_file(from, to)?;
        Ok(())
    }

    fn remove(&mut self, path: &Text) -> Result<(), DiskError>
        ensures ok { OnOk result (Does (Gone path.now ∷ []) (memory_state self.old) (memory_state self.new)) }
        ensures err { OnErr result (Changes [] (memory_state self.old) (memory_state self.new)) }
        ensures placed { has_place (memory_state self.old) path.now ≡ true → OnErr result (Does [] (memory_state self.old) (memory_state self.new)) }
        ensures held { IsHeld path.now (memory_state self.old) → OnErr result (Does [] (memory_state self.old) (memory_state self.new)) }
        ensures cause { DiskCause (memory_state self.old) (memory_state self.new) result }
        ensures answers { Answers (false) self.old self.new result }
    {
        if self.refuses(false) {
            return Err(DiskError::Fault);
        }
        self.take(path)?;
        Ok(())
    }

    fn touch(&mut self, path: &Text, now: u64) -> Result<(), DiskError>
        ensures ok { OnOk result (Does (Touched path.now now ∷ []) (memory_state self.old) (memory_state self.new)) }
        ensures err { OnErr result (Changes [] (memory_state self.old) (memory_state self.new)) }
        ensures held { IsHeld path.now (memory_state self.old) → OnErr result (Does [] (memory_state self.old) (memory_state self.new)) }
        ensures cause { DiskCause (memory_state self.old) (memory_state self.new) result }
        ensures answers { Answers (lacks self.old path.now) self.old self.new result }
    {
        let absent = self.is_absent(path);
        if self.refuses(absent) {
            return Err(DiskError::Fault);
        }
        self.give_moment(path, now)?;
        Ok(())
    }
}

// A file with more bytes at its end.
fn longer(file: Option<&DiskFile>, bytes: &[u8]) -> Result<Option<DiskFile>, NoMemory>
    ensures { IfOk result (λ more. more ≡ option_map (λ f. disk_file f.moment (f.bytes ++ bytes.now)) (option_copied file.entry)) }
{
    let Some(file) = file else {
        return Ok(None);
    };
    let mut all = file.bytes.try_clone()?;
    all.append(bytes)?;
    Ok(Some(DiskFile {
        moment: file.moment,
        bytes: all,
    }))
}

// A file with another moment.
fn moved_to(file: Option<&DiskFile>, now: u64) -> Result<Option<DiskFile>, NoMemory>
    ensures { IfOk result (λ later. later ≡ option_map (λ f. disk_file now f.bytes) (option_copied file.entry)) }
{
    let Some(file) = file else {
        return Ok(None);
    };
    Ok(Some(DiskFile {
        moment: now,
        bytes: file.bytes.try_clone()?,
    }))
}
