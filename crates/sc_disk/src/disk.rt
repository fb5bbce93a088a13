ghost use Rattle.std.specs.Prelude.{◌≡◌, ◌∷◌, [], true, IfOk, OnOk, OnErr};
ghost use Rattle.sc_disk.specs.declared.change.Change.TheVariants.{Made, Added, Touched, Moved, Gone};
ghost use Rattle.sc_disk.specs.Disks.{Adopts, AdoptsPart, ArePlaced, Changes, ChangesPart, DiskCause, DiskState, Does, DoesPart, HasBytes, IsHeld, IsListing, IsOneDevice, IsSize, has_place};
ghost use Rattle.sc_disk.specs.declared.disk.DiskError.TheVariants as disk_errors;

use sc_entry::{ByteText, Items, NoMemory, Text};
use std::alloc::{AllocError, AllocFailed};

/// Why a disk refused.
#[derive(Clone, Copy, Debug, Drop, PartialEq, Eq)]
pub enum DiskError {
    NoMemory,
    /// The disk failed; it counted this.
    Fault,
}

impl From<NoMemory> for DiskError {
    ghost from_gives = { λ _ error. error ≡ disk_errors.NoMemory };

    fn from(_: NoMemory) -> DiskError {
        DiskError::NoMemory
    }
}

impl From<AllocError> for DiskError {
    ghost from_gives = { λ _ error. error ≡ disk_errors.NoMemory };

    fn from(_: AllocError) -> DiskError {
        DiskError::NoMemory
    }
}

impl<T: Drop> From<AllocFailed<T>> for DiskError {
    ghost from_gives = { λ _ error. error ≡ disk_errors.NoMemory };

    fn from(_: AllocFailed<T>) -> DiskError {
        DiskError::NoMemory
    }
}

/// A file as a listing has it.
///
/// Files are ordered by their use: by their moments, then by their paths.
#[derive(Debug, Drop, PartialEq, Eq, PartialOrd, Ord)]
pub struct Listed {
    /// When it was last used, in nanoseconds.
    pub moment: u64,
    pub path: Text,
    /// In bytes.
    pub size: u64,
}

/// A folder of files by their paths in it.
///
/// A disk that tells what it holds tells the files that it had at first and each change since, so also every state that
/// it had since a moment. A stop leaves one of these, or that of an append or adoption under way with a front of its
/// bytes. No call changes whether a disk tells, its root, or its devices, and no count of faults falls. A device that
/// tells its calls tells which are to fail: it fails at these, and else only at a path that it doesn't hold, or has no
/// place for.
pub trait Disk {
    /// What the disk tells, how often it failed, its calls, its root, and its devices.
    ghost state: { Self → DiskState };

    /// How often it failed. The count never falls, and stays at the greatest `u64`.
    fn faults(&self) -> u64
        ensures { result ≡ (state self.now).faults };

    /// The path that its files stand under.
    fn root(&self) -> &ByteText
        ensures { result.now ≡ (state self.now).root };

    /// Whether the first part of each path names a device of its own, so that no file is moved from one to another.
    fn is_divided(&self) -> bool
        ensures { result ≡ (state self.now).divided };

    /// Whether it has a device for a path.
    fn has_place(&self, path: &Text) -> bool
        ensures { result ≡ has_place (state self.now) path.now };

    /// All files, their paths ascending by their bytes.
    fn list(&mut self) -> Result<Items<Listed>, DiskError>
        ensures same { Does [] (state self.old) (state self.new) }
        ensures listed { IfOk result (λ all. IsListing all (state self.old)) }
        ensures placed { IfOk result (λ all. ArePlaced all (state self.old)) }
        ensures cause { DiskCause (state self.old) (state self.new) result };

    /// Makes an empty file at a path, in place of any that stood there.
    fn create(&mut self, path: &Text, now: u64) -> Result<(), DiskError>
        ensures ok { OnOk result (Does (Made path.now now ∷ []) (state self.old) (state self.new)) }
        ensures err { OnErr result (Changes [] (state self.old) (state self.new)) }
        ensures placed { has_place (state self.old) path.now ≡ true → OnErr result (Does [] (state self.old) (state self.new)) }
        ensures cause { DiskCause (state self.old) (state self.new) result };

    /// Adds bytes at the end of a path's file. A refused call may leave a front of them there.
    fn append(&mut self, path: &Text, bytes: &[u8]) -> Result<(), DiskError>
        ensures ok { OnOk result (Does (Added path.now bytes.now ∷ []) (state self.old) (state self.new)) }
        ensures err { OnErr result (ChangesPart path.now bytes.now (state self.old) (state self.new)) }
        ensures held { IsHeld path.now (state self.old) → OnErr result (DoesPart path.now bytes.now (state self.old) (state self.new)) }
        ensures cause { DiskCause (state self.old) (state self.new) result };

    /// Adds the bytes of an outside file at the end of a path's file. The outside file stays. A refused call may leave a
    /// front of them there.
    fn adopt(&mut self, outside: &ByteText, path: &Text) -> Result<(), DiskError>
        ensures ok { OnOk result (Adopts outside.now path.now (state self.old) (state self.new)) }
        ensures err { OnErr result (AdoptsPart outside.now path.now (state self.old) (state self.new)) }
        ensures cause { DiskCause (state self.old) (state self.new) result };

    /// The size of a path's file, in bytes.
    fn len(&mut self, path: &Text) -> Result<u64, DiskError>
        ensures same { Changes [] (state self.old) (state self.new) }
        ensures ok { OnOk result (Does [] (state self.old) (state self.new)) }
        ensures held { IsHeld path.now (state self.old) → OnErr result (Does [] (state self.old) (state self.new)) }
        ensures size { IfOk result (λ n. IsSize path.now n (state self.old)) }
        ensures cause { DiskCause (state self.old) (state self.new) result };

    /// The bytes of a path's file.
    fn read(&mut self, path: &Text) -> Result<ByteText, DiskError>
        ensures same { Changes [] (state self.old) (state self.new) }
        ensures ok { OnOk result (Does [] (state self.old) (state self.new)) }
        ensures held { IsHeld path.now (state self.old) → OnErr result (Does [] (state self.old) (state self.new)) }
        ensures bytes { IfOk result (λ bytes. HasBytes path.now bytes (state self.old)) }
        ensures cause { DiskCause (state self.old) (state self.new) result };

    /// Moves a file to another path, in place of any that stood there, and makes the folders that it needs.
    fn rename(&mut self, from: &Text, to: &Text) -> Result<(), DiskError>
        ensures ok { OnOk result (Does (Moved from.now to.now ∷ []) (state self.old) (state self.new)) }
        ensures err { OnErr result (Changes [] (state self.old) (state self.new)) }
        ensures held { IsHeld from.now (state self.old) → IsOneDevice from.now to.now (state self.old) → OnErr result (Does [] (state self.old) (state self.new)) }
        ensures cause { DiskCause (state self.old) (state self.new) result };

    /// Removes a path's file. An absent one counts as removed.
    fn remove(&mut self, path: &Text) -> Result<(), DiskError>
        ensures ok { OnOk result (Does (Gone path.now ∷ []) (state self.old) (state self.new)) }
        ensures err { OnErr result (Changes [] (state self.old) (state self.new)) }
        ensures placed { has_place (state self.old) path.now ≡ true → OnErr result (Does [] (state self.old) (state self.new)) }
        ensures held { IsHeld path.now (state self.old) → OnErr result (Does [] (state self.old) (state self.new)) }
        ensures cause { DiskCause (state self.old) (state self.new) result };

    /// Gives a path's file this moment.
    fn touch(&mut self, path: &Text, now: u64) -> Result<(), DiskError>
        ensures ok { OnOk result (Does (Touched path.now now ∷ []) (state self.old) (state self.new)) }
        ensures err { OnErr result (Changes [] (state self.old) (state self.new)) }
        ensures held { IsHeld path.now (state self.old) → OnErr result (Does [] (state self.old) (state self.new)) }
        ensures cause { DiskCause (state self.old) (state self.new) result };
}
