//! Two disks as one.
ghost use Rattle.std.specs.Prelude.{◌≡◌, ◌++◌, [], true, IfOk, IfErr, OnOk, OnErr};
ghost use Rattle.sc_disk.specs.declared.disk.DiskError.TheVariants as disk_errors;
ghost use Rattle.sc_disk.specs.Disks.{Does, IsHeld, IsListing, IsOneDevice, has_place};
ghost use Rattle.sc_entry.specs.Causes.{IfTold};
ghost use Rattle.sc_disk_pair.specs.Parts.{all_in, in_part};
ghost use Rattle.sc_disk_pair.specs.declared.part.Part.TheVariants as parts;
ghost use Rattle.sc_disk_pair.specs.Twos.{IsJoint, Refuses, Unplaced, disk_of, joined_state, joins};

use crate::history::History;
use crate::part::Part;
use crate::paths;
use sc_disk::{Disk, DiskError, Listed, MemDisk};
use sc_entry::{ByteText, Items, NoMemory, Text};
use std::alloc::Global;
use std::marker::Model;

/// Two disks as one divided disk: `m/..` are the paths of the main disk, `p/..` those of the other. A call with any other
/// path, and a rename from one disk to the other, is refused and counted. It tells what both disks tell, and how their
/// changes follow one another, where both tell and the same stands outside both. Its calls are then those of the main disk,
/// where neither disk is divided and the other tells that none of its calls is to fail; else it tells no calls.
#[derive(Drop)]
pub struct Two<D: Disk> {
    alloc: Global,
    main: D,
    pre: D,
    refused: u64,
    history: History<D>,
}

impl<D: Disk> Model for Two<D> {
    ghost use Rattle.std.specs.Prelude.{map as each};
    ghost use Rattle.sc_disk_pair.specs.Codes.{two_state_code};
    ghost use Rattle.sc_disk_pair.specs.Twos.{TwoState, Weaves, two_state, woven};

    ghost Value = { TwoState };

    ghost coded = { two_state_code };

    ghost view = { λ t. two_state (D.state t.main) (D.state t.pre) t.refused (woven (each (λ x. ((D.state x.0).told, (D.state x.1).told)) t.history.items)) };

    ghost invariant = { λ t. Weaves (D.state t.main).told (D.state t.pre).told (each (λ x. ((D.state x.0).told, (D.state x.1).told)) t.history.items) };
}

/// A path of a part.
#[derive(Drop)]
struct Placed {
    part: Part,
    path: Text,
}

/// Two paths of one part.
#[derive(Drop)]
struct Moving {
    part: Part,
    from: Text,
    to: Text,
}

impl<D: Disk> Two<D> {
    /// Joins two disks.
    pub fn new(alloc: Global, main: D, pre: D) -> Two<D>
        ensures { result ≡ joins (D.state main) (D.state pre) }
    {
        let none = History::new();
        let history = none.and(&main, &pre);
        Two {
            alloc,
            main,
            pre,
            refused: 0,
            history,
        }
    }

    /// The disk of a part. What both tell as one is what each of them tells.
    pub fn disk(&self, part: Part) -> &D
        ensures state { D.state result.now ≡ disk_of part self.now }
        ensures joint { IfTold self.now.told (IsJoint self.now.main.told self.now.pre.told) }
    {
        match part {
            Part::Main => &self.main,
            Part::Pre => &self.pre,
        }
    }

    /// How many calls were refused since a path was of neither disk, or two of them were of both.
    pub fn refused(&self) -> u64
        ensures { result ≡ self.now.refused }
    {
        self.refused
    }

    /// Takes the disks apart: the main one, then the other.
    pub fn into_disks(self) -> (D, D)
        ensures main { D.state result.0 ≡ self.main }
        ensures pre { D.state result.1 ≡ self.pre }
    {
        (self.main, self.pre)
    }

    // Counts a call that is refused for its paths.
    fn refuse(&mut self) -> DiskError
        ensures fault { result ≡ disk_errors.Fault }
        ensures counted { Refuses self.old self.new }
        ensures joint { IfTold self.old.told (IsJoint self.old.main.told self.old.pre.told) }
    {
        self.refused = self.refused.saturating_add(1);
        DiskError::Fault
    }

    // The part of a path; a path of none is refused.
    fn place(&mut self, path: &Text) -> Result<Placed, DiskError>
        ensures placed { IfOk result (λ at. path.now ≡ in_part at.part at.path) }
        ensures ok { OnOk result (self.new ≡ self.old) }
        ensures err { IfErr result (λ error. Unplaced error self.old self.new) }
        ensures has { has_place (joined_state self.old) path.now ≡ true → OnErr result (Does [] (joined_state self.old) (joined_state self.new)) }
        ensures held { IsHeld path.now (joined_state self.old) → OnErr result (Does [] (joined_state self.old) (joined_state self.new)) }
    {
        let Some((part, rest)) = paths::cut_part(path.as_str()) else {
            return Err(self.refuse());
        };
        let path = Text::from_str(self.alloc, rest)?;
        Ok(Placed { part, path })
    }

    // The part of two paths; where they have none, or one has another, they are refused.
    fn place_both(&mut self, from: &Text, to: &Text) -> Result<Moving, DiskError>
        ensures from { IfOk result (λ at. from.now ≡ in_part at.part at.from) }
        ensures to { IfOk result (λ at. to.now ≡ in_part at.part at.to) }
        ensures ok { OnOk result (self.new ≡ self.old) }
        ensures err { IfErr result (λ error. Unplaced error self.old self.new) }
        ensures held { IsHeld from.now (joined_state self.old) → IsOneDevice from.now to.now (joined_state self.old) → OnErr result (Does [] (joined_state self.old) (joined_state self.new)) }
    {
        let from = self.place(from)?;
        let to = self.place(to)?;
        if from.part != to.part {
            return Err(self.refuse());
        }
        Ok(Moving {
            part: from.part,
            from: from.path,
            to: to.path,
        })
    }
}

impl Two<MemDisk> {
    /// The files of both, as a listing tells them; no call is counted.
    pub fn files(&self) -> Result<Items<Listed>, NoMemory>
        ensures { IfOk result (λ all. IsListing all (joined_state self.now)) }
    {
        let main = self.main.files()?;
        let pre = self.pre.files()?;
        let all = join_files(self.alloc, main, pre)?;
        Ok(all)
    }
}

impl<D: Disk> Disk for Two<D> {
    ghost state = { joined_state };

    /// The faults of both disks, and the refused calls. The sum stops at the greatest `u64`, and rises wherever one of
    /// them rises.
    fn faults(&self) -> u64 {
        let disks = self.main.faults().saturating_add(self.pre.faults());
        disks.saturating_add(self.refused)
    }

    /// The main disk's root.
    fn root(&self) -> &ByteText {
        self.main.root()
    }

    fn is_divided(&self) -> bool {
        true
    }

    fn has_place(&self, path: &Text) -> bool {
        paths::cut_part(path.as_str()).is_some()
    }

    /// The main disk's files, then the other's.
    fn list(&mut self) -> Result<Items<Listed>, DiskError> {
        let main = self.main.list()?;
        let pre = self.pre.list()?;
        let all = join_files(self.alloc, main, pre)?;
        Ok(all)
    }

    fn create(&mut self, path: &Text, now: u64) -> Result<(), DiskError> {
        let Placed { part, path } = self.place(path)?;
        match part {
            Part::Main => {
                let created = self.main.create(&path, now);
                self.history = self.history.and(&self.main, &self.pre);
                created
            }
            Part::Pre => {
                let created = self.pre.create(&path, now);
                self.history = self.history.and(&self.main, &self.pre);
                created
            }
        }
    }

    fn append(&mut self, path: &Text, bytes: &[u8]) -> Result<(), DiskError> {
        let Placed { part, path } = self.place(path)?;
        match part {
            Part::Main => {
                let added = self.main.append(&path, bytes);
                self.history = self.history.and(&self.main, &self.pre);
                added
            }
            Part::Pre => {
                let added = self.pre.append(&path, bytes);
                self.history = self.history.and(&self.main, &self.pre);
                added
            }
        }
    }

    fn adopt(&mut self, outside: &ByteText, path: &Text) -> Result<(), DiskError> {
        let Placed { part, path } = self.place(path)?;
        match part {
            Part::Main => {
                let added = self.main.adopt(outside, &path);
                self.history = self.history.and(&self.main, &self.pre);
                added
            }
            Part::Pre => {
                let added = self.pre.adopt(outside, &path);
                self.history = self.history.and(&self.main, &self.pre);
                added
            }
        }
    }

    fn len(&mut self, path: &Text) -> Result<u64, DiskError> {
        let Placed { part, path } = self.place(path)?;
        match part {
            Part::Main => self.main.len(&path),
            Part::Pre => self.pre.len(&path),
        }
    }

    fn read(&mut self, path: &Text) -> Result<ByteText, DiskError> {
        let Placed { part, path } = self.place(path)?;
        match part {
            Part::Main => self.main.read(&path),
            Part::Pre => self.pre.read(&path),
        }
    }

    /// A file stays on its disk: where the paths are of two disks the call is refused.
    fn rename(&mut self, from: &Text, to: &Text) -> Result<(), DiskError> {
        let Moving { part, from, to } = self.place_both(from, to)?;
        match part {
            Part::Main => {
                let moved = self.main.rename(&from, &to);
                self.history = self.history.and(&self.main, &self.pre);
                moved
            }
            Part::Pre => {
                let moved = self.pre.rename(&from, &to);
                self.history = self.history.and(&self.main, &self.pre);
                moved
            }
        }
    }

    fn remove(&mut self, path: &Text) -> Result<(), DiskError> {
        let Placed { part, path } = self.place(path)?;
        match part {
            Part::Main => {
                let removed = self.main.remove(&path);
                self.history = self.history.and(&self.main, &self.pre);
                removed
            }
            Part::Pre => {
                let removed = self.pre.remove(&path);
                self.history = self.history.and(&self.main, &self.pre);
                removed
            }
        }
    }

    fn touch(&mut self, path: &Text, now: u64) -> Result<(), DiskError> {
        let Placed { part, path } = self.place(path)?;
        match part {
            Part::Main => {
                let touched = self.main.touch(&path, now);
                self.history = self.history.and(&self.main, &self.pre);
                touched
            }
            Part::Pre => {
                let touched = self.pre.touch(&path, now);
                self.history = self.history.and(&self.main, &self.pre);
                touched
            }
        }
    }
}

// The main disk's files, then the other's, their paths among those of both.
fn join_files(
    alloc: Global,
    main: Items<Listed>,
    pre: Items<Listed>,
) -> Result<Items<Listed>, NoMemory>
    ensures { IfOk result (λ all. all ≡ all_in parts.Main main ++ all_in parts.Pre pre) }
{
    let mut all = Vec::new(alloc);
    add_files(&mut all, alloc, Part::Main, main)?;
    add_files(&mut all, alloc, Part::Pre, pre)?;
    Ok(Items::from_vec(all))
}

// Adds a part's files behind the others, their paths among those of both.
fn add_files(
    all: &mut Vec<Listed>,
    alloc: Global,
    part: Part,
    files: Items<Listed>,
) -> Result<(), NoMemory>
    ensures { OnOk result (all.new.items ≡ all.old.items ++ all_in part files) }
{
    for file in files.into_vec() {
        let path = paths::in_part(alloc, part, &file.path)?;
        all.push(Listed {
            moment: file.moment,
            path,
            size: file.size,
        })?;
    }
    Ok(())
}
