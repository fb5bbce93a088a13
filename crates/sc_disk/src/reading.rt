//! Reads and removals of a store of files.
ghost use Rattle.std.specs.Prelude.{◌≡◌, ◌≤◌, Bool, ◌∷◌, ◌++◌, [], Some, None, IfOk, OnOk, OnErr, IfErr, IsTrue, is_some, bytes_eq, cond};
ghost use Rattle.std.specs.Io.Cursor.{cursor_inner, cursor_position};
ghost use Rattle.std.specs.Map.{lookup, remove_entry};
ghost use Rattle.sc_entry.specs.Keys.{is_file_key};
ghost use Rattle.sc_lru.specs.Order.{touched};
ghost use Rattle.sc_disk.specs.Calls.{Gets, RefusesGet, Reads, Removes, touched_by, removed_by};
ghost use Rattle.sc_disk.specs.Disks.{Does, HasBytes, IsHeld};
ghost use Rattle.sc_disk.specs.Refusals.{DiskRefusal, RemoveCause};
ghost use Rattle.sc_disk.specs.Store.{Alters, IsTidy};
ghost use Rattle.sc_disk.specs.declared.change.Change.TheVariants.{Gone, Touched};

use crate::disk::Disk;
use crate::error::Error;
use crate::file_key::FileKey;
use crate::file_name::is_file_key;
use crate::lru_disk_cache::LruDiskCache;
use sc_entry::{ByteText, NoMemory};
use std::io::Cursor;

impl<D: Disk> LruDiskCache<D> {
    // Gives a key's file its moment, and reads it.
    fn read_used(&mut self, key: &FileKey, now: u64) -> Result<ByteText, Error>
        requires { IsHeld key.now self.old.disk }
        ensures ok { IfOk result (λ bytes. Reads key.now bytes now self.old self.new) }
        ensures err { OnErr result ((touches : Bool) × Alters (touched_by touches key.now now) self.old self.new) }
        ensures cause { IfErr result (DiskRefusal self.old.disk.faults self.new.disk.faults) }
    {
        self.disk.touch(key.as_text(), now)?;
        let bytes = self.disk.read(key.as_text())?;
        Ok(bytes)
    }

    /// The bytes of a key's file. The key becomes the most recently used, and its file gets this moment.
    ///
    /// A text that is no file key is refused first, then a key that isn't indexed, also where an entry is open for it.
    pub fn get_file(&mut self, key: &FileKey, now: u64) -> Result<Cursor<Vec<u8>>, Error>
        ensures ok { IfOk result (λ file. Gets key.now (cursor_inner file).items now self.old self.new) }
        ensures start { IfOk result (λ file. cursor_position file ≡ 0) }
        ensures err { IfErr result (λ refused. (touches : Bool) × RefusesGet refused key.now now touches self.old self.new) }
        ensures tidy { IsTidy self.old → IsTidy self.new }
    {
        if !is_file_key(key.as_text()) {
            return Err(Error::BadKey);
        }
        if !self.use_key(key) {
            return Err(Error::FileNotInCache);
        }
        let bytes = self.read_used(key, now)?;
        Ok(Cursor::new(bytes.into_vec()))
    }

    /// What `get_file` answers.
    pub fn get(&mut self, key: &FileKey, now: u64) -> Result<Cursor<Vec<u8>>, Error>
        ensures ok { IfOk result (λ file. Gets key.now (cursor_inner file).items now self.old self.new) }
        ensures start { IfOk result (λ file. cursor_position file ≡ 0) }
        ensures err { IfErr result (λ refused. (touches : Bool) × RefusesGet refused key.now now touches self.old self.new) }
        ensures tidy { IsTidy self.old → IsTidy self.new }
    {
        self.get_file(key, now)
    }

    /// Removes a key's file, and then its pair. An absent key is no refusal.
    pub fn remove(&mut self, key: &FileKey) -> Result<(), Error>
        ensures ok { OnOk result (Removes key.now self.old self.new) }
        ensures err { OnErr result (Alters [] self.old self.new) }
        ensures cause { IfErr result (RemoveCause (is_file_key key.now) self.old.disk.faults self.new.disk.faults) }
        ensures tidy { IsTidy self.old → IsTidy self.new }
    {
        if !is_file_key(key.as_text()) {
            return Err(Error::BadKey);
        }
        let _distinct = self.index.len();
        if !self.index.contains_key(key) {
            return Ok(());
        }
        self.disk.remove(key.as_text())?;
        self.index.remove(key);
        Ok(())
    }
}
