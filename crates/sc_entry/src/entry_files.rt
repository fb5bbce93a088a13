//! Entries made from files, and placed at files.
ghost use Rattle.std.specs.Prelude.{◌≡◌, ◌≤◌, length, IfOk, IfErr, OnOk, OnErr};
ghost use Rattle.sc_entry.specs.Causes.{Rose, Told};
ghost use Rattle.sc_entry.specs.FileMaps.{FileCause};
ghost use Rattle.sc_entry.specs.Held.{IsFound};
ghost use Rattle.sc_entry.specs.Gathering.{TakesSource, SourceCause, Gathered, FromCause, from_put_error, from_file_error, extract_file_error, is_null_path, is_lacking, lacks_any, object_to_place, place_object, ExtractAnswer, ExtractPlaces, ExtractCause};
ghost use Rattle.sc_entry.specs.declared.entry_files.ExtractError.TheVariants as extract_errors;
ghost use Rattle.sc_entry.specs.declared.entry_files.FromObjectsError.TheVariants as from_errors;

use crate::byte_text::ByteText;
use crate::cache_read::CacheRead;
use crate::cache_write::CacheWrite;
use crate::entry_error::PutError;
use crate::file_error::FileError;
use crate::files::Files;
use crate::memory::NoMemory;
use crate::object::FileObjectSource;
use std::alloc::Global;

/// Why no entry is made from files.
#[derive(Clone, Copy, Debug, Drop, PartialEq, Eq)]
pub enum FromObjectsError {
    NoMemory,
    /// Two sources have one name.
    NameTaken,
    /// A source's name is empty, or over 65,535 bytes long.
    BadName,
    /// There are more than 65,535 objects.
    TooManyObjects,
    /// The files refused a required source; they counted this.
    FileFault,
}

/// Why the objects of an entry aren't placed.
#[derive(Clone, Copy, Debug, Drop, PartialEq, Eq)]
pub enum ExtractError {
    NoMemory,
    /// The entry lacks a required object.
    DecompressionFailure,
    /// The files refused; they counted this.
    FileFault,
}

impl From<NoMemory> for FromObjectsError {
    ghost from_gives = { λ _ error. error ≡ from_errors.NoMemory };

    fn from(_: NoMemory) -> FromObjectsError {
        FromObjectsError::NoMemory
    }
}

impl From<PutError> for FromObjectsError {
    ghost from_gives = { λ refused error. error ≡ from_put_error refused };

    fn from(refused: PutError) -> FromObjectsError {
        match refused {
            PutError::NoMemory => FromObjectsError::NoMemory,
            PutError::NameTaken => FromObjectsError::NameTaken,
            PutError::BadName => FromObjectsError::BadName,
            PutError::TooManyObjects => FromObjectsError::TooManyObjects,
        }
    }
}

impl From<FileError> for FromObjectsError {
    ghost from_gives = { λ refused error. error ≡ from_file_error refused };

    fn from(refused: FileError) -> FromObjectsError {
        match refused {
            FileError::NoMemory => FromObjectsError::NoMemory,
            FileError::FileFault => FromObjectsError::FileFault,
        }
    }
}

impl From<FileError> for ExtractError {
    ghost from_gives = { λ refused error. error ≡ extract_file_error refused };

    fn from(refused: FileError) -> ExtractError {
        match refused {
            FileError::NoMemory => ExtractError::NoMemory,
            FileError::FileFault => ExtractError::FileFault,
        }
    }
}

fn is_null(path: &ByteText) -> bool
    ensures { result ≡ is_null_path path.now }
{
    path.as_slice() == b"/dev/null".as_slice()
}

impl CacheRead {
    /// Whether a source's object is required, and not there.
    fn is_missing(&self, source: &FileObjectSource) -> bool
        ensures { result ≡ is_lacking self.now source.now }
    {
        if is_null(&source.path) {
            return false;
        }
        if source.optional {
            return false;
        }
        self.find(source.key.as_str()).is_none()
    }

    fn is_any_missing(&self, sources: &[FileObjectSource]) -> bool
        ensures { result ≡ lacks_any self.now sources.now }
    {
        for source in sources {
            if self.is_missing(source) {
                return true;
            }
        }
        false
    }

    /// The mode and data that are placed for a source.
    fn to_place(&self, source: &FileObjectSource) -> Option<(Option<u32>, &[u8])>
        ensures { IsFound (object_to_place self.now source.now) result }
    {
        if is_null(&source.path) {
            return None;
        }
        self.find(source.key.as_str())
    }

    /// Places a source's object, if there is one to place.
    fn place_one<F: Files>(&self, files: &mut F, source: &FileObjectSource) -> Result<(), FileError>
        ensures told { OnOk result (Told (λ old new. new ≡ place_object (object_to_place self.now source.now) source.now.path old) (F.held files.old) (F.held files.new)) }
        ensures refused { OnErr result (F.held files.new ≡ F.held files.old) }
        ensures later { F.fault_count files.old ≤ F.fault_count files.new }
        ensures cause { FileCause (F.fault_count files.old) (F.fault_count files.new) result }
    {
        let Some((mode, bytes)) = self.to_place(source) else {
            return Ok(());
        };
        files.place(&source.path, bytes, mode)?;
        Ok(())
    }

    /// Places the objects of the sources in their order. All required objects are looked for before any is placed; what
    /// goes to `/dev/null`, and an optional object that isn't there, is skipped. Where the files refuse, what was placed
    /// before stays.
    pub fn extract_objects<F: Files>(
        &self,
        files: &mut F,
        sources: &[FileObjectSource],
    ) -> Result<(), ExtractError>
        ensures answer { ExtractAnswer (lacks_any self.now sources.now) result }
        ensures told { ExtractPlaces self.now sources.now result (F.held files.old) (F.held files.new) }
        ensures later { F.fault_count files.old ≤ F.fault_count files.new }
        ensures cause { ExtractCause (F.fault_count files.old) (F.fault_count files.new) result }
    {
        if self.is_any_missing(sources) {
            return Err(ExtractError::DecompressionFailure);
        }
        for source in sources {
            self.place_one(files, source)?;
        }
        Ok(())
    }
}

/// Adds a source's object to an entry, unless the source is optional and can't be read.
fn take_source<F: Files>(
    entry: &mut CacheWrite,
    files: &mut F,
    source: &FileObjectSource,
) -> Result<(), FromObjectsError>
    ensures step { OnOk result (TakesSource (F.held files.old) source.now entry.old entry.new (F.fault_count files.old) (F.fault_count files.new)) }
    ensures refusal { IfErr result (SourceCause source.now entry.old (F.fault_count files.old) (F.fault_count files.new)) }
    ensures same { F.held files.new ≡ F.held files.old }
    ensures later { F.fault_count files.old ≤ F.fault_count files.new }
{
    match files.read(&source.path) {
        Ok(content) => {
            entry.put_object(source.key.as_str(), content.bytes.as_slice(), content.mode)?;
            Ok(())
        }
        Err(FileError::FileFault) if source.optional => Ok(()),
        Err(refused) => Err(FromObjectsError::from(refused)),
    }
}

impl CacheWrite {
    /// An entry of what stands at the sources' paths, in their order. An optional source that can't be read is skipped.
    pub fn from_objects<F: Files>(
        alloc: Global,
        files: &mut F,
        sources: &[FileObjectSource],
    ) -> Result<CacheWrite, FromObjectsError>
        ensures gathered { IfOk result (Gathered (F.held files.old) sources.now (length sources.now)) }
        ensures whole { IfOk result (λ os. (Rose (F.fault_count files.old) (F.fault_count files.new) → ⊥) → length os ≡ length sources.now) }
        ensures refusal { IfErr result (FromCause (F.held files.old) sources.now (F.fault_count files.old) (F.fault_count files.new)) }
        ensures same { F.held files.new ≡ F.held files.old }
        ensures later { F.fault_count files.old ≤ F.fault_count files.new }
    {
        let mut entry = CacheWrite::new(alloc)?;
        for source in sources {
            take_source(&mut entry, files, source)?;
        }
        Ok(entry)
    }
}
