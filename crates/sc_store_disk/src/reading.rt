//! Reading an opened store.
ghost use Rattle.std.specs.Prelude.{◌≡◌, ℕ, true, is_some, IfOk};
ghost use Rattle.sc_store_disk.specs.DiskStores.{level_of, opened_store};
ghost use Rattle.sc_store_disk.specs.Moving.{HasFile, ReadsAt, Steady};
ghost use Rattle.sc_entry.specs.Keys.{is_file_key};
ghost use Rattle.sc_entry.specs.declared.cache_mode.CacheMode.{CacheMode};

use sc_disk::{Disk, Error, FileKey};
use sc_disk_pair::{PairCache, Part};
use sc_entry::{ByteText, NoMemory};
use sc_model::{Answer, Cause};

/// What stands at a path of a part. So far no key keeps a mark.
pub(crate) fn read<D: Disk>(
    cache: &mut PairCache<D>,
    part: Part,
    path: &FileKey,
    now: u64,
) -> Result<Answer, NoMemory>
    requires { is_file_key path.now ≡ true }
    ensures steady { (mode : CacheMode) (capacity : ℕ) → Steady (opened_store mode capacity cache.old.store) (opened_store mode capacity cache.new.store) }
    ensures capacity { cache.new.store.capacity ≡ cache.old.store.capacity }
    ensures answer { IfOk result (λ answer. ReadsAt part path.now answer (is_some cache.old.store.disk.told) (level_of true cache.old.store.index cache.old.store.disk) (level_of true cache.new.store.index cache.new.store.disk)) }
{
    cache.keeps();
    match cache.get(part, path, now) {
        Ok(file) => Ok(Answer::Hit(ByteText::from_vec(file.into_inner()), false)),
        Err(Error::FileNotInCache) => Ok(Answer::Miss),
        Err(Error::Io) => Ok(Answer::Refused(Cause::Io)),
        Err(Error::NoMemory) => Err(NoMemory),
        Err(Error::BadKey) | Err(Error::FileTooLarge) | Err(Error::Reserved) => unreachable!(),
    }
}

/// Whether a file stands at a path of the main part. It becomes the most recently used, and keeps its moment.
pub(crate) fn touch<D: Disk>(cache: &mut PairCache<D>, path: &FileKey) -> Result<bool, NoMemory>
    requires { is_file_key path.now ≡ true }
    ensures steady { (mode : CacheMode) (capacity : ℕ) → Steady (opened_store mode capacity cache.old.store) (opened_store mode capacity cache.new.store) }
    ensures capacity { cache.new.store.capacity ≡ cache.old.store.capacity }
    ensures there { IfOk result (λ there. HasFile path.now there (is_some cache.old.store.disk.told) (level_of true cache.new.store.index cache.new.store.disk)) }
{
    cache.keeps();
    let found = cache.get_abs_path(Part::Main, path)?;
    Ok(found.is_some())
}
