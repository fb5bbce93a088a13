//! Makes a daemon of what a script says.
ghost use Rattle.std.specs.Prelude.{◌≡◌, ℕ, [], true, Some, IfOk, map};
ghost use Rattle.sc_compile.specs.Shop.{new_shop};
ghost use Rattle.sc_disk.specs.Memory.{memory_state};
ghost use Rattle.sc_main_memory.specs.Making.{AreLines, AreRefusals, IsDist, first_container, first_disk, first_files, first_held, first_levels, first_world, held_as, held_first, main_root, placed, pre_root, told_answers, told_jobs, told_lines, told_places, told_refusals, told_runs};
ghost use Rattle.sc_model.specs.declared.level.LevelKind.TheVariants as kinds;
ghost use Rattle.sc_main_script.specs.Goods.{IsGood, are_good_jobs, are_good_levels, are_good_places, are_good_runs, are_store_keys};
ghost use Rattle.sc_model.specs.Devices.{calls_failing};
ghost use Rattle.sc_store_disk.specs.Devices.{calls_of};
ghost use Rattle.sc_daemon_owned.specs.State.{reserved_in, store_of, told_by};
ghost use Rattle.sc_store.specs.Levels.{held_level};
ghost use Rattle.sc_store.specs.Telling.{new_counters};

use crate::memory::Memory;
use sc_compile::{PlaceLine, RunLine, ScriptWorkshop, ToolTable};
use sc_compile_dist::{DistClientConfig, DistClientContainer, DistLine, MemMaker, ScriptDist};
use sc_daemon_owned::Owned;
use sc_disk::{MemDisk, make_key_path, normalize_key};
use sc_entry::{ByteText, Calls, Items, NoMemory, Queue, Text};
use sc_main_script::{JobRule, LevelRule, PlaceRule, RunRule, Script};
use sc_model::{DistClientState, LevelKind, Step};
use sc_store::{DiskCache, Layered, Level, MemRemote, RemoteStorage, Unvouched};
use std::alloc::Global;
use std::collections::BTreeMap;

/// A daemon that a script is for, and what it is given.
#[derive(Drop)]
pub struct Made {
    pub owned: Owned<Memory>,
    /// The bytes that come on each connection.
    pub inputs: Items<ByteText>,
    pub steps: Items<Step>,
}

/// What is held under keys, at the paths of the keys.
fn placed(
    alloc: Global,
    holds: Items<(Text, ByteText)>,
) -> Result<Items<(Text, ByteText)>, NoMemory>
    requires { are_store_keys holds ≡ true }
    ensures { IfOk result (λ files. files ≡ placed holds) }
{
    let mut files = Items::new(alloc);
    for (key, bytes) in holds.into_vec() {
        let path = normalize_key(alloc, &key)?;
        files.push((path, bytes))?;
    }
    Ok(files)
}

/// The level's device: it refuses the calls of these numbers.
fn device(
    alloc: Global,
    holds: Items<(Text, ByteText)>,
    fails: Items<u64>,
) -> Result<MemRemote, NoMemory>
    requires { are_store_keys holds ≡ true }
    ensures held { IfOk result (λ remote. remote.files ≡ first_files holds) }
    ensures calls { IfOk result (λ remote. calls_of remote.calls ≡ calls_failing fails) }
    ensures faults { IfOk result (λ remote. remote.calls.faults ≡ 0) }
{
    let files = placed(alloc, holds)?;
    let remote = MemRemote::new(alloc, files, fails)?;
    Ok(remote)
}

/// A remote level, over a device in memory.
fn remote_level(
    alloc: Global,
    rule: LevelRule,
) -> Result<Level<MemRemote, MemDisk, Unvouched>, NoMemory>
    requires { are_store_keys rule.holds ≡ true }
    ensures { IfOk result (λ level. held_level level ≡ held_as kinds.Remote 0 rule) }
{
    let remote = device(alloc, rule.holds, rule.fails)?;
    let store = RemoteStorage::new(alloc, remote, Items::new(alloc), rule.mode);
    Ok(Level::Remote(store))
}

/// Where the entries of the level of this number stand.
#[tactic(auto, unfolding(crate::specs::Making::main_root))]
fn main_root(alloc: Global, level: usize) -> Result<ByteText, NoMemory>
    ensures { IfOk result (λ root. root ≡ main_root level) }
{
    let root = format!(in alloc; "/{level}")?;
    Ok(ByteText::from_vec(root.into_bytes()))
}

/// Where its preprocessor entries stand.
#[tactic(auto, unfolding(crate::specs::Making::pre_root))]
fn pre_root(alloc: Global, level: usize) -> Result<ByteText, NoMemory>
    ensures { IfOk result (λ root. root ≡ pre_root level) }
{
    let root = format!(in alloc; "/{level}/preprocessor")?;
    Ok(ByteText::from_vec(root.into_bytes()))
}

/// A disk with the files of these keys, each a moment younger than the one before.
fn disk(
    alloc: Global,
    root: ByteText,
    holds: &[(Text, ByteText)],
    calls: Calls,
) -> Result<MemDisk, NoMemory>
    requires keys { are_store_keys holds.now ≡ true }
    requires faults { calls.faults ≡ 0 }
    ensures { IfOk result (λ disk. memory_state disk ≡ first_disk root holds.now (Some calls)) }
{
    let mut disk = MemDisk::new(alloc, root, BTreeMap::new(alloc), calls);
    for moment in 0..holds.len() {
        let hold = &holds[moment];
        let path = make_key_path(alloc, &hold.0)?;
        disk.hold(&path, moment as u64, hold.1.as_slice())?;
    }
    Ok(disk)
}

/// A disk level over two disks in memory. That of preprocessor entries holds none, and refuses no call.
fn disk_level(
    alloc: Global,
    level: usize,
    rule: LevelRule,
) -> Result<Level<MemRemote, MemDisk, Unvouched>, NoMemory>
    requires { are_store_keys rule.holds ≡ true }
    ensures { IfOk result (λ made. held_level made ≡ held_as kinds.Disk level rule) }
{
    let root = main_root(alloc, level)?;
    let calls = Calls::failing_at(alloc, rule.fails)?;
    let main = disk(alloc, root, rule.holds.as_slice(), calls)?;
    let root = pre_root(alloc, level)?;
    let pre = disk(alloc, root, &[], Calls::new(alloc))?;
    let basedirs = Items::new(alloc);
    let store = DiskCache::new(alloc, main, pre, rule.capacity, false, rule.mode, basedirs);
    Ok(Level::Disk(store))
}

/// The level of this number, as a drive makes it of what a script says. It isn't opened, and its device refuses the calls of the
/// numbers that the rule names.
pub fn level(
    alloc: Global,
    level: usize,
    rule: LevelRule,
) -> Result<Level<MemRemote, MemDisk, Unvouched>, NoMemory>
    requires { are_store_keys rule.holds ≡ true }
    ensures { IfOk result (λ made. held_level made ≡ first_held level rule) }
{
    match rule.kind {
        LevelKind::Disk => disk_level(alloc, level, rule),
        LevelKind::Remote => remote_level(alloc, rule),
    }
}

fn levels_of(
    alloc: Global,
    rules: Items<LevelRule>,
) -> Result<Vec<Level<MemRemote, MemDisk, Unvouched>>, NoMemory>
    requires { are_good_levels rules ≡ true }
    ensures { IfOk result (λ levels. map held_level levels.items ≡ held_first rules) }
{
    let mut levels = Vec::new(alloc);
    for rule in rules.into_vec() {
        let made = level(alloc, levels.len(), rule)?;
        levels.push(made)?;
    }
    Ok(levels)
}

/// The lines of a workshop that say what the rules say.
fn lines_of(alloc: Global, runs: Items<RunRule>) -> Result<Vec<RunLine>, NoMemory>
    requires { are_good_runs runs ≡ true }
    ensures { IfOk result (λ lines. told_lines lines.items ≡ told_runs runs) }
{
    let mut lines = Vec::new(alloc);
    for rule in runs.into_vec() {
        lines.push(RunLine {
            key: rule.key.into_byte_text(),
            answer: rule.answer,
        })?;
    }
    Ok(lines)
}

/// The lines by which a workshop refuses placings, which say what the rules say.
fn refusals_of(alloc: Global, places: Items<PlaceRule>) -> Result<Vec<PlaceLine>, NoMemory>
    requires { are_good_places places ≡ true }
    ensures { IfOk result (λ lines. told_refusals lines.items ≡ told_places places) }
{
    let mut lines = Vec::new(alloc);
    for rule in places.into_vec() {
        lines.push(PlaceLine {
            key: rule.key.into_byte_text(),
            chain: rule.chain,
        })?;
    }
    Ok(lines)
}

fn shop(
    alloc: Global,
    runs: Items<RunRule>,
    places: Items<PlaceRule>,
) -> Result<ScriptWorkshop, NoMemory>
    requires runs { are_good_runs runs ≡ true }
    requires places { are_good_places places ≡ true }
    ensures new { IfOk result (λ shop. shop ≡ new_shop shop.lines shop.refusals) }
    ensures lines { IfOk result (λ shop. told_lines shop.lines ≡ told_runs runs) }
    ensures refusals { IfOk result (λ shop. told_refusals shop.refusals ≡ told_places places) }
{
    let lines = lines_of(alloc, runs)?;
    let refusals = refusals_of(alloc, places)?;
    let shop = ScriptWorkshop::new(alloc, lines, refusals)?;
    Ok(shop)
}

/// The lines of a distributed client that say what the rules say.
fn jobs_of(alloc: Global, jobs: Items<JobRule>) -> Result<Vec<DistLine>, NoMemory>
    requires { are_good_jobs jobs ≡ true }
    ensures { IfOk result (λ lines. told_jobs lines.items ≡ told_answers jobs) }
{
    let mut lines = Vec::new(alloc);
    for rule in jobs.into_vec() {
        lines.push(DistLine {
            key: rule.key.into_byte_text(),
            answer: rule.answer,
        })?;
    }
    Ok(lines)
}

/// Whether there is a distributed client: where a rule is on its jobs. It is made at its first use.
fn first_state(jobs: &Items<JobRule>) -> DistClientState
    ensures { result ≡ first_container jobs.now }
{
    match jobs.as_slice() {
        [] => DistClientState::Disabled,
        [_, ..] => DistClientState::RetryCreateAt(0),
    }
}

/// The distributed client, which answers by the rules.
fn dist(alloc: Global, jobs: Items<JobRule>) -> Result<DistClientContainer<MemMaker>, NoMemory>
    requires { are_good_jobs jobs ≡ true }
    ensures dist { IfOk result (λ dist. IsDist (told_by dist) jobs) }
    ensures jobs { IfOk result (λ dist. dist.jobs ≡ Some []) }
    ensures state { IfOk result (λ dist. dist.state ≡ first_container jobs) }
    ensures faults { IfOk result (λ dist. (dist.client_faults ≡ 0) × (dist.maker_faults ≡ 0)) }
    ensures makings { IfOk result (λ dist. dist.makings ≡ Some []) }
{
    let state = first_state(&jobs);
    let client = ScriptDist::new(alloc, jobs_of(alloc, jobs)?)?;
    let maker = MemMaker::new(Queue::new(alloc));
    let config = DistClientConfig {
        scheduler_url: None,
    };
    Ok(DistClientContainer::new_with_state(config, state, client, maker))
}

/// Takes a good script apart: a daemon whose parts are made of what it says, the bytes that come on each connection,
/// and the steps. Every script that is read is good.
pub fn make(alloc: Global, script: Script) -> Result<Made, NoMemory>
    requires good { IsGood script }
    ensures store { IfOk result (λ made. made.owned.config.store ≡ store_of (first_levels script)) }
    ensures counters { IfOk result (λ made. made.owned.config.counters ≡ new_counters 0 (first_levels script).titles) }
    ensures levels { IfOk result (λ made. made.owned.config.levels ≡ (first_levels script).facts) }
    ensures policy { IfOk result (λ made. made.owned.config.policy ≡ script.policy) }
    ensures tokens { IfOk result (λ made. made.owned.config.tokens ≡ script.tokens) }
    ensures limit { IfOk result (λ made. made.owned.config.limit ≡ script.limit) }
    ensures table { IfOk result (λ made. made.owned.config.table ≡ Some script.tools) }
    ensures keys { IfOk result (λ made. made.owned.config.keys ≡ Some script.keys) }
    ensures lines { IfOk result (λ made. AreLines made.owned.config.lines script.runs) }
    ensures refusals { IfOk result (λ made. AreRefusals made.owned.config.refusals script.places) }
    ensures dist { IfOk result (λ made. IsDist made.owned.config.dist script.jobs) }
    ensures told { IfOk result (λ made. made.owned.told ≡ true) }
    ensures unreserved { IfOk result (λ made. (level : ℕ) → reserved_in made.owned level ≡ 0) }
    ensures world { IfOk result (λ made. made.owned.world ≡ first_world script) }
    ensures inputs { IfOk result (λ made. made.inputs ≡ script.inputs) }
    ensures steps { IfOk result (λ made. made.steps ≡ script.steps) }
{
    let levels = levels_of(alloc, script.levels)?;
    let levels = Layered::new(levels, script.policy);
    let shop = shop(alloc, script.runs, script.places)?;
    let finder = ToolTable::new(alloc, script.tools.into_vec(), script.keys.into_vec())?;
    let dist = dist(alloc, script.jobs)?;
    let owned = Owned::new(
        levels,
        shop,
        finder,
        dist,
        script.tokens,
        script.limit as u32,
    );
    Ok(Made {
        owned,
        inputs: script.inputs,
        steps: script.steps,
    })
}
