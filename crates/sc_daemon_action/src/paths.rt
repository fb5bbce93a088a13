//! The actions of a request for the path of an entry.
ghost use Rattle.std.specs.Prelude.{◌≡◌, ℕ, List, [], true, IfOk};
ghost use Rattle.sc_daemon_action.specs.Acts.{Acts};
ghost use Rattle.sc_daemon_action.specs.Serves.{Stands};
ghost use Rattle.sc_daemon_job.specs.Askers.{asker};
ghost use Rattle.sc_daemon_job.specs.Setups.{Config, setup};
ghost use Rattle.sc_daemon_job.specs.declared.since.Since.{Since as Moments};
ghost use Rattle.sc_model.specs.Conns.{need_at};
ghost use Rattle.sc_model.specs.Dues.{is_disk_alone};
ghost use Rattle.sc_model.specs.Phases.{begin_phase, path_phase};
ghost use Rattle.sc_model.specs.Trace.{sent_by};
ghost use Rattle.sc_model.specs.declared.event.Told.TheVariants.{Nothing as NothingTold};
ghost use Rattle.sc_model.specs.declared.message.Request.TheVariants.{StorageGetPath};

use crate::acted::Acted;
use crate::telling::begin_untold;
use sc_daemon_hold::Hold;
use sc_daemon_job::Since;
use sc_entry::{GetPathResult, NoMemory, Text};
use sc_model::{Answer, Mode, Phase, Request, Response, Told, What};
use std::alloc::Global;

/// The reply that tells this.
fn tells(path: GetPathResult) -> Phase
    ensures { result ≡ Phase.AtSend (Response.StorageGetPath path) }
{
    Phase::AtSend(Response::StorageGetPath(path))
}

/// Where a request for a path begins: a store that keeps no files of its own for its entries is not asked.
fn first(has_paths: bool, key: Text) -> Phase
    ensures phase { (k : Config) → is_disk_alone k.policy k.levels ≡ has_paths → result ≡ begin_phase (setup k) (StorageGetPath key) NothingTold }
    ensures stands { (k : Config) (wanted : List ℕ) → is_disk_alone k.policy k.levels ≡ has_paths → Stands k result (StorageGetPath wanted) }
{
    if has_paths {
        Phase::PathAsk(key)
    } else {
        tells(GetPathResult::Unsupported)
    }
}

/// What is told after the store's answer: a path, or that none was found.
fn asked(answer: &Answer) -> Result<Phase, NoMemory>
    ensures phase { IfOk result (λ p. p ≡ path_phase answer.now) }
    ensures stands { IfOk result (λ p. (k : Config) (wanted : List ℕ) → Stands k p (StorageGetPath wanted)) }
{
    match answer {
        Answer::Found(path) => {
            let found = path.try_clone()?;
            Ok(tells(GetPathResult::Found(found)))
        }
        Answer::Miss => Ok(tells(GetPathResult::Miss)),
        Answer::Refused(_) => Ok(tells(GetPathResult::Miss)),
        Answer::Hit(_, _) => Ok(tells(GetPathResult::Miss)),
        Answer::Size(_, _) => Ok(tells(GetPathResult::Miss)),
    }
}

/// Begins a request for the path of an entry.
pub fn act_begin_path<H: Hold>(alloc: Global, hold: &mut H, key: &Text) -> Result<Acted, NoMemory>
    ensures acts { IfOk result (λ a. Acts (H.config hold.old) (StorageGetPath key.now) Phase.AtBegin (H.moment hold.new) a) }
    ensures moves { IfOk result (λ a. (since : Moments) → H.moves hold.old (asker since (need_at (setup (H.config hold.old)) (StorageGetPath key.now) Phase.AtBegin) (StorageGetPath key.now)) a.what hold.new) }
    ensures same { IfOk result (λ a. H.config hold.new ≡ H.config hold.old) }
    ensures unsent { IfOk result (λ a. sent_by a.what ≡ []) }
{
    let has_paths = hold.has_paths();
    let request = Request::StorageGetPath(key.try_clone()?);
    let wanted = key.try_clone()?;
    begin_untold(alloc, hold, &request)?;
    Ok(Acted {
        what: What::Began(request, Told::Nothing),
        phase: first(has_paths, wanted),
    })
}

/// Asks the store for the path of an entry.
pub fn act_path_ask<H: Hold>(
    alloc: Global,
    hold: &mut H,
    wanted: &Text,
    key: Text,
    since: Since,
) -> Result<Acted, NoMemory>
    requires alone { is_disk_alone (H.config hold.old).policy (H.config hold.old).levels ≡ true }
    ensures acts { IfOk result (λ a. Acts (H.config hold.old) (StorageGetPath wanted.now) (Phase.PathAsk key) (H.moment hold.new) a) }
    ensures moves { IfOk result (λ a. H.moves hold.old (asker since (need_at (setup (H.config hold.old)) (StorageGetPath wanted.now) (Phase.PathAsk key)) (StorageGetPath wanted.now)) a.what hold.new) }
    ensures same { IfOk result (λ a. H.config hold.new ≡ H.config hold.old) }
    ensures unsent { IfOk result (λ a. sent_by a.what ≡ []) }
{
    let lookup = hold.ask(alloc, 0, &key, Mode::Path, since)?;
    let phase = asked(&lookup.answer)?;
    Ok(Acted {
        what: What::Asked(0, key, Mode::Path, lookup.answer, lookup.handed),
        phase,
    })
}
