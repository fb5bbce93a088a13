//! What a put's refusal is told as.
ghost use Rattle.std.specs.Prelude.{◌≡◌, ◌++◌, IfOk, codes, decimal, string_bytes};
ghost use Rattle.sc_model.specs.Plan as plans;
ghost use Rattle.sc_model.specs.Script.{is_single};
ghost use Rattle.sc_model.specs.declared.level.Policy.{Policy as PolicyType};

use sc_entry::{NoMemory, Text};
use sc_model::{Cause, Put, Refusal, RemoteFault, Store};
use std::alloc::Global;

fn remote_text(fault: RemoteFault) -> &'static str
    ensures { result.now ≡ codes "remote fault: " ++ plans.remote_text fault }
{
    match fault {
        RemoteFault::AlreadyExists => "remote fault: AlreadyExists",
        RemoteFault::RateLimited => "remote fault: RateLimited",
        RemoteFault::Other => "remote fault: Other",
    }
}

/// A text of its own.
fn owned(alloc: Global, text: &str) -> Result<String, NoMemory>
    ensures { IfOk result (λ copy. string_bytes copy ≡ text.now) }
{
    let copy = String::from_str(alloc, text)?;
    Ok(copy)
}

/// That no entry of a number is open.
fn not_open_text(alloc: Global, number: u64) -> Result<String, NoMemory>
    ensures { IfOk result (λ text. string_bytes text ≡ codes "entry " ++ decimal number ++ codes " is not open") }
{
    let mut text = String::from_str(alloc, "entry ")?;
    let digits = format!(in alloc; "{number}")?;
    text.push_str(&digits)?;
    text.push_str(" is not open")?;
    Ok(text)
}

/// The text of a cause.
fn cause_text(alloc: Global, cause: Cause) -> Result<String, NoMemory>
    ensures { IfOk result (λ text. string_bytes text ≡ plans.cause_text cause) }
{
    match cause {
        Cause::FileTooLarge => owned(alloc, "File too large"),
        Cause::Io => owned(alloc, "disk fault"),
        Cause::Reserved => owned(alloc, "space is reserved"),
        Cause::BadKey => owned(alloc, "bad key"),
        Cause::BadEntry => owned(alloc, "Failed to parse cache entry"),
        Cause::ReadOnly(Store::Disk) => owned(alloc, "Cannot write to a read-only cache"),
        Cause::ReadOnly(Store::Remote) => owned(alloc, "storage is read-only"),
        Cause::ReadOnly(Store::Wrapper) => owned(alloc, "Cannot write to read-only storage"),
        Cause::RemoteFault(fault) => owned(alloc, remote_text(fault)),
        Cause::NotOpen(number) => not_open_text(alloc, number),
    }
}

/// The text of a level's refusal.
fn level_text(alloc: Global, level: u64, cause: &str) -> Result<String, NoMemory>
    ensures { IfOk result (λ text. string_bytes text ≡ codes "Failed to write to cache level " ++ decimal level ++ codes ": " ++ cause.now) }
{
    let mut text = String::from_str(alloc, "Failed to write to cache level ")?;
    let number = format!(in alloc; "{level}")?;
    text.push_str(&number)?;
    text.push_str(": ")?;
    text.push_str(cause)?;
    Ok(text)
}

/// What a put is answered: the text of its refusal, where it was refused.
pub fn put_result(alloc: Global, put: &Put) -> Result<Result<(), Text>, NoMemory>
    ensures { IfOk result (λ told. told ≡ plans.put_result put.now) }
{
    match put {
        Put::Done => Ok(Ok(())),
        Put::Refused(cause) => {
            let text = cause_text(alloc, *cause)?;
            Ok(Err(Text::from_string(text)))
        }
        Put::Level(level, cause) => {
            let cause = cause_text(alloc, *cause)?;
            let text = level_text(alloc, *level, &cause)?;
            Ok(Err(Text::from_string(text)))
        }
        Put::NoLevels => {
            let text = Text::from_str(alloc, "No cache levels configured")?;
            Ok(Err(text))
        }
    }
}

/// The text of a refusal.
pub fn refusal_text(alloc: Global, cause: Cause) -> Result<Text, NoMemory>
    ensures { IfOk result (λ text. text ≡ plans.cause_text cause) }
{
    let text = cause_text(alloc, cause)?;
    Ok(Text::from_string(text))
}

/// What a put of a preprocessor entry is answered: the text of its refusal, where one store stands alone. Those of levels are
/// passed over.
pub fn pre_put_result(
    alloc: Global,
    single: bool,
    refusal: Refusal,
) -> Result<Result<(), Text>, NoMemory>
    ensures { IfOk result (λ told. (p : PolicyType) → is_single p ≡ single → told ≡ plans.pre_put_result p refusal) }
{
    match refusal {
        Refusal::At(_, cause) => {
            if !single {
                return Ok(Ok(()));
            }
            let text = refusal_text(alloc, cause)?;
            Ok(Err(text))
        }
        Refusal::NoneYet => Ok(Ok(())),
    }
}
