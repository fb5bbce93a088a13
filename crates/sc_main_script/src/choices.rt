//! Words that name one of a few choices.
ghost use Rattle.std.specs.Prelude.{◌≡◌};
ghost use Rattle.sc_main_script.specs.Choices.{kind_of, policy_name_of, level_policy_of, outcome_of, level_kind_of, mode_of};
ghost use Rattle.sc_words.specs.Words.{Means};

use crate::job_rule::JobOutcome;
use crate::policies::PolicyName;
use sc_compile::ToolKind;
use sc_entry::CacheMode;
use sc_model::{CCompilerKind, CompilerKind, LevelKind, LevelPolicy};
use sc_words::WordsError;

#[tactic(auto, unfolding(crate::specs::Choices::kind_of))]
pub fn kind(word: &[u8]) -> Result<ToolKind, WordsError>
    ensures { Means (kind_of word.now) result }
{
    let kind = match word {
        b"gcc" => CompilerKind::C(CCompilerKind::Gcc),
        b"clang" => CompilerKind::C(CCompilerKind::Clang),
        b"rust" => CompilerKind::Rust,
        b"nvcc" => CompilerKind::C(CCompilerKind::Nvcc),
        b"none" => return Ok(ToolKind::NotACompiler),
        _ => return Err(WordsError::Malformed),
    };
    Ok(ToolKind::Compiler(kind))
}

/// How the levels are written.
#[tactic(auto, unfolding(crate::specs::Choices::policy_name_of))]
pub fn policy_name(word: &[u8]) -> Result<PolicyName, WordsError>
    ensures { Means (policy_name_of word.now) result }
{
    if word == b"single".as_slice() {
        return Ok(PolicyName::Single);
    }
    if word == b"ignore".as_slice() {
        return Ok(PolicyName::Ignore);
    }
    if word == b"l0".as_slice() {
        return Ok(PolicyName::L0);
    }
    if word == b"all".as_slice() {
        return Ok(PolicyName::All);
    }
    if word == b"levels".as_slice() {
        return Ok(PolicyName::Levels);
    }
    Err(WordsError::Malformed)
}

/// When one level is written.
#[tactic(auto, unfolding(crate::specs::Choices::level_policy_of))]
pub fn level_policy(word: &[u8]) -> Result<LevelPolicy, WordsError>
    ensures { Means (level_policy_of word.now) result }
{
    if word == b"required".as_slice() {
        return Ok(LevelPolicy::Required);
    }
    if word == b"background".as_slice() {
        return Ok(LevelPolicy::Background);
    }
    if word == b"off".as_slice() {
        return Ok(LevelPolicy::Off);
    }
    Err(WordsError::Malformed)
}

/// What a distributed job comes to.
#[tactic(auto, unfolding(crate::specs::Choices::outcome_of))]
pub fn outcome(word: &[u8]) -> Result<JobOutcome, WordsError>
    ensures { Means (outcome_of word.now) result }
{
    if word == b"done".as_slice() {
        return Ok(JobOutcome::Done);
    }
    if word == b"http".as_slice() {
        return Ok(JobOutcome::Http);
    }
    if word == b"large".as_slice() {
        return Ok(JobOutcome::Large);
    }
    if word == b"other".as_slice() {
        return Ok(JobOutcome::Other);
    }
    Err(WordsError::Malformed)
}

#[tactic(auto, unfolding(crate::specs::Choices::level_kind_of))]
pub fn level_kind(word: &[u8]) -> Result<LevelKind, WordsError>
    ensures { Means (level_kind_of word.now) result }
{
    if word == b"disk".as_slice() {
        return Ok(LevelKind::Disk);
    }
    if word == b"remote".as_slice() {
        return Ok(LevelKind::Remote);
    }
    Err(WordsError::Malformed)
}

/// Whether a level may be written.
#[tactic(auto, unfolding(crate::specs::Choices::mode_of))]
pub fn mode(word: &[u8]) -> Result<CacheMode, WordsError>
    ensures { Means (mode_of word.now) result }
{
    if word == b"rw".as_slice() {
        return Ok(CacheMode::ReadWrite);
    }
    if word == b"ro".as_slice() {
        return Ok(CacheMode::ReadOnly);
    }
    Err(WordsError::Malformed)
}
