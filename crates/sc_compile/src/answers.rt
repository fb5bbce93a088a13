//! What a line answers to a run.

ghost use Rattle.std.specs.Prelude.{◌≡◌, IfOk, true};
ghost use Rattle.sc_compile.specs.Answers.{is_fault, no_answer, with_outputs};
ghost use Rattle.sc_model.specs.GoodNames.{is_good_answer};

use sc_entry::{FileObjectSource, Items, NoMemory, Text};
use sc_model::{RunAnswer, is_broken, output_with};
use std::alloc::Global;

/// A copy of a line's answer, for a run from which these outputs are wanted.
pub fn with_outputs(
    alloc: Global,
    outputs: &[FileObjectSource],
    answer: &RunAnswer,
) -> Result<RunAnswer, NoMemory>
    requires { is_good_answer answer.now ≡ true }
    ensures value { IfOk result (λ a. a ≡ with_outputs outputs.now answer.now) }
    ensures good { IfOk result (λ a. is_good_answer a ≡ true) }
{
    match answer {
        RunAnswer::Output(out) => Ok(RunAnswer::Output(output_with(alloc, outputs, out)?)),
        RunAnswer::ProcessError(out) => Ok(RunAnswer::ProcessError(out.clone()?)),
        RunAnswer::Fault(chain) => Ok(RunAnswer::Fault(chain.clone()?)),
    }
}

/// A copy of an answer.
pub fn copied(answer: &RunAnswer) -> Result<RunAnswer, NoMemory>
    ensures { IfOk result (λ a. a ≡ answer.now) }
{
    match answer {
        RunAnswer::Output(out) => Ok(RunAnswer::Output(out.clone()?)),
        RunAnswer::ProcessError(out) => Ok(RunAnswer::ProcessError(out.clone()?)),
        RunAnswer::Fault(chain) => Ok(RunAnswer::Fault(chain.clone()?)),
    }
}

/// The answer of a run under a key without a line.
pub fn no_answer(alloc: Global, key: &Text) -> Result<RunAnswer, NoMemory>
    ensures value { IfOk result (λ a. a ≡ no_answer key.now) }
    ensures good { IfOk result (λ a. is_good_answer a ≡ true) }
{
    let mut text = String::from_str(alloc, "no answer for ")?;
    text.push_str(key.as_str())?;
    let mut chain = Items::new(alloc);
    chain.push(Text::from_string(text))?;
    Ok(RunAnswer::Fault(chain))
}

/// Whether an answer is a fault, or has a chain in place of objects.
pub fn is_fault(answer: &RunAnswer) -> bool
    ensures { result ≡ is_fault answer.now }
{
    match answer {
        RunAnswer::Output(out) => is_broken(&out.objects),
        RunAnswer::ProcessError(_) => false,
        RunAnswer::Fault(_) => true,
    }
}
