//! The steps of a drawn script.
ghost use Rattle.std.specs.Prelude.{◌≡◌, ◌<◌, ◌≤◌, ◌++◌, replicate, IfOk, OnOk};
ghost use Rattle.sc_main_drawn.specs.Drawn as drawn;

use sc_entry::{Items, NoMemory};
use sc_main_generate::{drawn, next};
use sc_model::Step;
use std::alloc::Global;

/// More bytes than come on any connection.
const ALL: u64 = 1_000_000;

/// All bytes of the four connections.
fn push_reads(steps: &mut Items<Step>) -> Result<(), NoMemory>
    ensures { OnOk result (steps.new ≡ steps.old ++ drawn.reads) }
{
    steps.push(Step::Read(0, ALL))?;
    steps.push(Step::Read(1, ALL))?;
    steps.push(Step::Read(2, ALL))?;
    steps.push(Step::Read(3, ALL))
}

/// What a number below five stands for: a connection is served, or a handed write goes on.
fn step_of(number: u64) -> Step
    ensures { result ≡ drawn.step_of number }
{
    if number < 4 {
        Step::Serve(number)
    } else {
        Step::Back(0)
    }
}

/// This many steps that are drawn.
fn push_drawn(steps: &mut Items<Step>, count: u64, state: u64) -> Result<(), NoMemory>
    requires { state < 2147483648 }
    ensures { OnOk result (steps.new ≡ steps.old ++ drawn.drawn_steps count state) }
{
    let mut state = state;
    let mut left = count;
    while left > 0 {
        state = next(state);
        steps.push(step_of(drawn(state) % 5))?;
        left -= 1;
    }
    Ok(())
}

/// A connection is served so often.
fn push_serves(steps: &mut Items<Step>, connection: u64, times: u64) -> Result<(), NoMemory>
    ensures { OnOk result (steps.new ≡ steps.old ++ replicate times (drawn.serve connection)) }
{
    for _ in 0..times {
        steps.push(Step::Serve(connection))?;
    }
    Ok(())
}

/// Each connection is served so often.
fn push_round(steps: &mut Items<Step>, times: u64) -> Result<(), NoMemory>
    ensures { OnOk result (steps.new ≡ steps.old ++ drawn.round times) }
{
    push_serves(steps, 0, times)?;
    push_serves(steps, 1, times)?;
    push_serves(steps, 2, times)?;
    push_serves(steps, 3, times)
}

/// Handed writes go on so often.
fn push_backs(steps: &mut Items<Step>, times: u64) -> Result<(), NoMemory>
    ensures { OnOk result (steps.new ≡ steps.old ++ replicate times drawn.back) }
{
    for _ in 0..times {
        steps.push(Step::Back(0))?;
    }
    Ok(())
}

/// The steps of the script of a number, whose compiles' draws left this state.
pub fn steps(alloc: Global, number: u64, state: u64) -> Result<Items<Step>, NoMemory>
    requires number { number ≤ 2000 }
    requires small { state < 2147483648 }
    ensures { IfOk result (λ steps. steps ≡ drawn.steps number state) }
{
    let mut steps = Items::new(alloc);
    push_reads(&mut steps)?;
    push_drawn(&mut steps, 40 * number, state)?;
    push_round(&mut steps, 20 * number)?;
    push_round(&mut steps, 20 * number)?;
    push_backs(&mut steps, 20 * number)?;
    Ok(steps)
}
