//! The script.
ghost use Rattle.std.specs.Prelude.{◌≡◌, ◌≤◌, IfOk};
ghost use Rattle.sc_main_drawn.specs.Drawn.{drawn_script};
ghost use Rattle.sc_main_script.specs.Goods.{IsGood};

use crate::asks::asks;
use crate::laws::drawn_scripts_are_good;
use crate::levels::{levels, policy, runs, tools};
use crate::steps::steps;
use sc_entry::{Items, NoMemory};
use sc_main_script::{Inputs, Script};
use std::alloc::Global;

#[tactic(auto, unfolding(crate::specs::Drawn::drawn_script))]
fn made(alloc: Global, number: u64) -> Result<Script, NoMemory>
    requires { number ≤ 2000 }
    ensures { IfOk result (λ script. script ≡ drawn_script number) }
{
    let mut inputs = Inputs::new(alloc, 4)?;
    let state = asks(alloc, &mut inputs, number, number)?;
    let policy = policy(alloc)?;
    let levels = levels(alloc)?;
    let tools = tools(alloc)?;
    let runs = runs(alloc, 50)?;
    let steps = steps(alloc, number, state)?;
    Ok(Script {
        inputs: inputs.into_items(),
        tokens: 2,
        limit: 8_388_608,
        policy,
        levels,
        tools,
        runs,
        keys: Items::new(alloc),
        places: Items::new(alloc),
        jobs: Items::new(alloc),
        steps,
    })
}

/// The script of a number up to 2,000: two levels, fifty keys, that many compiles over four connections, and steps enough to end
/// them all in an order that is drawn.
///
/// # Errors
///
/// `NoMemory` where there is none for it.
pub fn drawn_script(alloc: Global, number: u64) -> Result<Script, NoMemory>
    requires { number ≤ 2000 }
    ensures value { IfOk result (λ script. script ≡ drawn_script number) }
    ensures good { IfOk result IsGood }
{
    let script = made(alloc, number)?;
    drawn_scripts_are_good();
    Ok(script)
}
