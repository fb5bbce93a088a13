//! What a drawn script's connections ask.
ghost use Rattle.std.specs.Prelude.{◌≡◌, ◌<◌, length, IfOk, OnOk};
ghost use Rattle.sc_main_drawn.specs.Drawn as drawn;
ghost use Rattle.sc_main_generate.specs.Generated as generated;

use crate::keys::compile;
use sc_entry::NoMemory;
use sc_main_generate::{drawn, next};
use sc_main_script::{Inputs, frame};
use std::alloc::Global;

/// A compile under the key of this number, on a connection.
fn ask(alloc: Global, inputs: &mut Inputs, connection: usize, key: u64) -> Result<(), NoMemory>
    requires { connection < length inputs.old }
    ensures { OnOk result (inputs.new ≡ drawn.asked inputs.old connection key) }
{
    let request = compile(alloc, key)?;
    let bytes = frame(alloc, &request)?;
    inputs.append(connection, bytes.as_slice())
}

/// This many compiles, each under a key that is drawn, on the four connections in turn. Gives the state after the last draw.
pub fn asks(alloc: Global, inputs: &mut Inputs, count: u64, state: u64) -> Result<u64, NoMemory>
    requires four { length inputs.old ≡ 4 }
    requires small { state < 2147483648 }
    ensures asked { OnOk result (inputs.new ≡ drawn.asks count 0 state inputs.old) }
    ensures state { IfOk result (λ left. left ≡ generated.after count state) }
    ensures small { IfOk result (λ left. left < 2147483648) }
{
    let mut state = state;
    let mut number = 0;
    while number < count {
        state = next(state);
        ask(alloc, inputs, (number % 4) as usize, drawn(state) % 50)?;
        number += 1;
    }
    Ok(state)
}
