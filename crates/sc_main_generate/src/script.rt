//! The script.
ghost use Rattle.std.specs.Prelude.{◌≡◌, ◌<◌, ◌≤◌, ◌*◌, ◌++◌, IfOk, OnOk};
ghost use Rattle.sc_main_generate.specs.Generated as generated;

use crate::draw::{drawn, next};
use crate::lines::{put_ask, put_back, put_head, put_read, put_run, put_serve, put_step};
use sc_entry::{ByteText, NoMemory};
use std::alloc::Global;

/// The runs of this many keys.
fn put_runs(alloc: Global, text: &mut ByteText, count: u64) -> Result<(), NoMemory>
    ensures { OnOk result (text.new ≡ text.old ++ generated.runs count 0) }
{
    let mut key = 0;
    while key < count {
        put_run(alloc, text, key)?;
        key += 1;
    }
    Ok(())
}

/// This many compiles, each under a key that is drawn, on the four connections in turn. Gives the state after the last draw.
fn put_asks(alloc: Global, text: &mut ByteText, count: u64, state: u64) -> Result<u64, NoMemory>
    requires { state < 2147483648 }
    ensures lines { OnOk result (text.new ≡ text.old ++ generated.asks count 0 state) }
    ensures state { IfOk result (λ left. left ≡ generated.after count state) }
    ensures small { IfOk result (λ left. left < 2147483648) }
{
    let mut state = state;
    let mut ask = 0;
    while ask < count {
        state = next(state);
        put_ask(alloc, text, ask % 4, drawn(state) % 50)?;
        ask += 1;
    }
    Ok(state)
}

fn put_reads(alloc: Global, text: &mut ByteText) -> Result<(), NoMemory>
    ensures { OnOk result (text.new ≡ text.old ++ generated.reads) }
{
    put_read(alloc, text, 0)?;
    put_read(alloc, text, 1)?;
    put_read(alloc, text, 2)?;
    put_read(alloc, text, 3)
}

/// This many steps that are drawn.
fn put_steps(alloc: Global, text: &mut ByteText, count: u64, state: u64) -> Result<(), NoMemory>
    requires { state < 2147483648 }
    ensures { OnOk result (text.new ≡ text.old ++ generated.steps count state) }
{
    let mut state = state;
    let mut left = count;
    while left > 0 {
        state = next(state);
        put_step(alloc, text, drawn(state) % 5)?;
        left -= 1;
    }
    Ok(())
}

/// Each connection is served so often.
fn put_serves(alloc: Global, text: &mut ByteText, times: u64) -> Result<(), NoMemory>
    ensures { OnOk result (text.new ≡ text.old ++ generated.serves times) }
{
    put_serve(alloc, text, 0, times)?;
    put_serve(alloc, text, 1, times)?;
    put_serve(alloc, text, 2, times)?;
    put_serve(alloc, text, 3, times)
}

/// Handed writes go on so often.
fn put_backs(text: &mut ByteText, count: u64) -> Result<(), NoMemory>
    ensures { OnOk result (text.new ≡ text.old ++ generated.backs count) }
{
    let mut left = count;
    while left > 0 {
        put_back(text)?;
        left -= 1;
    }
    Ok(())
}

/// The script of a number: two levels, fifty keys, that many compiles over four connections, and steps enough to end them all
/// in an order that is drawn.
pub fn generate(alloc: Global, number: u64) -> Result<ByteText, NoMemory>
    requires { number ≤ 2000 }
    ensures { IfOk result (λ text. text ≡ generated.script number) }
{
    let mut text = ByteText::new(alloc);
    put_head(&mut text)?;
    put_runs(alloc, &mut text, 50)?;
    let state = put_asks(alloc, &mut text, number, number)?;
    put_reads(alloc, &mut text)?;
    put_steps(alloc, &mut text, 40 * number, state)?;
    put_serves(alloc, &mut text, 20 * number)?;
    put_serves(alloc, &mut text, 20 * number)?;
    put_backs(&mut text, 20 * number)?;
    Ok(text)
}
