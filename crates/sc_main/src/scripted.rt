//! A drive by a script that was read, or by that of a number.
ghost use Rattle.std.specs.Prelude.{◌≡◌, ◌≤◌, true, IfOk};
ghost use Rattle.sc_daemon.specs.Daemons.{IsIdleDaemon};
ghost use Rattle.sc_main.specs.Scripted.{DrivesScript, ReportsAs, ReportsDrive, ReportsTotals};
ghost use Rattle.sc_main_drawn.specs.Drawn.{drawn_script};
ghost use Rattle.sc_main_script.specs.Goods.{IsGood};
ghost use Rattle.sc_main_script.specs.declared.script.Script.{Script as ScriptRead};

use crate::printing::{Extent, printed};
use sc_daemon::{Daemon, Driven, drive};
use sc_entry::{ByteText, NoMemory};
use sc_main_drawn::drawn_script;
use sc_main_memory::{Made, Memory, make};
use sc_main_script::{Script, ScriptError, read_script, read_scripts_are_good};
use sc_model::Step;
use std::alloc::Global;

/// Drops what a drive came to in a call of its own: dropped at the end of a branch it takes the check minutes.
fn discard(driven: Driven) {
    drop(driven);
}

/// Drops a daemon in a call of its own: dropped where it is used it takes the check minutes.
fn discard_daemon(daemon: Daemon<Memory>) {
    drop(daemon);
}

/// Drives a daemon, and reports so much.
fn reported(
    alloc: Global,
    extent: Extent,
    daemon: &mut Daemon<Memory>,
    inputs: &[ByteText],
    steps: &[Step],
) -> Result<Vec<u8>, NoMemory>
    requires idle { IsIdleDaemon daemon.old }
    requires told { daemon.old.state.told ≡ true }
    ensures { IfOk result (λ text. ReportsDrive extent daemon.old daemon.new inputs.now steps.now text.items) }
{
    let driven = drive(alloc, daemon, inputs, steps)?;
    let text = printed(alloc, extent, daemon, &driven);
    discard(driven);
    text
}

/// Drives a daemon made of what a script says, and reports so much.
fn driven_by(alloc: Global, extent: Extent, script: Script) -> Result<Vec<u8>, NoMemory>
    requires { IsGood script }
    ensures { IfOk result (λ text. ReportsAs extent script text.items) }
{
    let made = make(alloc, script)?;
    let Made {
        owned,
        inputs,
        steps,
    } = made;
    let mut daemon = Daemon::new(alloc, owned)?;
    let text = reported(
        alloc,
        extent,
        &mut daemon,
        inputs.as_slice(),
        steps.as_slice(),
    );
    discard_daemon(daemon);
    text
}

/// Reads a script, drives a daemon by it, and reports. Bytes that are no script are refused with the number of their first
/// bad line.
pub fn drive_script(alloc: Global, bytes: &[u8]) -> Result<Vec<u8>, ScriptError>
    ensures { DrivesScript bytes.now result }
{
    match read_script(alloc, bytes) {
        Ok(script) => {
            read_scripts_are_good();
            match driven_by(alloc, Extent::Whole, script) {
                Ok(text) => Ok(text),
                Err(_) => Err(ScriptError::Memory),
            }
        }
        Err(ScriptError::Memory) => Err(ScriptError::Memory),
        Err(ScriptError::Bad(number)) => Err(ScriptError::Bad(number)),
    }
}

/// Drives a daemon by the script of a number up to 2,000, and reports from its first level on.
pub fn drive_number(alloc: Global, number: u64) -> Result<Vec<u8>, NoMemory>
    requires { number ≤ 2000 }
    ensures { IfOk result (λ text. ReportsTotals (drawn_script number) text.items) }
{
    let script = drawn_script(alloc, number)?;
    driven_by(alloc, Extent::Totals, script)
}
