//! How a compile begins.

ghost use Rattle.std.specs.Prelude.{◌≡◌, IfOk};
ghost use Rattle.sc_entry.specs.Causes.{IfTold};
ghost use Rattle.sc_compile.specs.Tools.{reading};

use crate::plain::PlainCompiler;
use crate::probe::Probe;
use crate::tool::Detected;
use sc_entry::{NoMemory, Text};
use sc_model::{Compile, Parsed};
use std::alloc::Global;

/// What a compile is: the reading of its words by the compiler that the probe finds at its path, or why there is none.
pub fn begin<P: Probe>(alloc: Global, probe: &P, request: &Compile) -> Result<Parsed, NoMemory>
    ensures { IfOk result (λ p. IfTold (reading (P.table probe.now) request.now) (λ q. p ≡ q)) }
{
    if probe.moment(&request.exe).is_none() {
        let why = Text::from_str(alloc, "compiler not found")?;
        return Ok(Parsed::Unsupported(why));
    }
    match probe.detect(alloc, &request.exe)? {
        Detected::Compiler(kind) => PlainCompiler::parse(alloc, kind, request),
        Detected::Refused(why) => Ok(Parsed::Unsupported(why)),
    }
}
