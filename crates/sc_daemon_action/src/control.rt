//! What a compile's variables ask of the cache.
ghost use Rattle.std.specs.Prelude.{◌≡◌, codes};
ghost use Rattle.sc_daemon_action.specs.Controls.{control_of as control_in};
ghost use Rattle.sc_model.specs.Script.{by_variables, control, counted_task as counted, named};
ghost use Rattle.sc_model.specs.declared.message.Request.TheVariants.{Compile as CompileOf};

use sc_model::{CCompilerKind, Compile, CompilerKind, Language, Task, Variable};

/// How a lookup is controlled.
#[derive(Clone, Copy)]
pub enum Control {
    Default,
    /// No lookup, and nothing is stored.
    ForceNoCache,
    /// No lookup, but what is run is stored.
    ForceRecache,
}

/// Whether a variable of this name is set.
pub fn is_set(name: &[u8], variables: &[Variable]) -> bool
    ensures { result ≡ named name.now variables.now }
{
    let mut left = variables;
    while let [variable, rest @ ..] = left {
        if variable.name.as_slice() == name {
            return true;
        }
        left = rest;
    }
    false
}

fn by_variables(request: &Compile) -> Control
    ensures { control_in result ≡ by_variables request.now }
{
    let variables = request.env_vars.as_slice();
    if is_set(b"SCCACHE_NO_CACHE", variables) {
        return Control::ForceNoCache;
    }
    if is_set(b"SCCACHE_RECACHE", variables) {
        return Control::ForceRecache;
    }
    Control::Default
}

/// The control of a key step: by the variables, and a recache at the one that comes again.
pub fn control_of(request: &Compile, first: bool) -> Control
    ensures { control_in result ≡ control (CompileOf request.now) first }
{
    if first {
        by_variables(request)
    } else {
        Control::ForceRecache
    }
}

/// The kind and language that a task is counted under: those of CUDA, where the compile is said to be a part of one.
pub fn counted_task(request: &Compile, task: Task) -> Task
    ensures { result ≡ counted (CompileOf request.now) task }
{
    if is_set(
        b"__SCCACHE_THIS_IS_A_CUDA_COMPILATION__",
        request.env_vars.as_slice(),
    ) {
        Task {
            kind: CompilerKind::C(CCompilerKind::Nvcc),
            language: Language::Cuda,
        }
    } else {
        task
    }
}
