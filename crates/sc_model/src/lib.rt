//! The daemon's definitions.
#![tactic(auto)]

mod collecting;
mod command;
mod event;
mod good_names;
mod level;
mod message;
mod note;
mod phase;

ghost use Rattle.std.specs.Prelude.{List};
ghost use Rattle.sc_model.specs.declared.event.Event.{Event};
ghost use Rattle.sc_model.specs.declared.event.Step.{Step};
ghost use Rattle.sc_model.specs.Script.{Script};
ghost use Rattle.sc_model.specs.Machine.{Machine, IsIdle, Runs, result_of_run};
ghost use Rattle.sc_model.specs.Headline.{Headline};

pub use collecting::{is_broken, output_with};
pub use command::SingleCompileCommand;
pub use event::{
    Answer, DistAnswer, DistType, Event, KeyFound, KeyStep, MissType, Mode, Objects, Output, Owner,
    Parsed, Placing, RunAnswer, RunOutput, Status, Step, Task, Told, Verdict, What, Written,
};
pub use good_names::{is_good_answer, is_output_name, is_stream};
pub use level::{
    Cause, DistClientState, Handed, LevelFacts, LevelKind, LevelPolicy, Making, Policy, Put,
    RemoteFault, Store,
};
pub use message::{
    ColorMode, Compile, CompileFinished, CompileResponse, Request, Response, StorageHandshakeInfo,
    Variable,
};
pub use note::is_notification;
pub use phase::{Bytes, Ending, Job, Pending, Phase, Refusal, Sized, Stage, Work};
pub use sc_compile_language::{CCompilerKind, CompilerKind, Language};

/// The headline holds of every run of the machine, from an idle one.
pub fn every_run()
    ensures { (s : Script) (m0 : Machine) (steps : List Step) (t : List Event) (m : Machine) → IsIdle s m0 → Runs s m0 steps t m → Headline s m0.world steps t m.world (result_of_run s m) }
{}
