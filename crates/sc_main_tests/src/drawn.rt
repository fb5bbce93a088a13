//! The script of a number as a value is what its text is read as.
use sc_compile::{Tool, ToolKind};
use sc_entry::{ByteText, CacheMode, NoMemory, Object};
use sc_main_drawn::drawn_script;
use sc_main_generate::generate;
use sc_main_script::{LevelRule, RunRule, Script, read_script};
use sc_model::{
    CCompilerKind, CompilerKind, LevelKind, LevelPolicy, Objects, Policy, RunAnswer, RunOutput,
    Status, Step,
};
use std::alloc::Global;
use std::test::Fail;

/// Appends a number behind a space.
fn put_number(alloc: Global, out: &mut Vec<u8>, number: u64) -> Result<(), NoMemory> {
    let text = format!(in alloc; " {number}")?;
    out.extend_from_slice(text.as_bytes())?;
    Ok(())
}

/// Appends bytes behind how many they are.
fn put_bytes(alloc: Global, out: &mut Vec<u8>, bytes: &[u8]) -> Result<(), NoMemory> {
    put_number(alloc, out, bytes.len() as u64)?;
    out.push(b' ')?;
    out.extend_from_slice(bytes)?;
    Ok(())
}

fn put_inputs(alloc: Global, out: &mut Vec<u8>, inputs: &[ByteText]) -> Result<(), NoMemory> {
    for input in inputs {
        out.extend_from_slice(b"\ninput")?;
        put_bytes(alloc, out, input.as_slice())?;
    }
    Ok(())
}

fn put_policy(out: &mut Vec<u8>, policy: &Policy) -> Result<(), NoMemory> {
    let Policy::Levels(levels) = policy else {
        out.extend_from_slice(b"\nsingle")?;
        return Ok(());
    };
    out.extend_from_slice(b"\nlevels")?;
    for level in levels.as_slice() {
        out.extend_from_slice(match level {
            LevelPolicy::Required => b" required",
            LevelPolicy::Background => b" background",
            LevelPolicy::Off => b" off",
        })?;
    }
    Ok(())
}

fn put_level(alloc: Global, out: &mut Vec<u8>, level: &LevelRule) -> Result<(), NoMemory> {
    out.extend_from_slice(match level.kind {
        LevelKind::Disk => b"\ndisk",
        LevelKind::Remote => b"\nremote",
    })?;
    put_number(alloc, out, level.capacity)?;
    out.extend_from_slice(match level.mode {
        CacheMode::ReadWrite => b" rw",
        CacheMode::ReadOnly => b" ro",
    })?;
    put_number(alloc, out, level.holds.len() as u64)?;
    put_number(alloc, out, level.fails.len() as u64)
}

fn put_tool(alloc: Global, out: &mut Vec<u8>, tool: &Tool) -> Result<(), NoMemory> {
    out.extend_from_slice(b"\ntool")?;
    put_bytes(alloc, out, tool.path.as_slice())?;
    put_number(alloc, out, tool.moment)?;
    out.extend_from_slice(match tool.kind {
        ToolKind::Compiler(CompilerKind::C(CCompilerKind::Gcc)) => b" gcc",
        _ => b" not gcc",
    })?;
    Ok(())
}

fn put_objects(alloc: Global, out: &mut Vec<u8>, objects: &[Object]) -> Result<(), NoMemory> {
    for object in objects {
        put_bytes(alloc, out, object.name.as_bytes())?;
        put_bytes(alloc, out, object.bytes.as_slice())?;
        if object.mode.is_some() {
            out.extend_from_slice(b" with a mode")?;
        }
    }
    Ok(())
}

fn put_output(alloc: Global, out: &mut Vec<u8>, run: &RunOutput) -> Result<(), NoMemory> {
    match run.output.status {
        Status::Code(code) => put_number(alloc, out, u64::from(code))?,
        _ => out.extend_from_slice(b" no code")?,
    }
    put_bytes(alloc, out, run.output.stdout.as_slice())?;
    put_bytes(alloc, out, run.output.stderr.as_slice())?;
    match &run.objects {
        Objects::Collected(objects) => put_objects(alloc, out, objects.as_slice()),
        Objects::Broken(_) => {
            out.extend_from_slice(b" broken")?;
            Ok(())
        }
    }
}

fn put_run(alloc: Global, out: &mut Vec<u8>, run: &RunRule) -> Result<(), NoMemory> {
    out.extend_from_slice(b"\nrun")?;
    put_bytes(alloc, out, run.key.as_bytes())?;
    match &run.answer {
        RunAnswer::Output(output) => put_output(alloc, out, output),
        _ => {
            out.extend_from_slice(b" refused")?;
            Ok(())
        }
    }
}

fn put_step(alloc: Global, out: &mut Vec<u8>, step: &Step) -> Result<(), NoMemory> {
    let (name, first): (&[u8], u64) = match step {
        Step::Read(connection, _) => (b"\nread", *connection),
        Step::Serve(connection) => (b"\nserve", *connection),
        Step::Back(write) => (b"\nback", *write),
        Step::Pass(time) => (b"\npass", *time),
    };
    out.extend_from_slice(name)?;
    put_number(alloc, out, first)?;
    match step {
        Step::Read(_, most) => put_number(alloc, out, *most),
        _ => Ok(()),
    }
}

/// Appends how many lines of each other kind there are.
fn put_others(alloc: Global, out: &mut Vec<u8>, script: &Script) -> Result<(), NoMemory> {
    out.extend_from_slice(b"\nothers")?;
    put_number(alloc, out, script.keys.len() as u64)?;
    put_number(alloc, out, script.places.len() as u64)?;
    put_number(alloc, out, script.jobs.len() as u64)
}

/// All that a script says, as a text.
fn shown(alloc: Global, script: &Script) -> Result<Vec<u8>, NoMemory> {
    let mut out = Vec::new(alloc);
    put_inputs(alloc, &mut out, script.inputs.as_slice())?;
    put_number(alloc, &mut out, script.tokens)?;
    put_number(alloc, &mut out, script.limit)?;
    put_policy(&mut out, &script.policy)?;
    for level in script.levels.as_slice() {
        put_level(alloc, &mut out, level)?;
    }
    for tool in script.tools.as_slice() {
        put_tool(alloc, &mut out, tool)?;
    }
    for run in script.runs.as_slice() {
        put_run(alloc, &mut out, run)?;
    }
    put_others(alloc, &mut out, script)?;
    for step in script.steps.as_slice() {
        put_step(alloc, &mut out, step)?;
    }
    Ok(out)
}

/// What the text of a number up to 2,000 says; nothing where it is no script.
fn shown_text(alloc: Global, number: u64) -> Result<Vec<u8>, NoMemory> {
    let text = generate(alloc, number.min(2000))?;
    match read_script(alloc, text.as_slice()) {
        Ok(script) => shown(alloc, &script),
        Err(_) => Ok(Vec::new(alloc)),
    }
}

/// What the value of a number up to 2,000 says.
fn shown_value(alloc: Global, number: u64) -> Result<Vec<u8>, NoMemory> {
    let script = drawn_script(alloc, number.min(2000))?;
    shown(alloc, &script)
}

/// What the script of 1 says behind its first connection's bytes.
const SETTINGS: &str =
    "\ninput 0 \ninput 0 \ninput 0  2 8388608\nlevels required\ndisk 2000 rw 0 0\nremote 0 rw 0 0\ntool 3 /cc 1 gcc\nrun 4 k000 0 3 000 0  3 obj 3 000\nrun 4 k001 0";

#[test]
fn the_value_of_one(rt: HostRuntime) -> Result<(), Fail> {
    let value = shown_value(rt.alloc(), 1)?;
    let text = String::from_utf8_lossy(rt.alloc(), value.as_slice())?;
    assert!(rt; text.contains(SETTINGS));
    assert!(rt; text.contains("\nothers 0 0 0\nread 0 1000000\nread 1 1000000\n"));
    Ok(())
}

#[test]
fn values_are_what_texts_say(rt: HostRuntime) -> Result<(), Fail> {
    for number in [1, 2, 7, 50] {
        let text = shown_text(rt.alloc(), number)?;
        let value = shown_value(rt.alloc(), number)?;
        assert!(rt; !value.is_empty());
        assert!(rt; text.as_slice() == value.as_slice(), "at {number}");
    }
    Ok(())
}
