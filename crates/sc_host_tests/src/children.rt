//! Real children.
use sc_command::{
    Client, CommandChild, CommandCreator, CommandCreatorSync, CommandError, CommandRefusal,
    RunCommand, SpawnError, StdioMode,
};
use sc_entry::{ByteText, NoMemory, Source, read_to_end, write_all};
use sc_host::{AsyncCommand, Child, ProcessCommandCreator};
use std::alloc::Global;
use std::os::unix::process::ExitStatusExt;
use std::process::{Processes, SystemProcess};
use std::sync::Wait;
use std::test::Fail;
use std::thread::Threads;

fn word(alloc: Global, text: &str) -> Result<ByteText, NoMemory> {
    ByteText::from_slice(alloc, text.as_bytes())
}

/// A creator whose children take their tokens from a client of its own.
fn processes<R: Processes<Started = SystemProcess> + Threads + Wait + Copy + Drop>(
    rt: R,
    alloc: Global,
) -> Result<ProcessCommandCreator<R>, Fail> {
    let client = Client::new(alloc, 1)?;
    Ok(ProcessCommandCreator::new(rt, alloc, &client)?)
}

/// Makes a command a shell's that runs a script, its three streams piped.
fn set_script<C: RunCommand>(alloc: Global, command: &mut C, script: &str) -> Result<(), NoMemory> {
    let words = [word(alloc, "-c")?, word(alloc, script)?];
    command.args(&words)?;
    command.stdin(StdioMode::Piped);
    command.stdout(StdioMode::Piped);
    command.stderr(StdioMode::Piped);
    Ok(())
}

/// A command that runs the shell.
fn plain_shell<R: Processes<Started = SystemProcess> + Threads + Wait + Copy + Drop>(
    alloc: Global,
    creator: &mut ProcessCommandCreator<R>,
) -> Result<AsyncCommand<R>, Fail> {
    let program = word(alloc, "/bin/sh")?;
    Ok(creator.new_command_sync(&program)?)
}

/// A shell that runs a script, its three streams piped.
fn shell<R: Processes<Started = SystemProcess> + Threads + Wait + Copy + Drop>(
    alloc: Global,
    creator: &mut ProcessCommandCreator<R>,
    script: &str,
) -> Result<AsyncCommand<R>, Fail> {
    let mut command = plain_shell(alloc, creator)?;
    set_script(alloc, &mut command, script)?;
    Ok(command)
}

fn spawned<R: Processes<Started = SystemProcess> + Threads + Wait + Copy + Drop>(
    command: &mut AsyncCommand<R>,
) -> Result<Child<R>, Fail> {
    Ok(command.spawn()?)
}

/// The child of a shell that runs a script.
fn shell_child<R: Processes<Started = SystemProcess> + Threads + Wait + Copy + Drop>(
    alloc: Global,
    creator: &mut ProcessCommandCreator<R>,
    script: &str,
) -> Result<Child<R>, Fail> {
    let mut command = shell(alloc, creator, script)?;
    spawned(&mut command)
}

/// Whether a child ends with the code 0, and writes this to its standard output.
fn writes<R: Processes<Started = SystemProcess> + Threads + Wait + Copy + Drop>(
    child: Child<R>,
    stdout: &[u8],
) -> Result<bool, Fail> {
    let output = child.wait_with_output()?;
    Ok(output.status.code() == Some(0) && output.stdout.as_slice() == stdout)
}

/// Whether a command's child ends with the code 0, and writes this to its standard output.
fn prints<R: Processes<Started = SystemProcess> + Threads + Wait + Copy + Drop>(
    command: &mut AsyncCommand<R>,
    stdout: &[u8],
) -> Result<bool, Fail> {
    writes(spawned(command)?, stdout)
}

/// A clone that outlives its creator.
fn clone_of<R: Processes<Started = SystemProcess> + Threads + Wait + Copy + Drop>(
    creator: ProcessCommandCreator<R>,
) -> Result<ProcessCommandCreator<R>, Fail> {
    Ok(creator.try_clone()?)
}

/// Makes a command print a greeting.
fn set_greeting<C: RunCommand>(alloc: Global, command: &mut C) -> Result<(), NoMemory> {
    let greeting = word(alloc, "hello")?;
    command.arg(&greeting)?;
    command.stdin(StdioMode::Null);
    command.stdout(StdioMode::Piped);
    Ok(())
}

/// A command that echoes its arguments.
fn plain_echo<R: Processes<Started = SystemProcess> + Threads + Wait + Copy + Drop>(
    alloc: Global,
    creator: &mut ProcessCommandCreator<R>,
) -> Result<AsyncCommand<R>, Fail> {
    let program = word(alloc, "echo")?;
    Ok(creator.new_command(&program)?)
}

/// Why a command isn't spawned, as the creator books it; nothing where it is, or memory runs out.
fn refusal<R: Processes<Started = SystemProcess> + Threads + Wait + Copy + Drop>(
    creator: &mut ProcessCommandCreator<R>,
    command: &mut AsyncCommand<R>,
) -> Option<CommandRefusal> {
    match command.spawn() {
        Err(CommandError::Fault(fault)) => Some(creator.book(fault)),
        _ => None,
    }
}

/// Whether a command is spawned once, and its second spawn is counted.
fn greets_once<R: Processes<Started = SystemProcess> + Threads + Wait + Copy + Drop>(
    creator: &mut ProcessCommandCreator<R>,
    command: &mut AsyncCommand<R>,
) -> Result<bool, Fail> {
    let greeted = prints(command, b"hello\n")?;
    let spent = refusal(creator, command) == Some(CommandRefusal::Spent);
    Ok(greeted && spent && creator.faults() == 1)
}

/// Whether a creator's command greets once.
fn greets<R: Processes<Started = SystemProcess> + Threads + Wait + Copy + Drop>(
    alloc: Global,
    creator: &mut ProcessCommandCreator<R>,
) -> Result<bool, Fail> {
    let mut command = plain_echo(alloc, creator)?;
    set_greeting(alloc, &mut command)?;
    greets_once(creator, &mut command)
}

#[test]
fn echo(rt: HostRuntime) -> Result<(), Fail> {
    let mut creator = clone_of(processes(rt, rt.alloc())?)?;
    assert!(rt; greets(rt.alloc(), &mut creator)?);
    Ok(())
}

/// One MB.
const LARGE: usize = 1_000_000;

/// Writes one MB to a child's standard input, and ends it.
fn feed<R: Processes<Started = SystemProcess> + Threads + Wait + Copy + Drop>(
    child: &mut Child<R>,
    bytes: &[u8],
) -> Result<(), Fail> {
    let mut stdin = child.take_stdin().ok_or("a stream")?;
    write_all(&mut stdin, bytes)?;
    Ok(())
}

fn feed_large<R: Processes<Started = SystemProcess> + Threads + Wait + Copy + Drop>(
    alloc: Global,
    child: &mut Child<R>,
) -> Result<(), Fail> {
    let bytes = vec![in alloc; 7u8; LARGE]?;
    feed(child, &bytes)
}

/// Whether a stream gives so many bytes, and ends with these.
fn gives<S: Source>(alloc: Global, stream: &mut S, len: usize, end: &[u8]) -> Result<bool, Fail> {
    let bytes = read_to_end(alloc, stream, 2_000_000)?;
    Ok(bytes.len() == len && bytes.as_slice().ends_with(end))
}

/// Whether a child writes one MB to its standard output, and how much it read.
fn counts_input<R: Processes<Started = SystemProcess> + Threads + Wait + Copy + Drop>(
    alloc: Global,
    child: &mut Child<R>,
) -> Result<bool, Fail> {
    let mut stdout = child.take_stdout().ok_or("a stream")?;
    gives(alloc, &mut stdout, 1_000_008, b"1000000\n")
}

/// Whether a child ends well, and writes one MB to its standard error.
fn has_large_errors<R: Processes<Started = SystemProcess> + Threads + Wait + Copy + Drop>(
    child: Child<R>,
) -> Result<bool, Fail> {
    let output = child.wait_with_output()?;
    Ok(output.status.code() == Some(0) && output.stderr.len() == LARGE)
}

/// Whether one MB passes each of a child's streams.
fn passes_large_streams<R: Processes<Started = SystemProcess> + Threads + Wait + Copy + Drop>(
    alloc: Global,
    creator: &mut ProcessCommandCreator<R>,
) -> Result<bool, Fail> {
    let script = "head -c 1000000 /dev/zero; head -c 1000000 /dev/zero >&2; wc -c";
    let mut child = shell_child(alloc, creator, script)?;
    feed_large(alloc, &mut child)?;
    Ok(counts_input(alloc, &mut child)? && has_large_errors(child)?)
}

#[test]
fn large_streams(rt: HostRuntime) -> Result<(), Fail> {
    let mut creator = processes(rt, rt.alloc())?;
    assert!(rt; passes_large_streams(rt.alloc(), &mut creator)?);
    Ok(())
}

/// Whether a signal ends a child.
fn is_killed<R: Processes<Started = SystemProcess> + Threads + Wait + Copy + Drop>(
    child: Child<R>,
    signal: i32,
) -> Result<bool, Fail> {
    let output = child.wait_with_output()?;
    Ok(output.status.code().is_none() && output.status.signal() == Some(signal))
}

/// Whether a child that kills itself is told to be killed.
fn kills_itself<R: Processes<Started = SystemProcess> + Threads + Wait + Copy + Drop>(
    alloc: Global,
    creator: &mut ProcessCommandCreator<R>,
) -> Result<bool, Fail> {
    is_killed(shell_child(alloc, creator, "kill -9 $$")?, 9)
}

#[test]
fn a_killed_child(rt: HostRuntime) -> Result<(), Fail> {
    let mut creator = processes(rt, rt.alloc())?;
    assert!(rt; kills_itself(rt.alloc(), &mut creator)?);
    Ok(())
}

/// Sets a variable of a command.
fn set<C: RunCommand>(
    alloc: Global,
    command: &mut C,
    name: &str,
    value: &str,
) -> Result<(), NoMemory> {
    let name = word(alloc, name)?;
    let value = word(alloc, value)?;
    command.env(&name, &value)
}

/// Sets where a command's child runs.
fn set_folder<C: RunCommand>(alloc: Global, command: &mut C, folder: &str) -> Result<(), NoMemory> {
    let folder = word(alloc, folder)?;
    command.current_dir(&folder)
}

/// Gives a command a variable that is lost, two others, one of them twice, and a folder.
fn set_place<C: RunCommand>(alloc: Global, command: &mut C) -> Result<(), NoMemory> {
    set(alloc, command, "LOST", "1")?;
    command.env_clear();
    for (name, value) in [("PATH", "/usr/bin:/bin"), ("A", "1"), ("A", "2")] {
        set(alloc, command, name, value)?;
    }
    set_folder(alloc, command, "/")
}

/// Whether a shell tells what was set last, and its folder.
fn tells_place<R: Processes<Started = SystemProcess> + Threads + Wait + Copy + Drop>(
    alloc: Global,
    creator: &mut ProcessCommandCreator<R>,
) -> Result<bool, Fail> {
    let script = "pwd; env | grep -v PWD= | grep -v _= | sort";
    let mut command = shell(alloc, creator, script)?;
    set_place(alloc, &mut command)?;
    prints(&mut command, b"/\nA=2\nPATH=/usr/bin:/bin\n")
}

#[test]
fn a_cleared_environment(rt: HostRuntime) -> Result<(), Fail> {
    let mut creator = processes(rt, rt.alloc())?;
    assert!(rt; tells_place(rt.alloc(), &mut creator)?);
    Ok(())
}

/// A variable with its value.
fn variable(alloc: Global, name: &str, value: &str) -> Result<(ByteText, ByteText), NoMemory> {
    let name = word(alloc, name)?;
    let value = word(alloc, value)?;
    Ok((name, value))
}

/// Sets two variables of a command by one call.
fn set_two<C: RunCommand>(alloc: Global, command: &mut C) -> Result<(), NoMemory> {
    let variables = [
        variable(alloc, "MAKEFLAGS", "-j")?,
        variable(alloc, "SEEN", "1")?,
    ];
    command.envs(&variables)
}

/// Sets the variables by which make and cargo hand their tokens down, and another.
fn set_flags<C: RunCommand>(alloc: Global, command: &mut C) -> Result<(), NoMemory> {
    set_two(alloc, command)?;
    for name in ["MFLAGS", "CARGO_MAKEFLAGS"] {
        set(alloc, command, name, "-j")?;
    }
    command.share_jobserver();
    Ok(())
}

/// Whether a shell gets none of those variables, and the other.
fn hands_down_no_flags<R: Processes<Started = SystemProcess> + Threads + Wait + Copy + Drop>(
    alloc: Global,
    creator: &mut ProcessCommandCreator<R>,
) -> Result<bool, Fail> {
    let mut command = shell(alloc, creator, "env | grep -E 'MAKEFLAGS|MFLAGS|SEEN'")?;
    set_flags(alloc, &mut command)?;
    prints(&mut command, b"SEEN=1\n")
}

#[test]
fn ample_envs(rt: HostRuntime) -> Result<(), Fail> {
    let mut creator = processes(rt, rt.alloc())?;
    assert!(rt; hands_down_no_flags(rt.alloc(), &mut creator)?);
    Ok(())
}

/// Adds an argument that is no text.
fn add_no_text<C: RunCommand>(alloc: Global, command: &mut C) -> Result<(), NoMemory> {
    let word = ByteText::from_slice(alloc, b"\xff")?;
    command.arg(&word)
}

/// Whether a command isn't told to the system.
fn is_untold<R: Processes<Started = SystemProcess> + Threads + Wait + Copy + Drop>(
    command: &AsyncCommand<R>,
) -> bool {
    matches!(command.to_command(), Err(SpawnError::SpawnFault))
}

/// Whether a shell with an argument that is no text is refused.
fn refuses_no_text<R: Processes<Started = SystemProcess> + Threads + Wait + Copy + Drop>(
    alloc: Global,
    creator: &mut ProcessCommandCreator<R>,
) -> Result<bool, Fail> {
    let mut command = shell(alloc, creator, "exit 0")?;
    add_no_text(alloc, &mut command)?;
    let untold = is_untold(&command);
    let refused = refusal(creator, &mut command) == Some(CommandRefusal::SpawnFault);
    Ok(untold && refused)
}

#[test]
fn a_word_that_is_no_text(rt: HostRuntime) -> Result<(), Fail> {
    let mut creator = processes(rt, rt.alloc())?;
    assert!(rt; refuses_no_text(rt.alloc(), &mut creator)?);
    Ok(())
}

/// Whether a command is, as the system takes it, a shell with two arguments.
fn is_shell<R: Processes<Started = SystemProcess> + Threads + Wait + Copy + Drop>(
    command: &AsyncCommand<R>,
) -> Result<bool, Fail> {
    let command = command.to_command()?;
    Ok(command.get_program() == "/bin/sh" && command.get_args().len() == 2)
}

/// Whether a shell is told to the system so.
fn tells_shell<R: Processes<Started = SystemProcess> + Threads + Wait + Copy + Drop>(
    alloc: Global,
    creator: &mut ProcessCommandCreator<R>,
) -> Result<bool, Fail> {
    let command = shell(alloc, creator, "exit 0")?;
    is_shell(&command)
}

#[test]
fn ample_to_command(rt: HostRuntime) -> Result<(), Fail> {
    let mut creator = processes(rt, rt.alloc())?;
    assert!(rt; tells_shell(rt.alloc(), &mut creator)?);
    Ok(())
}

fn has_free<R: Wait>(rt: &R, client: &Client) -> bool {
    client.try_acquire(rt).is_some()
}

/// Whether a child ends well.
fn ends_well<R: Processes<Started = SystemProcess> + Threads + Wait + Copy + Drop>(
    child: Child<R>,
) -> Result<bool, Fail> {
    let status = child.wait()?;
    Ok(status.code() == Some(0))
}

/// Whether the child of a creator ends well, and holds the one token of its client as long as it runs.
fn holds_token<R: Processes<Started = SystemProcess> + Threads + Wait + Copy + Drop>(
    rt: R,
    alloc: Global,
    client: &Client,
    creator: &mut ProcessCommandCreator<R>,
) -> Result<bool, Fail> {
    let child = shell_child(alloc, creator, "cat")?;
    let is_held = !has_free(&rt, client);
    let ended = ends_well(child)?;
    Ok(is_held && ended && has_free(&rt, client))
}

/// Whether the child of a client's creator does.
fn child_holds_token<R: Processes<Started = SystemProcess> + Threads + Wait + Copy + Drop>(
    rt: R,
    alloc: Global,
    client: &Client,
) -> Result<bool, Fail> {
    let mut creator = ProcessCommandCreator::new(rt, alloc, client)?;
    holds_token(rt, alloc, client, &mut creator)
}

#[test]
fn a_child_holds_a_token(rt: HostRuntime) -> Result<(), Fail> {
    let client = Client::new(rt.alloc(), 1)?;
    assert!(rt; child_holds_token(rt, rt.alloc(), &client)?);
    Ok(())
}
