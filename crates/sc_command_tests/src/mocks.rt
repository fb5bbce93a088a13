//! Mocked children, commands and creators.
use sc_command::{
    Client, CommandChild, CommandCreator, CommandCreatorSync, CommandError, CommandRefusal,
    NewCommandError, RunCommand, SharedCreator, SpawnError, exit_status,
};
use sc_command_mock::{Call, ChildCall, ChildOrCall, MockChild, MockCommand, MockCommandCreator};
use sc_entry::{ByteText, MemSink, NoMemory, Source, read_to_end, write_all};
use std::alloc::Global;
use std::test::Fail;

pub(crate) fn word(alloc: Global, text: &str) -> Result<ByteText, NoMemory> {
    ByteText::from_slice(alloc, text.as_bytes())
}

/// A child that ends with a status, and writes `hi` and `oh`.
fn child(alloc: Global, status: i32) -> Result<MockChild, NoMemory> {
    let stdout = word(alloc, "hi")?;
    let stderr = word(alloc, "oh")?;
    Ok(MockChild::new(alloc, exit_status(status), stdout, stderr))
}

/// A creator without children.
pub(crate) fn mocks(alloc: Global) -> Result<MockCommandCreator, Fail> {
    let client = Client::new(alloc, 1)?;
    Ok(MockCommandCreator::new((), alloc, &client)?)
}

/// Gives a creator one child more, which ends with a status.
pub(crate) fn add_child(
    alloc: Global,
    creator: &mut MockCommandCreator,
    status: i32,
) -> Result<(), Fail> {
    let child = child(alloc, status)?;
    creator.next_command_spawns(Ok(child))?;
    Ok(())
}

/// A creator with one child, which ends with a status.
pub(crate) fn mocks_with(alloc: Global, status: i32) -> Result<MockCommandCreator, Fail> {
    let mut creator = mocks(alloc)?;
    add_child(alloc, &mut creator, status)?;
    Ok(creator)
}

fn new_command(alloc: Global, creator: &mut MockCommandCreator) -> Result<MockCommand, Fail> {
    let program = word(alloc, "/cc")?;
    Ok(creator.new_command(&program)?)
}

/// Whether a command's child ends well, and writes to both its streams.
fn greets(command: &mut MockCommand) -> Result<bool, Fail> {
    let output = command.spawn()?.wait_with_output()?;
    let printed = output.stdout.as_slice() == b"hi".as_slice();
    let warned = output.stderr.as_slice() == b"oh".as_slice();
    Ok(output.status.code() == Some(0) && printed && warned)
}

/// Whether a command was spawned before, as the creator books it.
fn is_spent(creator: &mut MockCommandCreator, command: &mut MockCommand) -> bool {
    match command.spawn() {
        Err(CommandError::Fault(fault)) => creator.book(fault) == CommandRefusal::Spent,
        _ => false,
    }
}

/// Whether a creator's command is spawned once, and its second spawn is counted.
fn spawns_once(alloc: Global, creator: &mut MockCommandCreator) -> Result<bool, Fail> {
    let mut command = new_command(alloc, creator)?;
    let greeted = greets(&mut command)?;
    let spent = is_spent(creator, &mut command);
    Ok(greeted && spent && creator.faults() == 1)
}

#[test]
fn one_child_is_spawned_once(rt: HostRuntime) -> Result<(), Fail> {
    let mut creator = mocks_with(rt.alloc(), 0)?;
    assert!(rt; spawns_once(rt.alloc(), &mut creator)?);
    Ok(())
}

/// Whether a creator has no child left for a command.
fn has_no_child(creator: &mut MockCommandCreator, program: &ByteText) -> bool {
    let next = creator.new_command(program);
    matches!(next, Err(NewCommandError::NoChild))
}

/// Whether a creator gives its one child, and counts that it has no other.
fn gives_once(alloc: Global, creator: &mut MockCommandCreator) -> Result<bool, Fail> {
    let program = word(alloc, "/cc")?;
    let given = creator.new_command(&program).is_ok() && creator.faults() == 0;
    Ok(given && has_no_child(creator, &program) && creator.faults() == 1)
}

#[test]
fn one_child_is_given_once(rt: HostRuntime) -> Result<(), Fail> {
    let mut creator = mocks_with(rt.alloc(), 0)?;
    assert!(rt; gives_once(rt.alloc(), &mut creator)?);
    Ok(())
}

/// The code that a command's child ends with.
fn code_of(command: &mut MockCommand) -> Result<Option<i32>, Fail> {
    let status = command.spawn()?.wait()?;
    Ok(status.code())
}

/// The code that the child of the creator's next command ends with.
fn next_code(alloc: Global, creator: &mut MockCommandCreator) -> Result<Option<i32>, Fail> {
    let mut command = new_command(alloc, creator)?;
    code_of(&mut command)
}

/// The first child that was given is spawned first.
#[test]
fn ample_next_command_spawns(rt: HostRuntime) -> Result<(), Fail> {
    let mut creator = mocks_with(rt.alloc(), 256)?;
    add_child(rt.alloc(), &mut creator, 512)?;
    for code in [1, 2] {
        assert_eq!(rt; next_code(rt.alloc(), &mut creator)?, Some(code));
    }
    Ok(())
}

/// Whether this is all that a stream gives.
fn gives<S: Source>(alloc: Global, stream: &mut S, expected: &[u8]) -> Result<bool, Fail> {
    let bytes = read_to_end(alloc, stream, 10)?;
    Ok(bytes.as_slice() == expected)
}

/// Whether this is what a child writes to its standard error.
fn has_errors(alloc: Global, child: &mut MockChild, expected: &[u8]) -> Result<bool, Fail> {
    let mut stderr = child.take_stderr().ok_or("a stream")?;
    gives(alloc, &mut stderr, expected)
}

#[test]
fn errors_are_taken_once(rt: HostRuntime) -> Result<(), Fail> {
    let mut child = child(rt.alloc(), 0)?;
    assert!(rt; has_errors(rt.alloc(), &mut child, b"oh")?);
    assert!(rt; child.take_stderr().is_none());
    Ok(())
}

/// Whether a sink holds the bytes that are written to it.
fn holds_written(sink: &mut MemSink, bytes: &[u8]) -> Result<bool, Fail> {
    write_all(sink, bytes)?;
    Ok(sink.as_slice() == bytes)
}

/// Whether a child's standard input holds what is written to it.
fn takes_input(child: &mut MockChild) -> Result<bool, Fail> {
    let mut stdin = child.take_stdin().ok_or("a stream")?;
    holds_written(&mut stdin, b"in")
}

#[test]
fn input_is_taken_once(rt: HostRuntime) -> Result<(), Fail> {
    let mut child = child(rt.alloc(), 0)?;
    assert!(rt; takes_input(&mut child)?);
    assert!(rt; child.take_stdin().is_none());
    Ok(())
}

/// Adds words, each with a space behind it.
fn append_words(text: &mut ByteText, words: &[ByteText]) -> Result<(), NoMemory> {
    for word in words {
        text.append(word.as_slice())?;
        text.push(b' ')?;
    }
    Ok(())
}

/// A child that writes the arguments, each with a space behind it.
fn written(alloc: Global, words: &[ByteText]) -> Result<MockChild, SpawnError> {
    let mut stdout = ByteText::new(alloc);
    append_words(&mut stdout, words)?;
    Ok(MockChild::new(alloc, exit_status(0), stdout, ByteText::new(alloc)))
}

/// Gives a creator one call more.
fn add_call(alloc: Global, creator: &mut MockCommandCreator) -> Result<(), Fail> {
    let call: Call = Box::new(alloc, move |words: &[ByteText]| written(alloc, words))?;
    creator.next_command_calls(call)?;
    Ok(())
}

/// Adds an argument.
fn add_word(alloc: Global, command: &mut MockCommand, text: &str) -> Result<(), Fail> {
    let word = word(alloc, text)?;
    command.arg(&word)?;
    Ok(())
}

/// Adds two arguments by one call.
fn add_words(
    alloc: Global,
    command: &mut MockCommand,
    first: &str,
    second: &str,
) -> Result<(), Fail> {
    let words = [word(alloc, first)?, word(alloc, second)?];
    command.args(&words)?;
    Ok(())
}

/// Whether a command's child writes this to its standard output.
fn prints(command: &mut MockCommand, stdout: &[u8]) -> Result<bool, Fail> {
    let output = command.spawn()?.wait_with_output()?;
    Ok(output.stdout.as_slice() == stdout)
}

/// Whether a creator's command calls its call with its arguments, in order.
fn prints_its_words(alloc: Global, creator: &mut MockCommandCreator) -> Result<bool, Fail> {
    let mut command = new_command(alloc, creator)?;
    add_word(alloc, &mut command, "-c")?;
    add_words(alloc, &mut command, "a.c", "b.c")?;
    prints(&mut command, b"-c a.c b.c ")
}

#[test]
fn ample_next_command_calls(rt: HostRuntime) -> Result<(), Fail> {
    let mut creator = mocks(rt.alloc())?;
    add_call(rt.alloc(), &mut creator)?;
    assert!(rt; prints_its_words(rt.alloc(), &mut creator)?);
    Ok(())
}

/// Whether this is what a child or call shows.
fn shows(alloc: Global, given: &ChildOrCall, text: &str) -> Result<bool, Fail> {
    let shown = format!(in alloc; "{given:?}")?;
    Ok(shown.as_str() == text)
}

/// Whether this is what a refusal shows.
fn refusal_shows(alloc: Global, text: &str) -> Result<bool, Fail> {
    let given = ChildOrCall::Child(Err(SpawnError::SpawnFault));
    shows(alloc, &given, text)
}

/// Whether this is what a call shows.
fn call_shows(alloc: Global, text: &str) -> Result<bool, Fail> {
    let call: Call = Box::new(alloc, move |words: &[ByteText]| written(alloc, words))?;
    let given = ChildOrCall::Call(ChildCall::new(call));
    shows(alloc, &given, text)
}

#[test]
fn debug_texts(rt: HostRuntime) -> Result<(), Fail> {
    assert!(rt; refusal_shows(rt.alloc(), "ChildOrCall::Child(...)")?);
    assert!(rt; call_shows(rt.alloc(), "ChildOrCall::Call(...)")?);
    Ok(())
}

/// Whether one child is given once, to one of two creators.
fn share<K: CommandCreatorSync>(one: &mut K, other: &mut K, program: &ByteText) -> bool
where
    <K as CommandCreator>::Cmd: Drop,
{
    let given = other.new_command_sync(program).is_ok();
    let refused = one.new_command(program).is_err();
    given && refused && (one.faults(), other.faults()) == (1, 0)
}

/// Whether one child is given once, to a creator or to a clone of it.
fn shares<K: CommandCreatorSync + Drop>(alloc: Global, one: &mut K) -> Result<bool, Fail>
where
    <K as CommandCreator>::Cmd: Drop,
{
    let program = word(alloc, "/cc")?;
    let mut other = one.try_clone()?;
    Ok(share(one, &mut other, &program))
}

#[test]
fn ample_from_creator(rt: HostRuntime) -> Result<(), Fail> {
    let creator = mocks_with(rt.alloc(), 0)?;
    let mut one = SharedCreator::from_creator(rt, rt.alloc(), creator)?;
    assert!(rt; shares(rt.alloc(), &mut one)?);
    assert_eq!(rt; one.lock().faults(), 1);
    Ok(())
}

/// Whether a creator makes a command.
fn makes_command<K: CommandCreator>(alloc: Global, creator: &mut K) -> Result<bool, Fail>
where
    <K as CommandCreator>::Cmd: Drop,
{
    let program = word(alloc, "/cc")?;
    Ok(creator.new_command(&program).is_ok())
}

#[test]
fn ample_new(rt: HostRuntime) -> Result<(), Fail> {
    let alloc = rt.alloc();
    let client = Client::new(alloc, 1)?;
    let mut creator: SharedCreator<MockCommandCreator, HostRuntime> = SharedCreator::new(
        (rt, ()),
        alloc,
        &client,
    )?;
    add_child(alloc, &mut creator.lock(), 0)?;
    assert!(rt; makes_command(alloc, &mut creator)?);
    Ok(())
}
