//! Runs and placings over mocked children and files in memory, and one over a real child.
use crate::mocks::{mocks, mocks_with, word};
use sc_command::{Client, CommandCreator, SpawnError, WaitFault};
use sc_command_mock::{MockChild, MockCommandCreator};
use sc_command_workshop::{
    CCompileCommand, CommandWorkshop, CompileCommand, CompileCommandImpl, ExecuteError, prepare,
};
use sc_compile::{SingleCompileCommand, Workshop};
use sc_entry::{
    ByteText, CacheWrite, Calls, FileObjectSource, Files, Items, MemFiles, NoMemory, Object, Text,
};
use sc_host::{HostFiles, ProcessCommandCreator};
use sc_model::{Objects, Output, RunAnswer, Status, Variable};
use std::alloc::Global;
use std::test::Fail;

/// The name of an output in `/o`, and whether it is optional.
type Row = (&'static str, bool);

/// Two words, which ask a shell to run a script.
fn arguments_of(alloc: Global, script: &str) -> Result<Items<ByteText>, Fail> {
    let mut arguments = Items::new(alloc);
    add_word(alloc, &mut arguments, "-c")?;
    add_word(alloc, &mut arguments, script)?;
    Ok(arguments)
}

fn add_word(alloc: Global, words: &mut Items<ByteText>, text: &str) -> Result<(), Fail> {
    words.push(word(alloc, text)?)?;
    Ok(())
}

fn variable_of(alloc: Global, name: &str, value: &str) -> Result<Variable, Fail> {
    let name = word(alloc, name)?;
    let value = word(alloc, value)?;
    Ok(Variable { name, value })
}

/// A shell that runs a script, with one variable.
fn shell(alloc: Global, script: &str) -> Result<SingleCompileCommand, Fail> {
    let mut env_vars = Items::new(alloc);
    env_vars.push(variable_of(alloc, "A", "1")?)?;
    Ok(SingleCompileCommand {
        executable: word(alloc, "/bin/sh")?,
        arguments: arguments_of(alloc, script)?,
        env_vars,
        cwd: word(alloc, "/")?,
        share_jobserver: false,
    })
}

fn output_of(alloc: Global, name: &str, optional: bool) -> Result<FileObjectSource, NoMemory> {
    let mut path = ByteText::from_slice(alloc, b"/o/")?;
    path.append(name.as_bytes())?;
    Ok(FileObjectSource {
        key: Text::from_str(alloc, name)?,
        path,
        optional,
    })
}

fn outputs_of(alloc: Global, rows: &[Row]) -> Result<Vec<FileObjectSource>, Fail> {
    let mut outputs = Vec::new(alloc);
    for (name, optional) in rows {
        outputs.push(output_of(alloc, name, *optional)?)?;
    }
    Ok(outputs)
}

/// Puts a file `/o/obj` of the bytes `AB`.
fn put_obj(alloc: Global, files: &mut MemFiles) -> Result<(), Fail> {
    let path = word(alloc, "/o/obj")?;
    files.place(&path, b"AB", Some(420))?;
    Ok(())
}

/// Files that hold `AB` at `/o/obj`, and refuse the calls of these numbers.
fn files_of(alloc: Global, failing: &[u64]) -> Result<MemFiles, Fail> {
    let failing = Items::from_vec(failing.to_vec(alloc)?);
    let mut files = MemFiles::new(alloc, Calls::failing_at(alloc, failing)?);
    put_obj(alloc, &mut files)?;
    Ok(files)
}

/// Runs a shell's command, with these outputs.
fn run_outputs<W: Workshop>(
    alloc: Global,
    shop: &mut W,
    outputs: &[FileObjectSource],
) -> Result<RunAnswer, Fail> {
    let key = Text::from_str(alloc, "key1")?;
    let command = shell(alloc, "cc")?;
    Ok(shop.run(alloc, &key, &command, outputs)?)
}

/// Runs a shell's command, with the outputs of these rows.
fn run<W: Workshop>(alloc: Global, shop: &mut W, rows: &[Row]) -> Result<RunAnswer, Fail> {
    let outputs = outputs_of(alloc, rows)?;
    run_outputs(alloc, shop, &outputs)
}

/// Whether a child ended so, and wrote `hi` and `oh`.
fn is_told(told: &Output, status: Status) -> bool {
    let ends = match (told.status, status) {
        (Status::Code(one), Status::Code(other)) => one == other,
        (Status::Signal(one), Status::Signal(other)) => one == other,
        (Status::Neither, Status::Neither) => true,
        _ => false,
    };
    ends && told.stdout.as_slice() == b"hi".as_slice() && told.stderr.as_slice() == b"oh".as_slice()
}

/// The objects that a run collected; none where it collected none.
fn objects_of(answer: &RunAnswer) -> &[Object] {
    match answer {
        RunAnswer::Output(out) => match &out.objects {
            Objects::Collected(objects) => objects.as_slice(),
            Objects::Broken(_chain) => &[],
        },
        RunAnswer::ProcessError(_output) => &[],
        RunAnswer::Fault(_chain) => &[],
    }
}

/// Why a run gave no objects; nothing where it gave some, or its child failed.
fn chain_of(answer: &RunAnswer) -> &[Text] {
    match answer {
        RunAnswer::Output(out) => match &out.objects {
            Objects::Collected(_objects) => &[],
            Objects::Broken(chain) => chain.as_slice(),
        },
        RunAnswer::ProcessError(_output) => &[],
        RunAnswer::Fault(chain) => chain.as_slice(),
    }
}

/// Whether texts are these.
fn are_texts(texts: &[Text], expected: &[&str]) -> bool {
    let mut same = texts.len() == expected.len();
    for (text, word) in texts.iter().zip(expected) {
        same = same && text.as_str() == *word;
    }
    same
}

fn is_success(answer: &RunAnswer) -> bool {
    match answer {
        RunAnswer::Output(out) => is_told(&out.output, Status::Code(0)),
        RunAnswer::ProcessError(_output) => false,
        RunAnswer::Fault(_chain) => false,
    }
}

/// Whether objects are `obj` alone, of the bytes `AB` with a mode.
fn are_obj(objects: &[Object]) -> bool {
    match objects {
        [object] => {
            let named = object.name.as_str() == "obj" && object.mode == Some(420);
            named && object.bytes.as_slice() == b"AB".as_slice()
        }
        _ => false,
    }
}

/// Whether a run ends well and collects what is there.
fn collects<W: Workshop>(alloc: Global, shop: &mut W) -> Result<bool, Fail> {
    let answer = run(alloc, shop, &[("obj", false), ("dep", true)])?;
    Ok(is_success(&answer) && are_obj(objects_of(&answer)))
}

#[test]
fn collects_outputs(rt: HostRuntime) -> Result<(), Fail> {
    let mut shop = CommandWorkshop::new(mocks_with(rt.alloc(), 0)?, files_of(rt.alloc(), &[])?);
    assert!(rt; collects(rt.alloc(), &mut shop)?);
    Ok(())
}

fn is_process_error(answer: &RunAnswer, status: Status) -> bool {
    match answer {
        RunAnswer::ProcessError(output) => is_told(output, status),
        RunAnswer::Output(_out) => false,
        RunAnswer::Fault(_chain) => false,
    }
}

/// Whether a run is a failed child's, and no refusal.
fn fails<W: Workshop>(alloc: Global, shop: &mut W, status: Status) -> Result<bool, Fail> {
    let answer = run(alloc, shop, &[("none", false)])?;
    Ok(is_process_error(&answer, status) && shop.faults() == 0)
}

/// Whether a child that ends with a value of the system's wait fails so.
fn fails_with(alloc: Global, value: i32, status: Status) -> Result<bool, Fail> {
    let mut shop = CommandWorkshop::new(mocks_with(alloc, value)?, files_of(alloc, &[])?);
    fails(alloc, &mut shop, status)
}

#[test]
fn tells_how_a_child_ended(rt: HostRuntime) -> Result<(), Fail> {
    for (value, status) in [
        (768, Status::Code(3)),
        (9, Status::Signal(9)),
        (127, Status::Neither),
    ] {
        assert!(rt; fails_with(rt.alloc(), value, status)?, "of {value}");
    }
    Ok(())
}

/// Whether a run comes to this chain, and counts so many refusals.
fn breaks<W: Workshop>(
    alloc: Global,
    shop: &mut W,
    rows: &[Row],
    chain: &[&str],
    faults: u64,
) -> Result<bool, Fail> {
    let answer = run(alloc, shop, rows)?;
    Ok(are_texts(chain_of(&answer), chain) && shop.faults() == faults)
}

#[test]
fn tells_why_outputs_lack(rt: HostRuntime) -> Result<(), Fail> {
    let mut shop = CommandWorkshop::new(mocks_with(rt.alloc(), 0)?, files_of(rt.alloc(), &[])?);
    let chain = [
        "failed to zip up compiler outputs",
        "failed to open file none",
    ];
    assert!(rt; breaks(rt.alloc(), &mut shop, &[("none", false)], &chain, 1)?);
    Ok(())
}

#[test]
fn refuses_objects_that_no_entry_holds(rt: HostRuntime) -> Result<(), Fail> {
    let mut shop = CommandWorkshop::new(mocks_with(rt.alloc(), 0)?, files_of(rt.alloc(), &[])?);
    let rows = [("obj", false), ("obj", false)];
    let chain = ["failed to zip up compiler outputs", "bad object name"];
    assert!(rt; breaks(rt.alloc(), &mut shop, &rows, &chain, 1)?);
    Ok(())
}

/// Adds a spawn that is refused, and a child whose wait is.
fn refuse_twice(alloc: Global, creator: &mut MockCommandCreator) -> Result<(), Fail> {
    creator.next_command_spawns(Err(SpawnError::SpawnFault))?;
    creator.next_command_spawns(Ok(MockChild::with_error(alloc, WaitFault)))?;
    Ok(())
}

/// A creator whose first spawn is refused, whose second child's wait is, and that has no other child.
fn refusing_mocks(alloc: Global) -> Result<MockCommandCreator, Fail> {
    let mut creator = mocks(alloc)?;
    refuse_twice(alloc, &mut creator)?;
    Ok(creator)
}

#[test]
fn tells_why_no_child_ran(rt: HostRuntime) -> Result<(), Fail> {
    let mut shop = CommandWorkshop::new(refusing_mocks(rt.alloc())?, files_of(rt.alloc(), &[])?);
    for (faults, text) in [
        (1, "cannot spawn"),
        (2, "cannot wait"),
        (3, "no mock child left"),
    ] {
        assert!(rt;
            breaks(rt.alloc(), &mut shop, &[], &[text], faults)?,
            "{text}"
        );
    }
    assert_eq!(rt; shop.creator().faults(), 3);
    Ok(())
}

/// Puts one object `obj`.
fn put_one(entry: &mut CacheWrite) -> Result<(), Fail> {
    entry.put_object("obj", b"CD", None)?;
    Ok(())
}

/// An entry of one object `obj`.
fn entry_of(alloc: Global) -> Result<ByteText, Fail> {
    let mut entry = CacheWrite::new(alloc)?;
    put_one(&mut entry)?;
    Ok(ByteText::from_vec(entry.finish()))
}

/// Whether a placing of one output is done, where nothing is expected, or else comes to this text.
fn places<W: Workshop>(
    alloc: Global,
    shop: &mut W,
    name: &'static str,
    entry: &ByteText,
    expected: Option<&str>,
) -> Result<bool, Fail> {
    let key = Text::from_str(alloc, "key1")?;
    let outputs = outputs_of(alloc, &[(name, false)])?;
    let chain = shop.place(alloc, &key, &outputs, entry)?;
    match (&chain, expected) {
        (Some(chain), Some(text)) => Ok(are_texts(chain.as_slice(), &[text])),
        (None, None) => Ok(true),
        _ => Ok(false),
    }
}

/// Whether the first placing is refused, the second done, and one without its object lacks it.
fn places_whole<W: Workshop>(alloc: Global, shop: &mut W) -> Result<bool, Fail> {
    let entry = entry_of(alloc)?;
    let refused = places(alloc, shop, "obj", &entry, Some("file fault"))?;
    let done = places(alloc, shop, "obj", &entry, None)?;
    let text = "failed to decompress content";
    let lacking = places(alloc, shop, "dep", &entry, Some(text))?;
    Ok(refused && done && lacking)
}

/// Whether bytes that are no entry are refused.
fn refuses_torn<W: Workshop>(alloc: Global, shop: &mut W) -> Result<bool, Fail> {
    let torn = word(alloc, "SCE1")?;
    let text = "Failed to parse cache entry";
    places(alloc, shop, "obj", &torn, Some(text))
}

#[test]
fn places_an_entry(rt: HostRuntime) -> Result<(), Fail> {
    let mut shop = CommandWorkshop::new(mocks_with(rt.alloc(), 0)?, files_of(rt.alloc(), &[2])?);
    assert!(rt; places_whole(rt.alloc(), &mut shop)?);
    assert!(rt; refuses_torn(rt.alloc(), &mut shop)?);
    assert!(rt; shop.faults() == 3 && shop.files().faults() == 1);
    Ok(())
}

/// What an execution comes to, in a word.
fn end_of(came: Result<sc_command::Output, ExecuteError>) -> &'static str {
    match came {
        Ok(_output) => "output",
        Err(error) => match error {
            ExecuteError::NoMemory => "no memory",
            ExecuteError::ProcessError(_output) => "process error",
            ExecuteError::NoChild => "no child",
            ExecuteError::Refused(_refusal) => "refused",
        },
    }
}

/// Whether a command is the shell's in `/`, with two words and one variable.
fn is_shell<I: CompileCommandImpl>(command: &I) -> bool {
    let program = command.get_executable().as_slice() == b"/bin/sh".as_slice();
    let folder = command.get_cwd().as_slice() == b"/".as_slice();
    let arguments = command.get_arguments().len() == 2;
    program && folder && arguments && command.get_env_vars().len() == 1
}

/// Whether a command runs the creator's one child, which fails, and then finds none.
fn runs_once<I: CompileCommandImpl>(
    creator: &mut MockCommandCreator,
    command: &CCompileCommand<I>,
) -> bool {
    let first = end_of(command.execute(creator)) == "process error";
    let second = end_of(command.execute(creator)) == "no child";
    first && second && creator.faults() == 1
}

/// Whether a shell's command passes all on to a creator.
fn passes_on(alloc: Global, creator: &mut MockCommandCreator) -> Result<bool, Fail> {
    let inner = shell(alloc, "cc")?;
    let told = is_shell(&inner);
    let command = CCompileCommand::new(inner);
    Ok(told && runs_once(creator, &command))
}

#[test]
fn passes_all_on(rt: HostRuntime) -> Result<(), Fail> {
    let mut creator = mocks_with(rt.alloc(), 256)?;
    assert!(rt; passes_on(rt.alloc(), &mut creator)?);
    Ok(())
}

/// Whether a creator without a child makes no command.
fn prepares_none(alloc: Global, creator: &mut MockCommandCreator) -> Result<bool, Fail> {
    let command = shell(alloc, "cc")?;
    Ok(prepare(creator, &command).is_err())
}

#[test]
fn prepares_no_command_without_a_child(rt: HostRuntime) -> Result<(), Fail> {
    let mut creator = mocks(rt.alloc())?;
    assert!(rt; prepares_none(rt.alloc(), &mut creator)?);
    Ok(())
}

/// Whether a run gave this output.
fn gave(answer: &RunAnswer, stdout: &[u8], stderr: &[u8]) -> bool {
    match answer {
        RunAnswer::Output(out) => {
            out.output.stdout.as_slice() == stdout && out.output.stderr.as_slice() == stderr
        }
        RunAnswer::ProcessError(_output) => false,
        RunAnswer::Fault(_chain) => false,
    }
}

/// Whether a shell that is run tells its one variable, no other, nothing to read, and its folder.
fn runs_shell<W: Workshop>(alloc: Global, shop: &mut W) -> Result<bool, Fail> {
    let key = Text::from_str(alloc, "key1")?;
    let command = shell(alloc, "cat; printf %s%s \"$A\" \"$HOME\"; pwd >&2")?;
    let answer = shop.run(alloc, &key, &command, &[])?;
    Ok(gave(&answer, b"1", b"/\n"))
}

#[test]
fn runs_a_real_child_with_its_variables_alone(rt: HostRuntime) -> Result<(), Fail> {
    let alloc = rt.alloc();
    let creator = ProcessCommandCreator::new(rt, alloc, &Client::new(alloc, 1)?)?;
    let mut shop = CommandWorkshop::new(creator, HostFiles::new(rt));
    assert!(rt; runs_shell(alloc, &mut shop)?);
    Ok(())
}
