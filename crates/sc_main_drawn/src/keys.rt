//! The keys of a drawn script: what runs under them, and what asks for them.
ghost use Rattle.std.specs.Prelude.{◌≡◌, ◌++◌, ◌∷◌, [], IfOk, OnOk};
ghost use Rattle.sc_main_drawn.specs.Keys as keys;

use sc_entry::{ByteText, Items, NoMemory, Object, Text};
use sc_main_script::RunRule;
use sc_model::{Compile, Objects, Output, Request, RunAnswer, RunOutput, Status};
use std::alloc::Global;

/// The three digits of a key's number, which is below a hundred.
fn digits(alloc: Global, number: u64) -> Result<ByteText, NoMemory>
    ensures { IfOk result (λ bytes. bytes ≡ keys.digits number) }
{
    let (tens, ones) = (number / 10, number % 10);
    let text = format!(in alloc; "0{tens}{ones}")?;
    Ok(ByteText::from_vec(text.into_bytes()))
}

/// The key of this number.
fn key(alloc: Global, number: u64) -> Result<Text, NoMemory>
    ensures { IfOk result (λ key. key ≡ keys.key number) }
{
    let (tens, ones) = (number / 10, number % 10);
    let text = format!(in alloc; "k0{tens}{ones}")?;
    Ok(Text::from_string(text))
}

/// The one object that runs under a key leave.
fn objects(alloc: Global, number: u64) -> Result<Items<Object>, NoMemory>
    ensures { IfOk result (λ objects. objects ≡ keys.object number ∷ []) }
{
    let name = Text::from_str(alloc, "obj")?;
    let bytes = digits(alloc, number)?;
    let mut objects = Items::new(alloc);
    objects.push(Object {
        name,
        mode: None,
        bytes,
    })?;
    Ok(objects)
}

/// What runs under the key of this number answer.
pub fn run(alloc: Global, number: u64) -> Result<RunRule, NoMemory>
    ensures { IfOk result (λ rule. rule ≡ keys.run number) }
{
    let key = key(alloc, number)?;
    let output = Output {
        status: Status::Code(0),
        stdout: digits(alloc, number)?,
        stderr: ByteText::new(alloc),
    };
    let objects = Objects::Collected(objects(alloc, number)?);
    Ok(RunRule {
        key,
        answer: RunAnswer::Output(RunOutput { output, objects }),
    })
}

fn push_word(alloc: Global, words: &mut Items<ByteText>, word: &[u8]) -> Result<(), NoMemory>
    ensures { OnOk result (words.new ≡ words.old ++ word.now ∷ []) }
{
    words.push(ByteText::from_slice(alloc, word)?)?;
    Ok(())
}

/// The words of a compile under the key of this number.
fn words(alloc: Global, number: u64) -> Result<Items<ByteText>, NoMemory>
    ensures { IfOk result (λ words. words ≡ keys.words number) }
{
    let key = key(alloc, number)?;
    let mut words = Items::new(alloc);
    push_word(alloc, &mut words, b"--key")?;
    push_word(alloc, &mut words, key.as_bytes())?;
    push_word(alloc, &mut words, b"--out")?;
    push_word(alloc, &mut words, b"obj=/o")?;
    push_word(alloc, &mut words, b"--")?;
    push_word(alloc, &mut words, b"a.c")?;
    Ok(words)
}

/// A compile under the key of this number.
pub fn compile(alloc: Global, number: u64) -> Result<Request, NoMemory>
    ensures { IfOk result (λ request. request ≡ keys.compile number) }
{
    let exe = ByteText::from_slice(alloc, b"/cc")?;
    let cwd = ByteText::from_slice(alloc, b"/")?;
    let args = words(alloc, number)?;
    Ok(Request::Compile(Compile {
        exe,
        cwd,
        args,
        env_vars: Items::new(alloc),
    }))
}
