//! The last reply of a compile.
ghost use Rattle.std.specs.Prelude.{◌≡◌, ◌++◌, [], pos, negsuc, codes, IfOk};
ghost use Rattle.sc_entry.specs.Entries.{objects};
ghost use Rattle.sc_model.specs.Finishing.{caused_by, first_text, fatal_text as text_of_fault, retcode, signal, stored_bytes};

use sc_entry::{ByteText, CacheRead, NoMemory, ReadEntryError, Text};
use sc_model::{ColorMode, CompileFinished, Output, Status};
use std::alloc::Global;

fn retcode_of(status: Status) -> Option<i32>
    ensures { result ≡ retcode status }
{
    match status {
        Status::Code(code) => Some(code as i32),
        Status::Signal(_) => None,
        Status::Neither => None,
    }
}

fn signal_of(status: Status) -> Option<i32>
    ensures { result ≡ signal status }
{
    match status {
        Status::Signal(number) => Some(number as i32),
        Status::Code(_) => None,
        Status::Neither => None,
    }
}

/// A run's own status and streams.
pub fn finish_output(color: ColorMode, out: &Output) -> Result<CompileFinished, NoMemory>
    ensures { IfOk result (λ f. f ≡ record {
      retcode = retcode out.now.status;
      signal = signal out.now.status;
      stdout = out.now.stdout;
      stderr = out.now.stderr;
      color_mode = color;
    }) }
{
    Ok(CompileFinished {
        retcode: retcode_of(out.status),
        signal: signal_of(out.status),
        stdout: out.stdout.try_clone()?,
        stderr: out.stderr.try_clone()?,
        color_mode: color,
    })
}

/// Adds a line for each text of a fault's chain.
fn append_causes(out: &mut ByteText, chain: &[Text]) -> Result<(), NoMemory>
    ensures { IfOk result (λ _. out.new ≡ out.old ++ caused_by chain.now) }
{
    for text in chain {
        out.append(b"sccache: caused by: ")?;
        out.append(text.as_bytes())?;
        out.push(b'\n')?;
    }
    Ok(())
}

fn append_first(out: &mut ByteText, chain: &[Text]) -> Result<(), NoMemory>
    ensures { IfOk result (λ _. out.new ≡ out.old ++ first_text chain.now) }
{
    if let [first, ..] = chain {
        out.append(first.as_bytes())?;
    }
    Ok(())
}

/// What is printed of a fault: its first text, and each text as a cause, the first again.
pub fn fatal_text(alloc: Global, chain: &[Text]) -> Result<ByteText, NoMemory>
    ensures { IfOk result (λ text. text ≡ text_of_fault chain.now) }
{
    let mut out = ByteText::new(alloc);
    out.append(b"sccache: encountered fatal error")?;
    out.append(b"\nsccache: error: ")?;
    append_first(&mut out, chain)?;
    out.push(b'\n')?;
    append_causes(&mut out, chain)?;
    Ok(out)
}

/// A fault's text, under the return code -2.
pub fn finish_fatal(
    alloc: Global,
    color: ColorMode,
    chain: &[Text],
) -> Result<CompileFinished, NoMemory>
    ensures { IfOk result (λ f. f ≡ record {
      retcode = Some (negsuc 1);
      signal = None;
      stdout = [];
      stderr = text_of_fault chain.now;
      color_mode = color;
    }) }
{
    Ok(CompileFinished {
        retcode: Some(-2),
        signal: None,
        stdout: ByteText::new(alloc),
        stderr: fatal_text(alloc, chain)?,
        color_mode: color,
    })
}

/// What is printed of a job that a server refused, of this first output.
fn http_text(alloc: Global, pretty: &[u8], text: &Text) -> Result<ByteText, NoMemory>
    ensures { IfOk result (λ out. out ≡ codes "[\"" ++ pretty.now ++ codes "\"] http error status: " ++ text.now) }
{
    let mut out = ByteText::new(alloc);
    out.append(b"[\"")?;
    out.append(pretty)?;
    out.append(b"\"] http error status: ")?;
    out.append(text.as_bytes())?;
    Ok(out)
}

/// A server's refusal of a job, under the return code 1.
pub fn finish_http(
    alloc: Global,
    color: ColorMode,
    pretty: &[u8],
    text: &Text,
) -> Result<CompileFinished, NoMemory>
    ensures { IfOk result (λ f. f ≡ record {
      retcode = Some (pos 1);
      signal = None;
      stdout = [];
      stderr = codes "[\"" ++ pretty.now ++ codes "\"] http error status: " ++ text.now;
      color_mode = color;
    }) }
{
    Ok(CompileFinished {
        retcode: Some(1),
        signal: None,
        stdout: ByteText::new(alloc),
        stderr: http_text(alloc, pretty, text)?,
        color_mode: color,
    })
}

/// What a hit's entry holds, under the return code 0.
pub fn finish_hit(
    alloc: Global,
    color: ColorMode,
    entry: ByteText,
) -> Result<CompileFinished, NoMemory>
    ensures { IfOk result (λ f. f ≡ record {
      retcode = Some (pos 0);
      signal = None;
      stdout = stored_bytes (objects entry) (codes "stdout");
      stderr = stored_bytes (objects entry) (codes "stderr");
      color_mode = color;
    }) }
{
    match CacheRead::from(alloc, entry) {
        Ok(read) => {
            Ok(CompileFinished {
                retcode: Some(0),
                signal: None,
                stdout: ByteText::from_slice(alloc, read.get_stdout())?,
                stderr: ByteText::from_slice(alloc, read.get_stderr())?,
                color_mode: color,
            })
        }
        Err(ReadEntryError::BadEntry) => {
            Ok(CompileFinished {
                retcode: Some(0),
                signal: None,
                stdout: ByteText::new(alloc),
                stderr: ByteText::new(alloc),
                color_mode: color,
            })
        }
        Err(ReadEntryError::NoMemory) => Err(NoMemory),
    }
}
