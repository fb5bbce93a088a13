//! What a run's outputs hold.
ghost use Rattle.std.specs.Prelude.{◌≡◌, ◌≤◌, IfOk};
ghost use Rattle.sc_command_workshop.specs.Collecting.{Collects, TakesOutput};

use crate::texts::unread;
use sc_entry::{FileError, FileObjectSource, Files, Items, NoMemory, Object};
use sc_model::Objects;
use std::alloc::Global;

/// Adds an object of what stands at an output's path, and tells whether that is done, or needn't be.
fn take_output<F: Files>(
    files: &mut F,
    objects: &mut Items<Object>,
    output: &FileObjectSource,
) -> Result<bool, NoMemory>
    ensures step { IfOk result (TakesOutput (F.held files.old) output.now objects.old objects.new (F.fault_count files.old) (F.fault_count files.new)) }
    ensures same { F.held files.new ≡ F.held files.old }
    ensures later { F.fault_count files.old ≤ F.fault_count files.new }
{
    match files.read(&output.path) {
        Ok(content) => {
            let name = output.key.try_clone()?;
            objects.push(Object {
                name,
                mode: content.mode,
                bytes: content.bytes,
            })?;
            Ok(true)
        }
        Err(FileError::NoMemory) => Err(NoMemory),
        Err(FileError::FileFault) => Ok(output.optional),
    }
}

/// The objects of what stands at the outputs' paths, in their order, or why there are none: a required one wasn't read.
pub(crate) fn collect<F: Files>(
    alloc: Global,
    files: &mut F,
    outputs: &[FileObjectSource],
) -> Result<Objects, NoMemory>
    ensures collects { IfOk result (Collects (F.held files.old) outputs.now (F.fault_count files.old) (F.fault_count files.new)) }
    ensures same { F.held files.new ≡ F.held files.old }
    ensures later { F.fault_count files.old ≤ F.fault_count files.new }
{
    let mut objects = Items::new(alloc);
    for output in outputs {
        if !take_output(files, &mut objects, output)? {
            let chain = unread(alloc, &output.key)?;
            return Ok(Objects::Broken(chain));
        }
    }
    Ok(Objects::Collected(objects))
}
