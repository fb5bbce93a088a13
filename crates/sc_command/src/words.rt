ghost use Rattle.std.specs.Prelude.{◌≡◌, ◌++◌, OnOk, OnErr};
ghost use Rattle.sc_command.specs.Settings.{AddsFirst};

use sc_entry::{ByteText, Items, NoMemory};

/// Adds copies of words at the end of a list. Where memory runs out, the first of them may stand there.
pub fn append_words(all: &mut Items<ByteText>, words: &[ByteText]) -> Result<(), NoMemory>
    ensures ok { OnOk result (all.new ≡ all.old ++ words.now) }
    ensures err { OnErr result (AddsFirst words.now all.old all.new) }
{
    for word in words {
        all.push(word.try_clone()?)?;
    }
    Ok(())
}
