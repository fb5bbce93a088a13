ghost use Rattle.std.specs.Prelude.{◌≡◌, ℕ, List};
ghost use Rattle.std.specs.Borrow.{Bor};

use crate::mock_child::MockChild;
use sc_command::SpawnError;
use sc_entry::ByteText;

/// What a caller boxes: a child, or a refusal, for the arguments of a command.
pub type Call = Box<dyn Fn(&[ByteText]) -> Result<MockChild, SpawnError> + Send>;

/// A boxed call that may be made with any arguments.
#[derive(Drop)]
pub struct ChildCall {
    function: Call,
    pub ghost callable: { Call.IsAlwaysCallable function },
}

impl ChildCall {
    pub fn new(function: Call) -> ChildCall
        requires { Call.IsAlwaysCallable function }
        ensures { result.function ≡ function }
    {
        ChildCall { function }
    }

    /// Calls it.
    pub fn call(&self, words: &[ByteText]) -> Result<MockChild, SpawnError>
        ensures { (p : Bor (List (List ℕ))) × (p.now ≡ words.now) × Call.post self.now.function p result }
    {
        (self.function)(words)
    }
}
