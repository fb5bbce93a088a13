//! What holds of every reading.

ghost use Rattle.std.specs.Prelude.{◌≡◌, [], true};
ghost use Rattle.sc_model.specs.declared.message.Compile.{Compile};
ghost use Rattle.sc_compile.specs.OutputNames.{are_outputs};
ghost use Rattle.sc_compile.specs.Plain.{plain_key};

/// The outputs that a compile's words name are at most 65,532, with distinct names of 1 to 65,535 bytes of UTF-8, none
/// `stdout` or `stderr`.
pub fn plain_outputs_are_named()
    ensures { (c : Compile) → are_outputs [] (plain_key c).outputs ≡ true }
{}
