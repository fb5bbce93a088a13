//! What holds of all that good scripts say.
ghost use Rattle.std.specs.Prelude.{◌≡◌, ℕ, List, Some};
ghost use Rattle.sc_main_script.specs.Goods.{IsGood};
ghost use Rattle.sc_main_script.specs.Scripts.{script_of};
ghost use Rattle.sc_main_script.specs.declared.script.Script.{Script};

/// A daemon can be made of what a good script says.
pub fn read_scripts_are_good()
    ensures { (bytes : List ℕ) (s : Script) → script_of bytes ≡ Some s → IsGood s }
{}
