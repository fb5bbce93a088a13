//! What holds of all that scripts of warm say.
ghost use Rattle.std.specs.Prelude.{◌≡◌, ℕ, true, List, Ok};
ghost use Rattle.sc_main_script.specs.Goods.{are_store_keys};
ghost use Rattle.sc_main_warm.specs.Texts.{warm_said};
ghost use Rattle.sc_main_warm.specs.declared.warm_script.WarmScript.{WarmScript};

/// Both levels of a script of warm hold store keys alone, so they can be made.
pub fn warmed_levels_hold_store_keys()
    ensures from { (bytes : List ℕ) (w : WarmScript) → warm_said bytes ≡ Ok w → are_store_keys w.from.holds ≡ true }
    ensures to { (bytes : List ℕ) (w : WarmScript) → warm_said bytes ≡ Ok w → are_store_keys w.to.holds ≡ true }
{}
