//! What holds of all drawn scripts.
ghost use Rattle.std.specs.Prelude.{◌≡◌, ◌+◌, ◌*◌, ℕ, length};
ghost use Rattle.sc_main_drawn.specs.Drawn.{drawn_script};
ghost use Rattle.sc_main_script.specs.Goods.{IsGood};

/// A daemon can be made of what a drawn script says. It has 220 steps for each compile, and the four reads: for 2,000 compiles
/// 440,004.
pub fn drawn_scripts_are_good()
    ensures good { (number : ℕ) → IsGood (drawn_script number) }
    ensures few { (number : ℕ) → length (drawn_script number).steps ≡ 220 * number + 4 }
{}
