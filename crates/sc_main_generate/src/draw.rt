//! Numbers that are drawn one after another.
ghost use Rattle.std.specs.Prelude.{◌≡◌, ◌<◌};
ghost use Rattle.sc_main_generate.specs.Draws as draws;

/// A state is below this.
const STATES: u64 = 2_147_483_648;

/// The state that a draw leaves. The first state is the script's number.
pub fn next(state: u64) -> u64
    requires { state < 2147483648 }
    ensures value { result ≡ draws.next state }
    ensures small { result < 2147483648 }
{
    (1_103_515_245 * state + 12_345) % STATES
}

/// What a draw gave that left this state: a number below 32,768.
pub fn drawn(state: u64) -> u64
    ensures { result ≡ draws.drawn state }
{
    state / 65_536
}
