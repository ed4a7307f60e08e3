//! Numbers drawn from a state, the same each time.

ghost use Rattle.std.specs.Prelude.{◌≡◌, ◌≤◌};
ghost use Rattle.cable_definitions.specs.Drill.{next_state, draw};

/// The state of the generator after a draw: a linear congruential generator modulo 2^64 with Knuth's constants for MMIX.
fn next_state(state: u64) -> u64
    ensures { result ≡ next_state state }
{
    state
        .wrapping_mul(6_364_136_223_846_793_005)
        .wrapping_add(1_442_695_040_888_963_407)
}

/// Draws a number below this one, by the upper 31 bits of the next state.
pub(crate) fn draw(state: &mut u64, below: u64) -> u64
    requires { 1 ≤ below }
    ensures answer { result ≡ draw below state.old }
    ensures next { state.new ≡ next_state state.old }
{
    *state = next_state(*state);
    (*state >> 33) % below
}
