ghost use Rattle.std.specs.Prelude.{◌≡◌, ◌<◌};
ghost use Rattle.case_maker.specs.Random.{drawn, next_random};

const MULTIPLIER: u64 = 6_364_136_223_846_793_005;

const INCREMENT: u64 = 1_442_695_040_888_963_407;

/// Draws a number below a bound from the high bits of a linear congruential generator of 64 bits.
pub fn draw(state: &mut u64, below: u64) -> u64
    requires { 0 < below }
    ensures state { state.new ≡ next_random state.old }
    ensures value { result ≡ drawn state.old below }
    ensures below { result < below }
{
    *state = state.wrapping_mul(MULTIPLIER).wrapping_add(INCREMENT);
    (*state >> 33) % below
}
