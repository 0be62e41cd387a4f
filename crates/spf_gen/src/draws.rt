//! Numbers that look random.
ghost use Rattle.std.specs.Prelude.{ℕ, ◌≡◌, ◌+◌};
ghost use Rattle.spf_gen.specs.Draws.{draw};

/// The multiplier and the increment of Knuth's MMIX.
const MULTIPLIER: u64 = 6_364_136_223_846_793_005;

const INCREMENT: u64 = 1_442_695_040_888_963_407;

/// The draw after the one of so many steps.
pub(crate) fn next(drawn: u64) -> u64
    ensures { (start steps : ℕ) → drawn ≡ draw start steps → result ≡ draw start (steps + 1) }
{
    drawn.wrapping_mul(MULTIPLIER).wrapping_add(INCREMENT)
}
