//! How strong a verdict is.
ghost use Rattle.std.specs.Prelude.{◌≡◌};
ghost use Rattle.policy_join.specs.Strength as strength;

use spf_grammar::Verdict;

/// The stronger of two verdicts. From the strongest these are pass, neutral, softfail and fail: the project's own
/// order.
pub fn strongest(a: Verdict, b: Verdict) -> Verdict
    ensures { result ≡ strength.strongest a b }
{
    if strength_of(a) < strength_of(b) {
        return b;
    }
    a
}

/// The weaker of two verdicts.
pub fn weakest(a: Verdict, b: Verdict) -> Verdict
    ensures { result ≡ strength.weakest a b }
{
    if strength_of(b) < strength_of(a) {
        return b;
    }
    a
}

/// The stronger of two verdicts, or the weaker.
pub(crate) fn choose(weak: bool, a: Verdict, b: Verdict) -> Verdict
    ensures { result ≡ strength.chosen weak a b }
{
    if weak {
        return weakest(a, b);
    }
    strongest(a, b)
}

/// The verdict than which none is weaker, or the one than which none is stronger.
pub(crate) fn of_none(weak: bool) -> Verdict
    ensures { result ≡ strength.of_none weak }
{
    if weak {
        return Verdict::Pass;
    }
    Verdict::Fail
}

/// The place of a verdict in the order, from the weakest.
fn strength_of(verdict: Verdict) -> u8
    ensures { result ≡ strength.strength verdict }
{
    match verdict {
        Verdict::Pass => 3,
        Verdict::Neutral => 2,
        Verdict::SoftFail => 1,
        Verdict::Fail => 0,
    }
}
