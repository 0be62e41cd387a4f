//! The row rule.
ghost use Rattle.std.specs.Prelude.{◌+◌, ◌^◌, ◌<◌, ◌≤◌, ◌↔◌, IsTrue};
ghost use Rattle.spf_grammar.specs.declared.verdict.Verdict.{Verdict};
ghost use Rattle.fewest_terms.specs.Needs.{at_mixed};
ghost use Rattle.fewest_terms.specs.Tables.{number};

use fewest_terms::Needs;

/// Whether no number of a row is above its fellow.
fn is_at_most(row: &Needs, most: &Needs) -> bool
    ensures { IsTrue result ↔ ((c : Verdict) → number row.now c ≤ number most.now c) }
{
    if most.fail < row.fail {
        return false;
    }
    if most.softfail < row.softfail {
        return false;
    }
    if most.pass < row.pass {
        return false;
    }
    row.neutral <= most.neutral
}

/// Whether a row keeps the row rule, with what stands for the halves of its prefix: each number is at most what the
/// rule for a mixed prefix makes of what the halves need together.
pub fn check_row(row: &Needs, low: &Needs, high: &Needs) -> bool
    requires low { (c : Verdict) → number low.now c < 2 ^ 32 }
    requires high { (c : Verdict) → number high.now c < 2 ^ 32 }
    ensures { IsTrue result ↔ ((c : Verdict) → number row.now c ≤ at_mixed
        (λ x. number low.now x + number high.now x) c) }
{
    is_at_most(row, &low.plus(*high).under_rule())
}
