//! How many terms a prefix needs.
ghost use Rattle.std.specs.Prelude.{◌≡◌, ◌+◌, ◌^◌, ◌<◌};
ghost use Rattle.spf_grammar.specs.declared.verdict.Verdict.{Verdict};
ghost use Rattle.fewest_terms.specs.Verdicts.{cost, least as least_of};
ghost use Rattle.fewest_terms.specs.Needs.{at_mixed};
ghost use Rattle.fewest_terms.specs.Tables.{number as number_of};
ghost use Rattle.fewest_terms.specs.Totals.{least_with_all, verdict_of_all};
ghost use Rattle.fewest_terms.specs.Chosen.{best as best_of};
ghost use Rattle.fewest_terms.specs.Leaves.{passed_down as verdict_passed_down};

use spf_grammar::Verdict;

/// How many terms a prefix needs, by the verdict that its addresses have otherwise.
#[derive(Clone, Copy, PartialEq, Eq, Debug)]
pub struct Needs {
    /// Where they have `fail`.
    pub fail: u64,
    /// Where they have `softfail`.
    pub softfail: u64,
    /// Where they have `pass`.
    pub pass: u64,
    /// Where they have `neutral`.
    pub neutral: u64,
}

impl Needs {
    /// What a prefix needs whose addresses all have this verdict: one term, and none where they have it already.
    #[tactic(auto, unfolding(crate::specs::Verdicts::cost))]
    pub fn of_one(verdict: Verdict) -> Needs
        ensures { (c : Verdict) → number_of result c ≡ cost verdict c }
    {
        let all = Needs {
            fail: 1,
            softfail: 1,
            pass: 1,
            neutral: 1,
        };
        match verdict {
            Verdict::Fail => Needs { fail: 0, ..all },
            Verdict::SoftFail => Needs { softfail: 0, ..all },
            Verdict::Pass => Needs { pass: 0, ..all },
            Verdict::Neutral => Needs { neutral: 0, ..all },
        }
    }

    /// How many terms are needed where the addresses have this verdict otherwise.
    pub(crate) fn number(self, verdict: Verdict) -> u64
        ensures { result ≡ number_of self verdict }
    {
        match verdict {
            Verdict::Fail => self.fail,
            Verdict::SoftFail => self.softfail,
            Verdict::Pass => self.pass,
            Verdict::Neutral => self.neutral,
        }
    }

    /// What both need together.
    pub fn plus(self, other: Needs) -> Needs
        requires { (c : Verdict) → number_of self c + number_of other c < 2 ^ 64 }
        ensures { (c : Verdict) → number_of result c ≡ number_of self c + number_of other c }
    {
        Needs {
            fail: self.fail + other.fail,
            softfail: self.softfail + other.softfail,
            pass: self.pass + other.pass,
            neutral: self.neutral + other.neutral,
        }
    }

    /// The least of the four numbers.
    #[tactic(auto, unfolding(crate::specs::Verdicts::least))]
    fn least(self) -> u64
        ensures { result ≡ least_of (number_of self) }
    {
        self.fail
            .min(self.softfail)
            .min(self.pass.min(self.neutral))
    }

    /// What a mixed prefix needs, where this is what its halves need together: a term for the prefix itself, after
    /// those of its halves, can give them another verdict to begin with.
    pub fn under_rule(self) -> Needs
        ensures { (c : Verdict) → number_of result c ≡ at_mixed (number_of self) c }
    {
        let fresh = self.least().saturating_add(1);
        Needs {
            fail: self.fail.min(fresh),
            softfail: self.softfail.min(fresh),
            pass: self.pass.min(fresh),
            neutral: self.neutral.min(fresh),
        }
    }

    /// The first verdict of the least number, in the order of the fields.
    #[tactic(auto, unfolding(crate::specs::Chosen::best))]
    fn best(self) -> Verdict
        ensures { result ≡ best_of (number_of self) }
    {
        let least = self.least();
        if self.fail == least {
            return Verdict::Fail;
        }
        if self.softfail == least {
            return Verdict::SoftFail;
        }
        if self.pass == least {
            return Verdict::Pass;
        }
        Verdict::Neutral
    }

    /// The verdict that the halves of a mixed prefix have otherwise, where this is what they need together and the
    /// prefix has a verdict otherwise: that one, unless a term for the prefix itself saves more than it costs.
    pub(crate) fn passed_down(self, had: Verdict) -> Verdict
        ensures { result ≡ verdict_passed_down (number_of self) had }
    {
        if self.number(had) <= self.least().saturating_add(1) {
            return had;
        }
        self.best()
    }

    /// The least number of terms of a list, where this is what all addresses need: `all` is one term more.
    #[tactic(auto, unfolding(crate::specs::Totals::least_with_all))]
    pub fn total(self) -> u64
        ensures { result ≡ least_with_all (number_of self) }
    {
        let fail = self.fail.saturating_add(1);
        let softfail = self.softfail.saturating_add(1);
        let pass = self.pass.saturating_add(1);
        self.neutral.min(fail.min(softfail.min(pass)))
    }

    /// The verdict of `all` in a shortest list, where this is what all addresses need, and neutral for no `all`.
    #[tactic(auto, unfolding(crate::specs::Totals::verdict_of_all, crate::specs::Totals::least_with_all))]
    pub(crate) fn verdict_of_all(self) -> Verdict
        ensures { result ≡ verdict_of_all (number_of self) }
    {
        let total = self.total();
        if self.neutral == total {
            return Verdict::Neutral;
        }
        if self.fail.saturating_add(1) == total {
            return Verdict::Fail;
        }
        if self.softfail.saturating_add(1) == total {
            return Verdict::SoftFail;
        }
        Verdict::Pass
    }
}
