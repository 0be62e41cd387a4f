//! What holds of every first-match list, and of the chosen one.
ghost use Rattle.fewest_terms.specs.Needs.{MixedIsExact, NoListSpendsLess, NeedIsSmall};
ghost use Rattle.fewest_terms.specs.Totals.{NoListIsShorter};
ghost use Rattle.fewest_terms.specs.Chosen.{ChosenIsSame, ChosenIsShortest};

/// The test for a mixed prefix is exact.
pub fn mixed_is_exact()
    ensures { MixedIsExact }
{}

/// No list spends less at or below a prefix than the prefix needs.
pub fn no_list_spends_less()
    ensures { NoListSpendsLess }
{}

/// A prefix needs at most one term more than it has mixed prefixes.
pub fn need_is_small()
    ensures { NeedIsSmall }
{}

/// No list with the same verdicts is shorter than the total: in any order, with any mixture of families and any
/// number of `all`.
pub fn no_list_is_shorter()
    ensures { NoListIsShorter }
{}

/// The chosen list gives the verdicts, and has as many terms as the total.
pub fn chosen_is_shortest()
    ensures same { ChosenIsSame }
    ensures shortest { ChosenIsShortest }
{}
