//! Laws of the verdicts of a policy. The functions do nothing: what they promise is the law.
ghost use Rattle.policy_verdicts.specs.Laws.{NeverBoth, OneListAsked, OneRefused, OneVerdict};

/// One address at most is the least to which check_host gives no verdict, with one outcome.
pub fn one_refused()
    ensures { OneRefused }
{}

/// Where some address has no verdict, no verdicts of all addresses are those of check_host.
pub fn never_both()
    ensures { NeverBoth }
{}

/// Verdicts of all addresses that are those of check_host agree at each address.
pub fn one_verdict()
    ensures { OneVerdict }
{}

/// One list at most has the questions that are asked.
pub fn one_list_asked()
    ensures { OneListAsked }
{}
