//! Laws of trials. The functions do nothing: what they promise is the law.
ghost use Rattle.policy_trial.specs.Trial.{OneTrial};
ghost use Rattle.policy_trial.specs.Verdicts.{TrialsHaveVerdicts};

/// A trial comes to one thing at most.
pub fn one_trial()
    ensures { OneTrial }
{}

/// The bytes of a zone of up to 10,000 networks have a reading, which may be lent, and over this zone check_host
/// (RFC 7208, section 4) gives each address the verdict of the records that the one at the top includes.
pub fn trials_have_verdicts()
    ensures { TrialsHaveVerdicts }
{}
