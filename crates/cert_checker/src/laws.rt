//! What holds of every certificate. The functions do nothing: what they promise is the law.
ghost use Rattle.cert_checker.specs.Laws.{NoReasonBesideYes, OneReason, OneYes};
ghost use Rattle.cert_checker.specs.Published.{PublishedHasNoReason, PublishedIsCertified};

/// Beside want of memory one reason at most is the first that holds.
pub fn one_reason()
    ensures { OneReason }
{}

/// Of a fragment that is accepted no reason holds.
pub fn no_reason_beside_yes()
    ensures { NoReasonBesideYes }
{}

/// A fragment is accepted with one number of terms and one of records.
pub fn one_yes()
    ensures { OneYes }
{}

/// What was published of a policy is certified, with its own numbers of terms and of records, and no reason holds of
/// it: over the same zones, under the same limits and for the same size.
pub fn published_is_certified()
    ensures certified { PublishedIsCertified }
    ensures reason { PublishedHasNoReason }
{}
