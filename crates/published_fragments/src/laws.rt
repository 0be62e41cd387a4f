//! What holds of all published fragments. The function does nothing: what it promises is the law.
ghost use Rattle.published_fragments.specs.Accepted.{DueHasNoReason, DueIsCertified};

/// For legal settings a fragment that is due for the policy of a domain is certified, over the same zones, under the
/// same limits and for the same size, and no reason holds of it but want of memory.
pub fn due_is_certified()
    ensures certified { DueIsCertified }
    ensures reason { DueHasNoReason }
{}
