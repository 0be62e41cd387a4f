//! Laws of strength. The functions do nothing: what they promise is the law.
ghost use Rattle.policy_join.specs.Laws.{InAnyOrder, IsAssociative, IsCommutative, IsIdempotent, OneOfAll};
ghost use Rattle.policy_join.specs.Strength as strength;

/// The stronger of verdicts does not depend on how they are grouped and ordered, and is the verdict itself of one
/// alone.
pub fn strongest_is_lawful()
    ensures associative { IsAssociative strength.strongest }
    ensures commutative { IsCommutative strength.strongest }
    ensures idempotent { IsIdempotent strength.strongest }
{}

/// The weaker of verdicts does not depend on how they are grouped and ordered, and is the verdict itself of one
/// alone.
pub fn weakest_is_lawful()
    ensures associative { IsAssociative strength.weakest }
    ensures commutative { IsCommutative strength.weakest }
    ensures idempotent { IsIdempotent strength.weakest }
{}

/// The strongest of verdicts is one of them, and none of them is stronger; so too the weakest.
pub fn one_of_all()
    ensures { OneOfAll }
{}

/// The strongest of verdicts is the same for each list with the same members: it does not depend on their order, nor on
/// how often one stands there. So too the weakest.
pub fn in_any_order()
    ensures { InAnyOrder }
{}
