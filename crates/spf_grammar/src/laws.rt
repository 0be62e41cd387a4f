//! What holds of every list of flat terms, and of every record. The functions do nothing: what they promise is the law.
ghost use Rattle.spf_grammar.specs.Families.{FirstIsSeen};
ghost use Rattle.spf_grammar.specs.Laws.{OnePolicy, WrittenSpells};

/// Each family alone decides for its addresses: the first term that has an address is the first of those which the
/// address's family sees.
pub fn first_of_each_family()
    ensures { FirstIsSeen }
{}

/// A text spells at most one policy.
pub fn one_policy()
    ensures { OnePolicy }
{}

/// The written form of a policy, which some text spells, spells it.
pub fn written_policy()
    ensures { WrittenSpells }
{}
