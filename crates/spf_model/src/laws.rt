//! What holds of every evaluation. The functions do nothing: what they promise is the law.
ghost use Rattle.spf_model.specs.Laws.{ChainsGiveFirst, DepthSuffices, OneEnd, RestsOnItsQuestions, SaidAlike};

/// An evaluation has one list of questions, in one order, and one outcome with its counts, and none has none (RFC 7208,
/// section 4).
pub fn one_end()
    ensures { OneEnd }
{}

/// An evaluation rests on the answers to its own questions alone, and so do its questions.
pub fn rests_on_its_questions()
    ensures { RestsOnItsQuestions }
{}

/// Where records may be nested deeper than the lookups that are left, more depth changes nothing.
pub fn depth_suffices()
    ensures { DepthSuffices }
{}

/// A chain of flat records, at most one more than the limit on lookups, gives every address the verdict of the first of
/// all its terms that has it, with fewer lookups than records and no void (RFC 7208, section 6.1).
pub fn chains_give_first()
    ensures { ChainsGiveFirst }
{}

/// Two lists of zones answer a question alike for every address where its answers are the same, and one at reversed
/// names where the classes at all of them are.
pub fn said_alike()
    ensures { SaidAlike }
{}
