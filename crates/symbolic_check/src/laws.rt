//! What holds of every evaluation. The function does nothing: what it promises is the law.
ghost use Rattle.symbolic_check.specs.Laws.{RestsOnAsked};

/// The questions of an evaluation decide it: over other zones that answer them alike, every address has the same
/// outcome, and the same questions are asked.
pub fn rests_on_asked()
    ensures { RestsOnAsked }
{}
