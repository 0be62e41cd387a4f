//! Laws over the definitions. The function does nothing: its contract says the law.
ghost use Rattle.master_reader.specs.Laws.{OneAnswer};

/// A file has one reading or one first fault: one of each at most, not both, and never neither (RFC 1035, section 5.1).
pub fn one_answer()
    ensures { OneAnswer }
{}
