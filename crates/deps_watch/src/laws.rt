//! Laws over the definitions. The functions do nothing: their contracts say the law.
ghost use Rattle.deps_watch.specs.Laws.{FreshKeeps, KeepsWell, OneWatch};

/// Zones and a domain have one kept list, and lines have one answer.
pub fn one_watch()
    ensures { OneWatch }
{}

/// What was kept over some zones is read as it was kept; and where other zones find it fresh, each address has the same
/// outcome of check_host (RFC 7208, section 4) over both.
pub fn fresh_keeps()
    ensures { FreshKeeps }
{}

/// What is kept over some zones is read as it was kept, and each of its lines agrees with them. Where each agrees with
/// other zones too, each address has the same outcome of check_host (RFC 7208, section 4) over both.
pub fn keeps_well()
    ensures { KeepsWell }
{}
