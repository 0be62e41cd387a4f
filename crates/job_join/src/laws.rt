//! Laws of the job. The function does nothing: what it promises is the law.
ghost use Rattle.job_join.specs.Verdicts.{InAnyOrder};

/// The one policy does not depend on the order of the domains.
pub fn in_any_order()
    ensures { InAnyOrder }
{}
