//! What holds of all jobs. The function does nothing: what it promises is the law.
ghost use Rattle.jobs.specs.Meaning.{program};
ghost use Rattle.jobs.specs.Given.{OneIsDue};

use crate::Job;

/// For the same words and the same contents one thing is due at most: one line, or one output.
pub fn one_is_due<J: Job>()
    ensures { OneIsDue (program J.spells J.meaning) }
{}
