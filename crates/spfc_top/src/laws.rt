//! What holds of the program's jobs. The functions do nothing: what they promise is the law.
ghost use Rattle.jobs.specs.Given.{OneIsDue};
ghost use Rattle.jobs.specs.Meaning.{OneJob};
ghost use Rattle.spfc_top.specs.AnyJob.{jobs};

use crate::AnyJob;

/// Words spell at most one job.
pub fn one_job()
    ensures { OneJob jobs }
{}

/// For the same words and the same contents one thing is due at most: one line, or one output.
pub fn one_is_due()
    ensures { OneIsDue jobs }
{
    jobs::one_is_due::<AnyJob>();
}
