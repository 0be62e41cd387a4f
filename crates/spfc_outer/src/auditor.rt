//! Listeners, which are told questions.
ghost use Rattle.std.specs.Prelude.{◌≡◌, IfOk, OnErr};
ghost use Rattle.spfc_outer.specs.Auditors.{AuditorSeen, HasHeard};

use std::alloc::AllocError;
use zone_answers::Question;

/// Whether a listener goes on.
#[derive(Clone, Copy, Debug, PartialEq, Eq)]
pub enum Keep {
    /// It goes on.
    Go,
    /// It has heard enough.
    Done,
}

/// A listener, which is told questions one by one.
pub trait Auditor: Drop {
    /// What is seen from outside: when it says that it is done, how many questions it took, and those that it heard,
    /// where it tells them.
    ghost hears: { Self → AuditorSeen };

    /// Tells it a question. `Done` comes exactly where its count comes to the stop that it tells, if it tells one.
    /// After `AllocError` all that is seen is as it was.
    fn tell(&mut self, question: &Question) -> Result<Keep, AllocError>
        ensures heard { IfOk result (HasHeard (hears self.old) question.now (hears self.new)) }
        ensures unheard { OnErr result (hears self.new ≡ hears self.old) };
}
