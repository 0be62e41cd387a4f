//! A listener without memory for one question, for tests.
ghost use Rattle.std.specs.Prelude.{◌≡◌};

use crate::{Auditor, Keep, KeepAuditor};
use std::alloc::{AllocError, Global};
use zone_answers::Question;

/// A listener that keeps each question, and answers that there is no memory as long as its count is a number.
#[derive(Drop)]
pub struct TightAuditor {
    keep: KeepAuditor,
    refuse: u64,
}

impl TightAuditor {
    ghost use Rattle.spfc_outer.specs.KeepAuditor.{new_seen, refused_at, tight_seen};

    /// A listener that heard nothing, is done as its count comes to the limit, if there is one, and refuses each
    /// question while its count is `refuse`. It takes no memory.
    pub fn new(alloc: Global, limit: Option<u64>, refuse: u64) -> TightAuditor
        ensures seen { tight_seen result ≡ new_seen limit }
        ensures refuses { refused_at result ≡ refuse }
    {
        TightAuditor {
            keep: KeepAuditor::new(alloc, limit),
            refuse,
        }
    }
}

impl Auditor for TightAuditor {
    ghost use Rattle.std.specs.Prelude.{◌≡◌, IfOk, IsErr, OnErr};
    ghost use Rattle.spfc_outer.specs.Auditors.{HasHeard};
    ghost use Rattle.spfc_outer.specs.KeepAuditor.{refused_at, tight_seen};

    ghost hears = { tight_seen };

    fn tell(&mut self, question: &Question) -> Result<Keep, AllocError>
        ensures heard { IfOk result (HasHeard (tight_seen self.old) question.now (tight_seen self.new)) }
        ensures unheard { OnErr result (tight_seen self.new ≡ tight_seen self.old) }
        ensures refuses { (tight_seen self.old).count ≡ refused_at self.old → IsErr result }
        ensures stays { refused_at self.new ≡ refused_at self.old }
    {
        if self.keep.count() == self.refuse {
            return Err(AllocError);
        }
        self.keep.tell(question)
    }
}
