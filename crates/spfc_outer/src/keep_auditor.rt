//! A listener that keeps what it hears.
ghost use Rattle.std.specs.Prelude.{◌≡◌, Some};

use crate::{Auditor, Keep};
use std::alloc::{AllocError, Global};
use zone_answers::{Question, Questions};

/// A listener that keeps each question, and is done at a limit, if it has one.
#[derive(Drop)]
pub struct KeepAuditor {
    heard: Questions,
    count: u64,
    limit: Option<u64>,
}

impl KeepAuditor {
    ghost use Rattle.spfc_outer.specs.KeepAuditor.{keep_seen, new_seen};

    /// A listener that heard nothing, and is done as its count comes to the limit, if there is one. It takes no memory.
    pub fn new(alloc: Global, limit: Option<u64>) -> KeepAuditor
        ensures { keep_seen result ≡ new_seen limit }
    {
        KeepAuditor {
            heard: Questions::new(alloc),
            count: 0,
            limit,
        }
    }

    /// The questions that it heard, in order.
    pub fn heard(&self) -> &Questions
        ensures { (keep_seen self.now).heard ≡ Some result.now }
    {
        &self.heard
    }

    /// How many questions it took.
    pub(crate) fn count(&self) -> u64
        ensures { result ≡ (keep_seen self.now).count }
    {
        self.count
    }
}

impl Auditor for KeepAuditor {
    ghost use Rattle.spfc_outer.specs.KeepAuditor.{keep_seen};

    ghost hears = { keep_seen };

    fn tell(&mut self, question: &Question) -> Result<Keep, AllocError> {
        let name = question.name.clone()?;
        self.heard.push(Question {
            name,
            kind: question.kind,
        })?;
        let Some(count) = self.count.checked_add(1) else {
            return Ok(Keep::Go);
        };
        self.count = count;
        match self.limit {
            Some(limit) => Ok(if limit == count { Keep::Done } else { Keep::Go }),
            None => Ok(Keep::Go),
        }
    }
}
