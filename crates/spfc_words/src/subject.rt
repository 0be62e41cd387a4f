//! What a policy is read from.
ghost use Rattle.std.specs.Prelude.{IfOk, MatchOption};
ghost use Rattle.spfc_words.specs.declared.subject.Subject.{Subject};
ghost use Rattle.spfc_words.specs.Subjects.{SpellsSubject};
ghost use Rattle.spfc_words.specs.Words.{texts};

use crate::domain::{Domain, read_domain};
use crate::input::{Group, Inputs, push_zone_words};
use crate::limits::{READING, read_limits};
use crate::options::{behind_options, split_first};
use spf_model::Limits;
use std::alloc::{AllocError, Global};

/// What a policy is read from: a domain, the limits of reading, and the zones.
#[derive(Debug, Drop)]
pub struct Subject {
    /// The domain.
    pub domain: Domain,
    /// The limits under which the zones are read.
    pub limits: Limits,
    /// The zones.
    pub inputs: Inputs,
}

impl Subject {
    /// What the words `DOMAIN READING ORIGIN=FILE..` spell; `None` exactly where they spell nothing.
    pub fn read(alloc: Global, words: &[String]) -> Result<Option<Subject>, AllocError>
        ensures { IfOk result (λ subject. MatchOption subject
            ((any : Subject) → ¬ SpellsSubject (texts words.now) any) (SpellsSubject (texts words.now))) }
    {
        let Some((domain, rest)) = split_first(words) else {
            return Ok(None);
        };
        let Some(domain) = read_domain(alloc, domain.as_bytes())? else {
            return Ok(None);
        };
        let Some(limits) = read_limits(READING, rest) else {
            return Ok(None);
        };
        let mut inputs = Inputs::new(alloc);
        let behind = behind_options(READING, rest);
        if !push_zone_words(alloc, &mut inputs, Group::Zones, behind)? {
            return Ok(None);
        }
        Ok(Some(Subject {
            domain,
            limits,
            inputs,
        }))
    }
}
