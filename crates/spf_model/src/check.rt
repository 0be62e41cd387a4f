//! check_host (RFC 7208, section 4): records, their terms, and the records that these ask for.
ghost use Rattle.std.specs.Prelude.{◌≡◌, ◌+◌, ◌<◌, ◌≤◌, ℕ, Some, IfOk, IsOk, option_map};
ghost use Rattle.addr_bits.specs.Address.{family_of};
ghost use Rattle.spf_model.specs.Run.{says};
ghost use Rattle.spf_model.specs.Judging as judging;
ghost use Rattle.spf_model.specs.Check as checking;
ghost use Rattle.dns_name.specs.Name.{name_of_text};
ghost use Rattle.spf_model.specs.Result.{AreModest, Gives};
ghost use Rattle.spf_model.specs.Leads.{site_of, required_of, IsJudged, IsTried, IsVerdictOf, TargetFits};
ghost use Rattle.spf_model.specs.Leads.{MechanismFits, TermFits, TermsFit};

use crate::context::{RecordContext, name_of};
use crate::frame::Frame;
use crate::outcome::Halt;
use crate::{Cause, Counts, Limits, Outcome};
use addr_bits::Address;
use spf_grammar::{Mechanism, Net, Term, Verdict};
use spf_macros::MacroText;
use std::alloc::{AllocError, Global};
use zone_answers::{Questions, Zones};

/// Whether a record passes the address (RFC 7208, section 5.2).
fn is_pass(verdict: Verdict) -> bool
    ensures { result ≡ judging.is_pass verdict }
{
    verdict == Verdict::Pass
}

/// The redirect of a record, with the number of its term (RFC 7208, section 6.1).
pub fn redirect_of(terms: &[Term]) -> Option<(u32, &MacroText)>
    ensures { option_map (λ r. (r.0, r.1.now)) result ≡ checking.redirect_from 1 terms.now }
{
    let mut number = 1u32;
    for term in terms {
        if let Term::Redirect(spec) = term {
            return Some((number, spec));
        }
        number = number.saturating_add(1);
    }
    None
}

impl Frame<'_> {
    /// Where a term's record does not exist, that is an error of the term (RFC 7208, sections 5.2 and 6.1).
    fn required(&self, term: u32, found: Result<Verdict, Halt>) -> Result<Verdict, Halt>
        ensures { result ≡ required_of (site_of self.now.context) term found }
    {
        match found {
            Err(Halt::Ended(Outcome::Nothing(_))) => Err(self.context.error(Cause::Missing, term)),
            other => other,
        }
    }

    /// The verdict of the record that a term asks for (RFC 7208, sections 5.2 and 6.1).
    #[cycle(check_host)]
    fn judge_target(
        &self,
        term: u32,
        spec: &MacroText,
        counts: &mut Counts,
    ) -> Result<Verdict, Halt>
        requires family { self.now.context.family ≡ family_of self.now.address }
        requires target { TargetFits (Some spec.now) }
        ensures judged { (depth : ℕ) → self.now.context.limits.lookups ≤ depth + counts.old.lookups
            → IsJudged (says self.now.context.zones.now self.now.address)
            (judging.with_verdict (site_of self.now.context)
            (checking.check self.now.context.limits self.now.address depth)
            term spec.now counts.old) counts.new result }
        ensures grows { counts.old.lookups ≤ counts.new.lookups }
    {
        self.count_lookup(term, counts)?;
        let (domain, name) = self.context.target(term, spec)?;
        let context = RecordContext {
            domain: domain.as_slice(),
            name: &name,
            ..self.context
        };
        let target = Frame {
            context,
            address: self.address,
        };
        self.required(term, target.judge_record(counts))
    }

    /// Whether a mechanism matches (RFC 7208, section 5).
    #[cycle(check_host)]
    fn matches(&self, term: u32, mechanism: &Mechanism, counts: &mut Counts) -> Result<bool, Halt>
        requires family { self.now.context.family ≡ family_of self.now.address }
        requires fits { MechanismFits mechanism.now }
        ensures judged { (depth : ℕ) → self.now.context.limits.lookups ≤ depth + counts.old.lookups
            → IsJudged (says self.now.context.zones.now self.now.address)
            (judging.judge (site_of self.now.context) self.now.address
            (checking.check self.now.context.limits self.now.address depth)
            term mechanism.now counts.old) counts.new result }
        ensures grows { counts.old.lookups ≤ counts.new.lookups }
    {
        match mechanism {
            Mechanism::All => Ok(true),
            Mechanism::Ip4(prefix) => Ok(Net::V4(*prefix).covers(self.address)),
            Mechanism::Ip6(prefix) => Ok(Net::V6(*prefix).covers(self.address)),
            Mechanism::Include(spec) => {
                let verdict = self.judge_target(term, spec, counts)?;
                Ok(is_pass(verdict))
            }
            Mechanism::A(_, _, _) | Mechanism::Mx(_, _, _) | Mechanism::Exists(_) => {
                self.match_hosts(term, mechanism, counts)
            }
            Mechanism::Ptr(_) => self.match_ptr(term, counts),
        }
    }

    /// The verdict of a directive that matches (RFC 7208, section 4.6.2).
    #[cycle(check_host)]
    fn try_term(
        &self,
        number: u32,
        term: &Term,
        counts: &mut Counts,
    ) -> Result<Option<Verdict>, Halt>
        requires family { self.now.context.family ≡ family_of self.now.address }
        requires fits { TermFits term.now }
        ensures tried { (depth : ℕ) → self.now.context.limits.lookups ≤ depth + counts.old.lookups
            → IsTried (says self.now.context.zones.now self.now.address)
            (checking.trying (judging.judge (site_of self.now.context) self.now.address
            (checking.check self.now.context.limits self.now.address depth))
            number term.now counts.old) counts.new result }
        ensures grows { counts.old.lookups ≤ counts.new.lookups }
    {
        let Term::Directive(verdict, mechanism) = term else {
            return Ok(None);
        };
        let matched = self.matches(number, mechanism, counts)?;
        if matched {
            return Ok(Some(*verdict));
        }
        Ok(None)
    }

    /// The verdict of the first directive that matches (RFC 7208, section 4.6.2).
    #[cycle(check_host)]
    fn try_terms(&self, terms: &[Term], counts: &mut Counts) -> Result<Option<Verdict>, Halt>
        requires family { self.now.context.family ≡ family_of self.now.address }
        requires fit { TermsFit terms.now }
        ensures tried { (depth : ℕ) → self.now.context.limits.lookups ≤ depth + counts.old.lookups
            → IsTried (says self.now.context.zones.now self.now.address)
            (checking.tried (judging.judge (site_of self.now.context) self.now.address
            (checking.check self.now.context.limits self.now.address depth)) 1 terms.now counts.old) counts.new result }
        ensures grows { counts.old.lookups ≤ counts.new.lookups }
    {
        let mut number = 1u32;
        for term in terms {
            if let Some(verdict) = self.try_term(number, term, counts)? {
                return Ok(Some(verdict));
            }
            number = number.saturating_add(1);
        }
        Ok(None)
    }

    /// The verdict of the record at the domain (RFC 7208, section 4.6).
    #[cycle(check_host)]
    pub(crate) fn judge_record(&self, counts: &mut Counts) -> Result<Verdict, Halt>
        requires family { self.now.context.family ≡ family_of self.now.address }
        requires within { counts.old.lookups ≤ self.now.context.limits.lookups }
        ensures judged { (depth : ℕ) → self.now.context.limits.lookups < depth + counts.old.lookups
            → IsVerdictOf (says self.now.context.zones.now self.now.address)
            (checking.check self.now.context.limits self.now.address depth
            self.now.context.domain.now self.now.context.name.now counts.old) counts.new result }
        ensures grows { counts.old.lookups ≤ counts.new.lookups }
    {
        // What is asked is not told of one address.
        let mut asked = Questions::new(self.context.alloc);
        let terms = self.context.find_record(&mut asked)?;
        if let Some(verdict) = self.try_terms(terms.as_slice(), counts)? {
            return Ok(verdict);
        }
        match redirect_of(terms.as_slice()) {
            Some((term, spec)) => self.judge_target(term, spec, counts),
            None => Ok(Verdict::Neutral),
        }
    }
}

/// The outcome of check_host (RFC 7208, section 4) for one address, over the lent zones. An address of IPv6 that maps
/// one of IPv4 stays of IPv6. The domain must be a legal name, and each limit at most 1,000, since records are nested
/// as deep as the limit on lookups. `AllocError` where there is no memory.
pub fn check_one(
    alloc: Global,
    zones: &Zones,
    limits: Limits,
    address: Address,
    domain: &[u8],
) -> Result<Outcome, AllocError>
    requires named { IsOk (name_of_text domain.now) }
    requires modest { AreModest limits }
    ensures { IfOk result (Gives (says zones.now) limits domain.now address) }
{
    let name = name_of(domain).unwrap();
    let context = RecordContext {
        alloc,
        zones,
        limits,
        family: address.family(),
        domain,
        name: &name,
    };
    let frame = Frame { context, address };
    let mut counts = Counts {
        lookups: 0,
        voids: 0,
    };
    match frame.judge_record(&mut counts) {
        Ok(verdict) => Ok(Outcome::Is(verdict)),
        Err(Halt::Ended(outcome)) => Ok(outcome),
        Err(Halt::Memory) => Err(AllocError),
    }
}
