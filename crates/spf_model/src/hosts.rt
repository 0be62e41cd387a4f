//! The answers that a term gathers before they are judged (RFC 7208, sections 5.3, 5.4 and 5.7).
ghost use Rattle.std.specs.Prelude.{◌≡◌, ◌≤◌, List, IfOk, Some, length, map, filter_map, option_map};
ghost use Rattle.dns_name.specs.Wire.{wire_form};
ghost use Rattle.zone_answers.specs.declared.answer.Question.{Question as Asked};
ghost use Rattle.spf_macros.specs.Reversed.{reverse_suffix};
ghost use Rattle.spf_model.specs.Run.{says};
ghost use Rattle.spf_model.specs.Judging as judging;
ghost use Rattle.spf_model.specs.Leads.{common_of, site_of, HostsFit, MechanismFits, TargetFits};
ghost use Rattle.spf_grammar.specs.declared.policy.Mechanism.TheVariants as mechanism;
ghost use Rattle.spf_model.specs.Settling.{SettlesEach};

use crate::Cause;
use crate::context::{RecordContext, cause_of, name_of};
use crate::gathered::{Gathered, Hosts, is_void};
use crate::outcome::Halt;
use addr_bits::Items;
use dns_name::Name;
use master_reader::Body;
use spf_grammar::Mechanism;
use spf_macros::{Expanded, MacroText, reverse_suffix};
use std::alloc::{AllocError, Global};
use zone_answers::{Answer, QKind, Questions};

/// The most characters of the text below which reversed names are asked for: behind the 63 characters of a reversed
/// IPv6 address and a dot, no name has more (RFC 1035, section 2.3.4, and RFC 3596, section 2.5).
const MAX_SUFFIX_TEXT: usize = 189;

/// The exchange of an MX record, unless that is the root (RFC 7505, section 3).
fn exchange_of(body: &Body) -> Option<&Name>
    ensures { option_map (λ name. name.now) result ≡ judging.exchange_of body.now }
{
    match body {
        Body::Mx(_, name) if name.label_count() > 0 => Some(name),
        _ => None,
    }
}

/// The exchanges of MX records, in order (RFC 7208, section 5.4); a root exchange is skipped.
fn exchanges_of(alloc: Global, bodies: &[Body]) -> Result<Vec<&Name>, AllocError>
    ensures { IfOk result (λ exchanges. map (λ name. name.now) exchanges.items
        ≡ filter_map judging.exchange_of bodies.now) }
{
    let mut exchanges = Vec::new(alloc);
    for body in bodies {
        if let Some(exchange) = exchange_of(body) {
            exchanges.push(exchange)?;
        }
    }
    Ok(exchanges)
}

/// What all addresses of a family have in common.
fn in_common(gathered: Result<Gathered, Halt>) -> Result<Hosts, Halt>
    ensures { result ≡ common_of gathered }
{
    match gathered {
        Ok(gathered) => Ok(Hosts::Common(gathered)),
        Err(halt) => Err(halt),
    }
}

impl RecordContext<'_> {
    /// Gathers the answers of these hosts. `void` says whether the answer that named them was void.
    fn gather_hosts(
        &self,
        term: u32,
        kind: QKind,
        void: bool,
        hosts: &[&Name],
        asked: &mut Questions,
    ) -> Result<Gathered, Halt>
        ensures { SettlesEach (says self.now.zones.now)
            (judging.gather_hosts (site_of self.now) term kind void
            (map (λ name. name.now) hosts.now)) asked.old asked.new result }
    {
        let mut answers = Items::new(self.alloc);
        for host in hosts {
            let answer = self.ask(term, host, kind, asked)?;
            answers.push(answer)?;
        }
        Ok(Gathered { void, answers })
    }

    /// Gathers the answer of the one host that a term asks for (RFC 7208, sections 5.3 and 5.7).
    fn gather_target(
        &self,
        term: u32,
        kind: QKind,
        spec: Option<&MacroText>,
        asked: &mut Questions,
    ) -> Result<Gathered, Halt>
        requires { TargetFits (option_map (λ s. s.now) spec) }
        ensures { SettlesEach (says self.now.zones.now)
            (judging.gather_target (site_of self.now) term kind
            (option_map (λ s. s.now) spec.entry)) asked.old asked.new result }
    {
        let name = self.host_name(term, spec)?;
        self.gather_hosts(term, kind, false, &[&name], asked)
    }

    /// Gathers the answers of the exchanges that were found, of which there may not be more than the limit (RFC 7208,
    /// sections 4.6.4 and 5.4).
    fn gather_exchanges(
        &self,
        term: u32,
        found: &Answer,
        asked: &mut Questions,
    ) -> Result<Gathered, Halt>
        ensures { SettlesEach (says self.now.zones.now)
            (judging.gather_exchanges (site_of self.now) term found.now) asked.old asked.new result }
    {
        let exchanges = exchanges_of(self.alloc, found.bodies())?;
        let hosts = exchanges.as_slice();
        if hosts.len() > self.limits.exchanges as usize {
            return Err(self.error(Cause::Exchanges, term));
        }
        let kind = QKind::of_addresses(self.family);
        self.gather_hosts(term, kind, is_void(found), hosts, asked)
    }

    /// Gathers the answers of the exchanges of a name (RFC 7208, section 5.4).
    fn gather_mx(
        &self,
        term: u32,
        spec: Option<&MacroText>,
        asked: &mut Questions,
    ) -> Result<Gathered, Halt>
        requires { TargetFits (option_map (λ s. s.now) spec) }
        ensures { SettlesEach (says self.now.zones.now)
            (judging.gather_mx (site_of self.now) term
            (option_map (λ s. s.now) spec.entry)) asked.old asked.new result }
    {
        let name = self.host_name(term, spec)?;
        let found = self.ask(term, &name, QKind::Mx, asked)?;
        self.gather_exchanges(term, &found, asked)
    }

    /// The name below which an `exists` asks whose text begins with the reversed address and a dot (RFC 7208, sections
    /// 5.7 and 7.3). It asks nothing.
    fn suffix_name(&self, term: u32, suffix: Expanded) -> Result<Name, Halt>
        ensures named { (asked : List Asked) → SettlesEach (says self.now.zones.now)
            (judging.naming_suffix (site_of self.now) term suffix) asked asked result }
        ensures short { IfOk result (λ name. length (wire_form name) ≤ 191) }
    {
        let text = match suffix {
            Expanded::Out(text) => text,
            Expanded::Needs(need) => return Err(self.open(cause_of(need), term)),
        };
        if text.len() > MAX_SUFFIX_TEXT {
            return Err(self.open(Cause::Address, term));
        }
        match name_of(text.as_slice()) {
            Some(name) => Ok(name),
            None => Err(self.open(Cause::Target, term)),
        }
    }

    /// Gathers the answer of an `exists` at its target, or finds the name below which each address asks (RFC 7208,
    /// section 5.7).
    fn gather_exists(
        &self,
        term: u32,
        spec: &MacroText,
        asked: &mut Questions,
    ) -> Result<Hosts, Halt>
        requires { TargetFits (Some spec.now) }
        ensures gathered { SettlesEach (says self.now.zones.now)
            (judging.gather_exists (site_of self.now) term spec.now
            (reverse_suffix self.now.family self.now.domain.now spec.now)) asked.old asked.new result }
        ensures fit { IfOk result (HostsFit (mechanism.Exists spec.now)) }
    {
        if let Some(suffix) = reverse_suffix(self.alloc, spec, self.family, self.domain)? {
            let name = self.suffix_name(term, suffix)?;
            return Ok(Hosts::Reversed(name));
        }
        in_common(self.gather_target(term, QKind::A, Some(spec), asked))
    }

    /// What a mechanism gathers for every address of the family alike, once its lookup is counted: `a` and `mx` ask for
    /// addresses of the family (RFC 7208, sections 5.3 and 5.4), and `exists` for those of IPv4 (section 5.7), at its
    /// target or at reversed names, whose question is not noted. No other mechanism asks for hosts. Each other question
    /// is noted. `Halt::Memory` where there is no memory.
    pub fn gather(
        &self,
        term: u32,
        mechanism: &Mechanism,
        asked: &mut Questions,
    ) -> Result<Hosts, Halt>
        requires { MechanismFits mechanism.now }
        ensures gathered { SettlesEach (says self.now.zones.now)
            (judging.gather_common (site_of self.now) term mechanism.now) asked.old asked.new result }
        ensures fit { IfOk result (HostsFit mechanism.now) }
    {
        match mechanism {
            Mechanism::A(spec, _, _) => {
                let kind = QKind::of_addresses(self.family);
                in_common(self.gather_target(term, kind, spec.as_ref(), asked))
            }
            Mechanism::Mx(spec, _, _) => in_common(self.gather_mx(term, spec.as_ref(), asked)),
            Mechanism::Exists(spec) => self.gather_exists(term, spec, asked),
            _ => Ok(Hosts::Common(Gathered {
                void: false,
                answers: Items::new(self.alloc),
            })),
        }
    }
}
