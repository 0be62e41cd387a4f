//! What an address is judged by, what it has counted, and the mechanisms that ask for hosts (RFC 7208, sections 4.6.4,
//! 5.3, 5.4, 5.5 and 5.7).
ghost use Rattle.std.specs.Prelude.{◌≡◌, ◌+◌, ◌≤◌, List, Option, IfOk, OnOk, length};
ghost use Rattle.dns_name.specs.Wire.{wire_form};
ghost use Rattle.zone_answers.specs.Answers.{answer_of};
ghost use Rattle.zone_answers.specs.Reversed.{reversed_name};
ghost use Rattle.zone_answers.specs.declared.answer.QKind.TheVariants.{A};
ghost use Rattle.spf_macros.specs.declared.piece.Piece.{Piece};
ghost use Rattle.spf_grammar.specs.declared.policy.Mechanism.TheVariants as mechanism;
ghost use Rattle.spf_model.specs.Run.{says};
ghost use Rattle.spf_model.specs.Judging as judging;
ghost use Rattle.spf_model.specs.Leads.{site_of, Hands, IsShort, Leads, IsJudged, MechanismFits};
ghost use Rattle.addr_bits.specs.Address.{IsAddress, family_of};
ghost use Rattle.addr_bits.specs.declared.address.Address.TheVariants as address;
ghost use Rattle.spf_model.specs.declared.outcome.Counts.{Counts as Counted};

use crate::context::RecordContext;
use crate::gathered::{Gathered, Hosts};
use crate::outcome::Halt;
use crate::{Cause, Counts};
use addr_bits::{Address, Items};
use dns_name::Name;
use spf_grammar::Mechanism;
use std::alloc::AllocError;
use zone_answers::{Answer, Class, Questions};

/// What the terms of a record are judged by for an address, which is of the context's family.
#[derive(Clone, Copy)]
pub(crate) struct Frame<'a> {
    pub(crate) context: RecordContext<'a>,
    pub(crate) address: Address,
}

/// The IPv4 address with this number.
fn of_four(number: u32) -> Address
    ensures is { result ≡ address.V4 number }
    ensures legal { IsAddress result }
{
    Address::V4(number)
}

/// The IPv6 address with this number.
fn of_six(number: u128) -> Address
    ensures is { result ≡ address.V6 number }
    ensures legal { IsAddress result }
{
    Address::V6(number)
}

impl Frame<'_> {
    /// Counts a term that asks the DNS (RFC 7208, section 4.6.4).
    pub(crate) fn count_lookup(&self, term: u32, counts: &mut Counts) -> Result<(), Halt>
        ensures counted { Leads (says self.now.context.zones.now self.now.address)
            (judging.counted (site_of self.now.context) term counts.old) counts.new result }
        ensures risen { OnOk result ((counts.new.lookups ≡ counts.old.lookups + 1)
            × (counts.new.lookups ≤ self.now.context.limits.lookups)) }
        ensures grows { counts.old.lookups ≤ counts.new.lookups }
    {
        if counts.lookups >= self.context.limits.lookups {
            return Err(self.context.error(Cause::Lookups, term));
        }
        counts.lookups += 1;
        Ok(())
    }

    /// Counts a term that got a void answer (RFC 7208, section 4.6.4).
    pub(crate) fn count_void(&self, term: u32, void: bool, counts: &mut Counts) -> Result<(), Halt>
        ensures counted { Leads (says self.now.context.zones.now self.now.address)
            (judging.void_counted (site_of self.now.context) term void counts.old) counts.new result }
        ensures same { counts.new.lookups ≡ counts.old.lookups }
    {
        if !void {
            return Ok(());
        }
        if counts.voids >= self.context.limits.voids {
            return Err(self.context.error(Cause::Voids, term));
        }
        counts.voids += 1;
        Ok(())
    }

    /// The answer at the reversed name of the address below the suffix (RFC 7208, sections 5.7 and 7.2).
    fn answer_reversed(&self, suffix: &Name) -> Result<Answer, AllocError>
        requires { length (wire_form suffix.now) ≤ 191 }
        ensures { IfOk result (λ answer. answer ≡ answer_of self.now.context.zones.now
            (reversed_name self.now.address suffix.now) A) }
    {
        match self.address {
            Address::V4(number) => self.context.zones.answer_reverse(of_four(number), suffix),
            Address::V6(number) => self.context.zones.answer_reverse(of_six(number), suffix),
        }
    }

    /// What is gathered for the address, of whose reversed name only the class of the answer is heard (RFC 7208,
    /// section 5.7).
    fn gather_own(&self, term: u32, hosts: Hosts) -> Result<Gathered, Halt>
        requires family { self.now.context.family ≡ family_of self.now.address }
        requires short { IsShort hosts }
        ensures { (counts : Counted) → Hands (says self.now.context.zones.now self.now.address)
            (judging.gather_own (site_of self.now.context) term hosts counts) result }
    {
        let name = match hosts {
            Hosts::Common(gathered) => return Ok(gathered),
            Hosts::Reversed(name) => name,
        };
        let answer = self.answer_reversed(&name)?;
        let heard = match Class::of(&answer) {
            Class::Beyond => return Err(self.context.open(Cause::Outside, term)),
            Class::Round => return Err(self.context.astray(term)),
            Class::Void => Answer::NoName,
            Class::Hit => Answer::Found(Items::new(self.context.alloc)),
        };
        let mut answers = Items::new(self.context.alloc);
        answers.push(heard)?;
        Ok(Gathered {
            void: false,
            answers,
        })
    }

    /// Whether a mechanism that asks for hosts matches: its lookup is counted, its answers are gathered, and then they
    /// are judged (RFC 7208, sections 4.6.4, 5.3, 5.4 and 5.7).
    pub(crate) fn match_hosts(
        &self,
        term: u32,
        mechanism: &Mechanism,
        counts: &mut Counts,
    ) -> Result<bool, Halt>
        requires family { self.now.context.family ≡ family_of self.now.address }
        requires fits { MechanismFits mechanism.now }
        ensures judged { IsJudged (says self.now.context.zones.now self.now.address)
            (judging.judge_hosts (site_of self.now.context) self.now.address term
            mechanism.now counts.old) counts.new result }
        ensures grows { counts.old.lookups ≤ counts.new.lookups }
    {
        self.count_lookup(term, counts)?;
        // What is asked is not told of one address.
        let mut asked = Questions::new(self.context.alloc);
        let hosts = self.context.gather(term, mechanism, &mut asked)?;
        let gathered = self.gather_own(term, hosts)?;
        self.count_void(term, gathered.some_void(), counts)?;
        Ok(gathered.meets(mechanism, self.address))
    }

    /// `ptr` counts a lookup, and is left open (RFC 7208, section 5.5).
    pub(crate) fn match_ptr(&self, term: u32, counts: &mut Counts) -> Result<bool, Halt>
        ensures judged { (sub : judging.Sub) (spec : Option (List Piece))
            → IsJudged (says self.now.context.zones.now self.now.address)
            (judging.judge (site_of self.now.context) self.now.address sub term
            (mechanism.Ptr spec) counts.old) counts.new result }
        ensures grows { counts.old.lookups ≤ counts.new.lookups }
    {
        self.count_lookup(term, counts)?;
        Err(self.context.open(Cause::Reverse, term))
    }
}
