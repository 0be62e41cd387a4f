//! Writing records.
ghost use Rattle.std.specs.Prelude.{◌≡◌, ◌++◌, ◌∷◌, flat_map, IfOk, OnOk};
ghost use Rattle.spf_macros.specs.Grammar.{written};
ghost use Rattle.spf_macros.specs.Laws.{IsMacroText};
ghost use Rattle.spf_grammar.specs.Grammar.{SpellsPolicy};
ghost use Rattle.spf_grammar.specs.Laws.{IsPolicy};
ghost use Rattle.spf_grammar.specs.Policies as policies;
ghost use Rattle.spf_grammar.specs.Reading.{TargetIsText, MechanismHasText, TermHasText, TermsHaveTexts};
ghost use Rattle.spf_grammar.specs.Written.{written_len, written_net};

use crate::written::{qualifier, write_net};
use crate::{Mechanism, Net, Policy, Term};
use addr_bits::Bytes;
use itoa::Buffer;
use spf_macros::{MacroText, write_macro_text};
use std::alloc::{AllocError, Global};

fn append_macro_text(alloc: Global, text: &mut Bytes, pieces: &MacroText) -> Result<(), AllocError>
    requires { IsMacroText pieces.now }
    ensures { OnOk result (text.new ≡ text.old ++ written pieces.now) }
{
    let written = write_macro_text(alloc, pieces)?;
    text.extend_from_slice(written.as_slice())
}

fn append_target(alloc: Global, text: &mut Bytes, target: &MacroText) -> Result<(), AllocError>
    requires { IsMacroText target.now }
    ensures { OnOk result (text.new ≡ text.old ++ 58 ∷ written target.now) }
{
    text.push(b':')?;
    append_macro_text(alloc, text, target)
}

fn append_optional_target(
    alloc: Global,
    text: &mut Bytes,
    target: &Option<MacroText>,
) -> Result<(), AllocError>
    requires { TargetIsText target.now }
    ensures { OnOk result (text.new ≡ text.old ++ policies.written_target target.now) }
{
    match target {
        Some(target) => append_target(alloc, text, target),
        None => Ok(()),
    }
}

/// Appends a length behind its slashes, unless it is the longest.
fn append_len(text: &mut Bytes, slash: &[u8], most: u32, len: u32) -> Result<(), AllocError>
    ensures { OnOk result (text.new ≡ text.old ++ written_len slash.now most len) }
{
    if len == most {
        return Ok(());
    }
    text.extend_from_slice(slash)?;
    let mut buffer = Buffer::new();
    text.extend_from_slice(buffer.format(len).as_bytes())
}

fn append_hosts(
    alloc: Global,
    text: &mut Bytes,
    target: &Option<MacroText>,
    len4: u32,
    len6: u32,
) -> Result<(), AllocError>
    requires { TargetIsText target.now }
    ensures { OnOk result (text.new ≡ text.old ++ policies.written_hosts target.now len4 len6) }
{
    append_optional_target(alloc, text, target)?;
    append_len(text, b"/", 32, len4)?;
    append_len(text, b"//", 128, len6)
}

fn append_net(text: &mut Bytes, net: Net) -> Result<(), AllocError>
    ensures { OnOk result (text.new ≡ text.old ++ written_net net) }
{
    text.extend_from_slice(write_net(net).as_str().as_bytes())
}

fn append_mechanism(
    alloc: Global,
    text: &mut Bytes,
    mechanism: &Mechanism,
) -> Result<(), AllocError>
    requires { MechanismHasText mechanism.now }
    ensures { OnOk result (text.new ≡ text.old ++ policies.written_mechanism mechanism.now) }
{
    match mechanism {
        Mechanism::All => text.extend_from_slice(b"all"),
        Mechanism::Include(target) => {
            text.extend_from_slice(b"include")?;
            append_target(alloc, text, target)
        }
        Mechanism::A(target, len4, len6) => {
            text.extend_from_slice(b"a")?;
            append_hosts(alloc, text, target, *len4, *len6)
        }
        Mechanism::Mx(target, len4, len6) => {
            text.extend_from_slice(b"mx")?;
            append_hosts(alloc, text, target, *len4, *len6)
        }
        Mechanism::Ptr(target) => {
            text.extend_from_slice(b"ptr")?;
            append_optional_target(alloc, text, target)
        }
        Mechanism::Ip4(network) => append_net(text, Net::V4(*network)),
        Mechanism::Ip6(network) => append_net(text, Net::V6(*network)),
        Mechanism::Exists(target) => {
            text.extend_from_slice(b"exists")?;
            append_target(alloc, text, target)
        }
    }
}

fn append_term(alloc: Global, text: &mut Bytes, term: &Term) -> Result<(), AllocError>
    requires { TermHasText term.now }
    ensures { OnOk result (text.new ≡ text.old ++ policies.written_term term.now) }
{
    match term {
        Term::Directive(verdict, mechanism) => {
            text.extend_from_slice(qualifier(*verdict).as_bytes())?;
            append_mechanism(alloc, text, mechanism)
        }
        Term::Redirect(spec) => {
            text.extend_from_slice(b"redirect=")?;
            append_macro_text(alloc, text, spec)
        }
        Term::Exp(spec) => {
            text.extend_from_slice(b"exp=")?;
            append_macro_text(alloc, text, spec)
        }
        Term::Unknown(name, value) => {
            text.extend_from_slice(name.as_slice())?;
            text.push(b'=')?;
            append_macro_text(alloc, text, value)
        }
    }
}

fn append_terms(alloc: Global, text: &mut Bytes, terms: &[Term]) -> Result<(), AllocError>
    requires { TermsHaveTexts terms.now }
    ensures { OnOk result (text.new ≡ text.old ++ flat_map (λ term. 32 ∷ policies.written_term term) terms.now) }
{
    for term in terms {
        text.push(b' ')?;
        append_term(alloc, text, term)?;
    }
    Ok(())
}

/// The written form of a policy that some text spells: names in lower case, one space before each term, no `+`, and
/// no length of 32 or 128 bits. It spells the policy (RFC 7208, section 12), and a text spells no other one.
/// `AllocError` where there is no memory.
pub fn write_policy(alloc: Global, policy: &Policy) -> Result<Bytes, AllocError>
    requires { IsPolicy policy.now }
    ensures text { IfOk result (λ text. text ≡ policies.written_policy policy.now) }
    ensures spells { IfOk result (λ text. SpellsPolicy text policy.now) }
{
    let mut text = Bytes::new(alloc);
    text.extend_from_slice(b"v=spf1")?;
    append_terms(alloc, &mut text, policy.terms.as_slice())?;
    Ok(text)
}
