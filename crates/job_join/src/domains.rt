//! The domains in front of the other words.
ghost use Rattle.std.specs.Prelude.{◌≡◌, ◌<◌, ◌≤◌, IfOk, IfSome, MatchOption, List, length, bytes_eq};
ghost use Rattle.std.specs.Prelude.{String, string_bytes};
ghost use Rattle.std.specs.List.{list_any, position, position_or_len};
ghost use Rattle.std.specs.declared.alloc.Global.{Global};
ghost use Rattle.spfc_words.specs.Words.{texts};
ghost use Rattle.spfc_words.specs.declared.domain.Domain.{Domain};
ghost use Rattle.job_join.specs.Words.{AreDomains, behind_domains, domains_in, is_other};

use addr_bits::Items;
use spf_macros::is_domain;
use spfc_words::{Domain, read_domain};
use std::alloc::{AllocError, Global};

/// The fewest domains of which one policy is made.
const FEWEST_DOMAINS: usize = 2;

/// The most.
const MOST_DOMAINS: usize = 8;

/// Domains, in the order of their words.
pub type Domains = Items<Domain>;

/// The words in front of the first that is no domain, and the words from it on.
pub(crate) fn split_domains(words: &[String]) -> (&[String], &[String])
    ensures front { texts result.0.now ≡ domains_in (texts words.now) }
    ensures behind { texts result.1.now ≡ behind_domains (texts words.now) }
{
    let count = count_domains(words);
    (&words[..count], &words[count..])
}

/// How many words stand in front of the first that is no domain.
fn count_domains(words: &[String]) -> usize
    ensures value { result ≡ position_or_len
        (λ (word : String Global). is_other (string_bytes word)) words.now }
    ensures within { result ≤ length words.now }
{
    match place_of_other(words) {
        Some(place) => place,
        None => words.len(),
    }
}

/// The place of the first word that is no domain.
fn place_of_other(words: &[String]) -> Option<usize>
    ensures value { result ≡ position
        (λ (word : String Global). is_other (string_bytes word)) words.now }
    ensures within { IfSome result (λ place. place < length words.now) }
{
    words.iter().position(|word| !is_domain(word.as_bytes()))
}

/// The domains of the words: 2 to 8, which are taken in lower case, none twice. `None` where these are no such words.
pub(crate) fn read_domains(alloc: Global, words: &[String]) -> Result<Option<Domains>, AllocError>
    ensures { IfOk result (λ domains. MatchOption domains
        ((any : List Domain) → ¬ AreDomains (texts words.now) any) (AreDomains (texts words.now))) }
{
    let mut domains = Domains::new(alloc);
    if words.len() < FEWEST_DOMAINS || words.len() > MOST_DOMAINS {
        return Ok(None);
    }
    for word in words {
        let Some(domain) = read_domain(alloc, word.as_bytes())? else {
            return Ok(None);
        };
        if has_text(domains.as_slice(), domain.text.as_slice()) {
            return Ok(None);
        }
        domains.push(domain)?;
    }
    Ok(Some(domains))
}

/// Whether one of the domains has this text.
fn has_text(domains: &[Domain], text: &[u8]) -> bool
    ensures { result ≡ list_any (λ domain. bytes_eq domain.text text.now) domains.now }
{
    domains.iter().any(|domain| domain.text.as_slice() == text)
}
