//! Reading mechanisms.
ghost use Rattle.std.specs.Prelude.{IfOk};
ghost use Rattle.spf_macros.specs.Reading.{Reads};
ghost use Rattle.spf_grammar.specs.declared.keywords.Keyword.TheVariants as keyword;
ghost use Rattle.spf_grammar.specs.Reading.{SpellsBehind};

use crate::Mechanism;
use crate::hosts::{read_hosts, read_optional_target, read_target};
use crate::keywords::Keyword;
use crate::networks::read_network;
use std::alloc::{AllocError, Global};

/// `all` has nothing behind its name (RFC 7208, section 5.1).
fn read_all(text: &[u8]) -> Option<Mechanism>
    ensures { Reads (SpellsBehind keyword.All) text.now result }
{
    if text.is_empty() {
        Some(Mechanism::All)
    } else {
        None
    }
}

/// What stands behind `include` (RFC 7208, section 5.2).
fn read_include(alloc: Global, text: &[u8]) -> Result<Option<Mechanism>, AllocError>
    ensures { IfOk result (Reads (SpellsBehind keyword.Include) text.now) }
{
    let Some(target) = read_target(alloc, text)? else {
        return Ok(None);
    };
    Ok(Some(Mechanism::Include(target)))
}

/// What stands behind `a` (RFC 7208, section 5.3).
fn read_address(alloc: Global, text: &[u8]) -> Result<Option<Mechanism>, AllocError>
    ensures { IfOk result (Reads (SpellsBehind keyword.A) text.now) }
{
    let Some(hosts) = read_hosts(alloc, text)? else {
        return Ok(None);
    };
    Ok(Some(Mechanism::A(hosts.target, hosts.len4, hosts.len6)))
}

/// What stands behind `mx` (RFC 7208, section 5.4).
fn read_mx(alloc: Global, text: &[u8]) -> Result<Option<Mechanism>, AllocError>
    ensures { IfOk result (Reads (SpellsBehind keyword.Mx) text.now) }
{
    let Some(hosts) = read_hosts(alloc, text)? else {
        return Ok(None);
    };
    Ok(Some(Mechanism::Mx(hosts.target, hosts.len4, hosts.len6)))
}

/// What stands behind `ptr` (RFC 7208, section 5.5).
fn read_ptr(alloc: Global, text: &[u8]) -> Result<Option<Mechanism>, AllocError>
    ensures { IfOk result (Reads (SpellsBehind keyword.Ptr) text.now) }
{
    let Some(target) = read_optional_target(alloc, text)? else {
        return Ok(None);
    };
    Ok(Some(Mechanism::Ptr(target)))
}

/// What stands behind `exists` (RFC 7208, section 5.7).
fn read_exists(alloc: Global, text: &[u8]) -> Result<Option<Mechanism>, AllocError>
    ensures { IfOk result (Reads (SpellsBehind keyword.Exists) text.now) }
{
    let Some(target) = read_target(alloc, text)? else {
        return Ok(None);
    };
    Ok(Some(Mechanism::Exists(target)))
}

/// The mechanism of a name, by what stands behind the name (RFC 7208, section 12).
pub(crate) fn read_mechanism(
    alloc: Global,
    keyword: Keyword,
    text: &[u8],
) -> Result<Option<Mechanism>, AllocError>
    ensures { IfOk result (Reads (SpellsBehind keyword) text.now) }
{
    match keyword {
        Keyword::All => Ok(read_all(text)),
        Keyword::Include => read_include(alloc, text),
        Keyword::A => read_address(alloc, text),
        Keyword::Mx => read_mx(alloc, text),
        Keyword::Ptr => read_ptr(alloc, text),
        Keyword::Ip4 => Ok(read_network(text).map(Mechanism::Ip4)),
        Keyword::Ip6 => Ok(read_network(text).map(Mechanism::Ip6)),
        Keyword::Exists => read_exists(alloc, text),
    }
}
