//! Tries of both widths, at plain values.

use addr_bits::Prefix;
use master_reader::Body;
use match_sets::{match4, match6};
use prefix_trie::TrieMap;
use std::alloc::{AllocError, Global};
use std::test::Fail;
use zone_answers::{Answer, Bodies};

/// Of IPv4 addresses, 1 at one prefix and 0 elsewhere.
fn marked4(alloc: Global, start: u32, len: u32) -> Result<TrieMap<u32, u8>, AllocError> {
    let mut trie = TrieMap::whole(alloc, 0u8)?;
    trie.set(Prefix::new(start, len.min(32)), 1)?;
    Ok(trie)
}

/// Of IPv6 addresses, 1 at one prefix and 0 elsewhere.
fn marked6(alloc: Global, start: u128, len: u32) -> Result<TrieMap<u128, u8>, AllocError> {
    let mut trie = TrieMap::whole(alloc, 0u8)?;
    trie.set(Prefix::new(start, len.min(128)), 1)?;
    Ok(trie)
}

// The start and the length of a prefix, the number of leaves, and the least address that it has.
const FOUR: [(u32, u32, usize, u32); 4] = [
    (0xffff_ffff, 0, 1, 0),
    (0, 32, 33, 0),
    (0xffff_ffff, 32, 33, 0xffff_ffff),
    (0xc000_02ff, 24, 25, 0xc000_0200),
];

const SIX: [(u128, u32, usize, u128); 3] = [
    (5, 0, 1, 0),
    (0, 128, 129, 0),
    (u128::MAX, 128, 129, u128::MAX),
];

#[test]
fn a_prefix_is_set(rt: HostRuntime) -> Result<(), Fail> {
    for (start, len, leaves, least) in FOUR {
        let trie = marked4(rt.alloc(), start, len)?;
        assert!(rt; trie.leaves()?.len() == leaves, "at {start:x}/{len}");
        assert!(rt;
            trie.least_where(|value| *value == 1) == Some(least),
            "at {start:x}/{len}"
        );
        assert!(rt; trie.least_where(|value| *value == 2).is_none());
    }
    for (start, len, leaves, least) in SIX {
        let trie = marked6(rt.alloc(), start, len)?;
        assert!(rt; trie.leaves()?.len() == leaves, "at {start:x}/{len}");
        assert!(rt;
            trie.least_where(|value| *value == 1) == Some(least),
            "at {start:x}/{len}"
        );
    }
    Ok(())
}

#[test]
fn a_value_is_taken_back(rt: HostRuntime) -> Result<(), Fail> {
    let mut trie = marked4(rt.alloc(), 0xc000_0200, 24)?;
    for (address, value) in [
        (0xc000_02ff, 1),
        (0xc000_0300, 0),
        (0x8000_0200, 0),
        (0x4000_0201, 0),
    ] {
        assert!(rt; *trie.at(address) == value);
    }
    trie.set(Prefix::new(0xc000_0200, 24), 0)?;
    assert!(rt; trie.leaves()?.len() == 1);
    Ok(())
}

#[test]
fn two_tries_are_combined(rt: HostRuntime) -> Result<(), Fail> {
    let left = marked6(rt.alloc(), 0, 1)?;
    let right = marked6(rt.alloc(), u128::MAX, 128)?;
    let both = TrieMap::combine(rt.alloc(), &left, &right, |x, y| Ok((*x, *y)))?;
    for (address, pair) in [(0, (1, 0)), (u128::MAX, (0, 1)), (u128::MAX - 1, (0, 0))] {
        assert!(rt; *both.at(address) == pair);
    }
    let constant = TrieMap::combine(rt.alloc(), &left, &right, |_, _| Ok(3u8))?;
    assert!(rt; constant.leaves()?.len() == 1);
    Ok(())
}

#[test]
fn a_trie_is_mapped(rt: HostRuntime) -> Result<(), Fail> {
    let trie = marked4(rt.alloc(), 0xc000_0200, 24)?;
    let other = trie.map(|value| Ok(*value == 0))?;
    for (address, value) in [
        (0xc000_0200, false),
        (0xc000_02ff, false),
        (0xc000_0300, true),
        (0, true),
    ] {
        assert!(rt; *other.at(address) == value);
    }
    assert!(rt; other.leaves()?.len() == 25);
    let constant = trie.map(|_| Ok(3u8))?;
    assert!(rt; constant.leaves()?.len() == 1);
    Ok(())
}

#[test]
fn hosts_are_matched(rt: HostRuntime) -> Result<(), Fail> {
    let mut bodies = Bodies::new(rt.alloc());
    bodies.push(Body::A(0xc000_0201))?;
    bodies.push(Body::Aaaa(1))?;
    let found = Answer::Found(bodies);
    let four = match4(rt.alloc(), &found, 24)?;
    for (address, want) in [
        (0xc000_01ffu32, false),
        (0xc000_0200, true),
        (0xc000_02ff, true),
        (1, false),
    ] {
        assert!(rt; *four.at(address) == want, "at {address:x}");
    }
    let six = match6(rt.alloc(), &found, 127)?;
    for (address, want) in [(0u128, true), (1, true), (2, false), (0xc000_0201, false)] {
        assert!(rt; *six.at(address) == want, "at {address:x}");
    }
    Ok(())
}
