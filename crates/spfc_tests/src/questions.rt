//! The questions of an evaluation, which no command prints.

use dns_name::Name;
use master_reader::read_zone;
use spf_model::Limits;
use std::alloc::{AllocError, Global};
use std::test::Fail;
use symbolic_check::evaluate;
use zone_answers::{AskKind, Question, Zones, are_lendable};

/// The limits of a mail receiver (RFC 7208, section 4.6.4).
const RECEIVER: Limits = Limits {
    lookups: 10,
    voids: 2,
    exchanges: 10,
};

// A host that settles no whole family, a name that rests on the family, and one behind `all`.
const ZONE: &[u8] =
    b"@ TXT \"v=spf1 exists:%{v}.h2.example.com a:h1.example.com -all a:h3.example.com\"\n\
    h1 A 192.0.2.1\nh1 AAAA ::1\n";

// The questions in order.
const ASKED: [(&str, AskKind); 5] = [
    ("example.com", AskKind::Txt),
    ("h1.example.com", AskKind::A),
    ("h1.example.com", AskKind::Aaaa),
    ("in-addr.h2.example.com", AskKind::A),
    ("ip6.h2.example.com", AskKind::A),
];

fn is_question(
    alloc: Global,
    question: &Question,
    name: &str,
    kind: AskKind,
) -> Result<bool, AllocError> {
    let printed = question.name.write_text(alloc)?;
    Ok(printed.as_slice() == name.as_bytes() && question.kind == kind)
}

#[test]
fn questions_are_told_in_order(rt: HostRuntime) -> Result<(), Fail> {
    let origin = Name::from_text(b"example.com")?;
    let records = read_zone(rt.alloc(), &origin, ZONE)?;
    assert!(rt; are_lendable(&origin, &records));
    let mut zones = Zones::new(rt.alloc());
    zones.lend(origin, records)?;
    assert!(rt; Name::from_text(b"example.com").is_ok());
    let both = evaluate(rt.alloc(), &zones, RECEIVER, b"example.com")?;
    assert!(rt; both.asked.len() == ASKED.len());
    for (question, (name, kind)) in both.asked.as_slice().iter().zip(&ASKED) {
        assert!(rt;
            is_question(rt.alloc(), question, name, *kind)?,
            "at {name}"
        );
    }
    Ok(())
}
