//! Master files that are read whole.

use dns_name::Name;
use master_lex::{Entry, LexFault, LexKind, Lexer, Token};
use master_reader::{Body, Kind, ZoneFault, read_zone};
use std::alloc::{AllocError, Global};
use std::test::Fail;
use zone_answers::are_lendable;

// A file, and its entries: each with its line, `+` where it begins with a blank, and its tokens behind `'` or `"`,
// where a `\` stands before an escaped octet.
const ENTRIES: [(&str, &str); 6] = [
    ("a TXT \"x\"; c", "1'a'TXT\"x\n"),
    ("\tTXT ( x ;c\r\n y)\\.z", "1+'TXT'x'y'\\.z\n"),
    ("a\"b;c\"d(e)\\;\\\"\\032f", "1'a\"b;c'd'e'\\;\\\"\\ f\n"),
    ("\n ; c\r\n\n  \nb \"\"", "5'b\"\n"),
    ("(\n)\nx", "3'x\n"),
    ("a (\n\n b )\n; c\n\n c\nd", "1'a'b\n6+'c\n7'd\n"),
];

fn push_token(text: &mut Vec<u8>, token: &Token) -> Result<(), AllocError> {
    text.push(if token.quoted { b'"' } else { b'\'' })?;
    for octet in token.units.as_slice() {
        if octet.escaped {
            text.push(b'\\')?;
        }
        text.push(octet.byte)?;
    }
    Ok(())
}

fn push_entry(text: &mut Vec<u8>, entry: &Entry) -> Result<(), AllocError> {
    text.push(b'0' + (entry.line % 10) as u8)?;
    if entry.blank {
        text.push(b'+')?;
    }
    for token in entry.tokens.as_slice() {
        push_token(text, token)?;
    }
    text.push(b'\n')?;
    Ok(())
}

fn entries(alloc: Global, bytes: &[u8]) -> Result<Vec<u8>, LexFault> {
    let mut lexer = Lexer::new(alloc, bytes);
    let mut text = Vec::new(alloc);
    for _ in 0..=bytes.len() {
        match lexer.next()? {
            Some(entry) => push_entry(&mut text, &entry)?,
            None => break,
        }
    }
    Ok(text)
}

#[test]
fn entries_are_told(rt: HostRuntime) -> Result<(), Fail> {
    for (bytes, want) in &ENTRIES {
        let text = entries(rt.alloc(), bytes.as_bytes())?;
        assert!(rt; text.as_slice() == want.as_bytes(), "at {bytes}");
    }
    Ok(())
}

// A broken entry comes again.
#[test]
fn a_fault_is_told_again(rt: HostRuntime) -> Result<(), Fail> {
    let mut lexer = Lexer::new(rt.alloc(), b"a\nb \"x\nc");
    assert!(rt; lexer.next()?.is_some());
    let bad = LexFault::Bad {
        line: 2,
        kind: LexKind::OpenQuote,
    };
    for _ in 0..2 {
        assert!(rt; lexer.next().err() == Some(bad));
    }
    Ok(())
}

// A file of example.com, in which one record stands elsewhere.
const FILE: &str =
    "@ A 192.0.2.1\na AAAA ::2\n MX 007 .\nb TXT x y\nc CNAME d.e\nf NS g\ng.net. A 1.2.3.4\n@ SOA x\n";

// Of each record the first label, the type and a number.
const RECORDS: [(&str, &str, u128); 7] = [
    ("example", "A", 0xc000_0201),
    ("a", "AAAA", 2),
    ("a", "MX", 7),
    ("b", "TXT", 2),
    ("c", "CNAME", 4),
    ("f", "NS", 3),
    ("example", "other", 0),
];

fn told(body: &Body) -> (&'static str, u128) {
    match body {
        Body::A(number) => ("A", u128::from(*number)),
        Body::Aaaa(number) => ("AAAA", *number),
        Body::Mx(preference, _) => ("MX", u128::from(*preference)),
        Body::Txt(strings) => ("TXT", strings.len() as u128),
        Body::Cname(name) => ("CNAME", name.label_count() as u128),
        Body::Ns(name) => ("NS", name.label_count() as u128),
        Body::Other => ("other", 0),
    }
}

#[test]
fn records_are_read(rt: HostRuntime) -> Result<(), Fail> {
    let origin = Name::from_text(b"example.com")?;
    let records = read_zone(rt.alloc(), &origin, FILE.as_bytes())?;
    assert!(rt; records.len() == RECORDS.len());
    for (record, (label, kind, number)) in records.as_slice().iter().zip(&RECORDS) {
        assert!(rt;
            record.owner.first_label() == Some(label.as_bytes()),
            "at {label}"
        );
        assert!(rt; told(&record.body) == (*kind, *number), "at {label}");
    }
    assert!(rt; are_lendable(&origin, &records));
    assert!(rt; !are_lendable(&Name::from_text(b"a.example.com")?, &records));
    let fault = read_zone(rt.alloc(), &origin, b"a A 192.0.2.1\nb A 1.2.3\nc A x").err();
    let kind = Kind::BadData;
    assert!(rt; fault == Some(ZoneFault::Bad { line: 2, kind }));
    Ok(())
}
