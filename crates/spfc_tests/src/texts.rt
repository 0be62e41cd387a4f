//! Texts that are read and written again by calls that the program does not make.

use addr_bits::Bytes;
use dns_name::Name;
use spf_grammar::{parse, write_policy};
use spf_macros::{read_macro_text, write_macro_text};
use std::alloc::{AllocError, Global};
use std::test::Fail;

// A record, and its policy as it is written.
const REWRITTEN: [(&str, &str); 25] = [
    (
        "V=SPF1  A/24//64 +MX:x.example.com ",
        "v=spf1 a/24//64 mx:x.example.com",
    ),
    ("v=spf1 ip4:192.0.2.1/24", "v=spf1 ip4:192.0.2.0/24"),
    ("v=spf1   ", "v=spf1"),
    ("V=sPf1 -ALL", "v=spf1 -all"),
    ("v=spf1 +All ?aLL ~all", "v=spf1 all ?all ~all"),
    ("v=spf1 INCLUDE:a.example", "v=spf1 include:a.example"),
    ("v=spf1 A:x.example/0//0", "v=spf1 a:x.example/0//0"),
    ("v=spf1 a/32//128", "v=spf1 a"),
    ("v=spf1 mX:a.b/32", "v=spf1 mx:a.b"),
    ("v=spf1 PTR:Example.COM", "v=spf1 ptr:Example.COM"),
    ("v=spf1 EXISTS:%{d999r-+}.x", "v=spf1 exists:%{d255r-+}.x"),
    ("v=spf1 exists:%{D1R-.}", "v=spf1 exists:%{D1r.-}"),
    ("v=spf1 IP4:1.2.3.4/32", "v=spf1 ip4:1.2.3.4"),
    ("v=spf1 ip4:255.255.255.255/0", "v=spf1 ip4:0.0.0.0/0"),
    ("v=spf1 ?ip4:10.1.2.3/9", "v=spf1 ?ip4:10.0.0.0/9"),
    ("v=spf1 ip6:::1.2.3.4/64", "v=spf1 ip6:::/64"),
    ("v=spf1 IP6:2001:DB8::1", "v=spf1 ip6:2001:db8::1"),
    (
        "v=spf1 ip6:1:2:3:4:5:6:7:8/128",
        "v=spf1 ip6:1:2:3:4:5:6:7:8",
    ),
    ("v=spf1 -ip6:ffff::/1", "v=spf1 -ip6:8000::/1"),
    ("v=spf1 REDIRECT=%{d}", "v=spf1 redirect=%{d}"),
    (
        "v=spf1 Exp=a.b redirect=a.b -all",
        "v=spf1 exp=a.b redirect=a.b -all",
    ),
    ("v=spf1 A.b-C_1=%%%_%-", "v=spf1 a.b-c_1=%%%_%-"),
    ("v=spf1 x=1 x=2 X=3", "v=spf1 x=1 x=2 x=3"),
    ("v=spf1 a:a.b//0 +a:a.b/0", "v=spf1 a:a.b//0 a:a.b/0"),
    ("v=spf1  ~MX//1  ?PTR:%{h}  ", "v=spf1 ~mx//1 ?ptr:%{h}"),
];

// Records in written form.
const WRITTEN: [&str; 25] = [
    "v=spf1",
    "v=spf1 a=b",
    "v=spf1 -include:%{d}",
    "v=spf1 a//64",
    "v=spf1 a/24",
    "v=spf1 a:a/b.example/24",
    "v=spf1 a:x.example.//7",
    "v=spf1 a:0/1.x9//9",
    "v=spf1 -mx:%{d2}.b/8//16",
    "v=spf1 ptr",
    "v=spf1 exists:%{ir}.x",
    "v=spf1 ip4:1.2.3.4",
    "v=spf1 ip6:::/0",
    "v=spf1 redirect=x.example",
    "v=spf1 exp=%{c}.%{R}.%{t}",
    "v=spf1 all=",
    "v=spf1 a=",
    "v=spf1 x=%{c}%{r}%{t}",
    "v=spf1 include=:/",
    "v=spf1 exp=a.b expo=",
    "v=spf1 ip4=1",
    "v=spf1 x==",
    "v=spf1 a:%{d/}/24",
    "v=spf1 a:.c-m",
    "v=spf1 redirect=a%%",
];

fn record(alloc: Global, text: &str) -> Result<Option<Bytes>, AllocError> {
    match parse(alloc, text.as_bytes())? {
        Some(policy) => Ok(Some(write_policy(alloc, &policy)?)),
        None => Ok(None),
    }
}

#[test]
fn records_are_written(rt: HostRuntime) -> Result<(), Fail> {
    for (text, want) in &REWRITTEN {
        let written = record(rt.alloc(), text)?.ok_or("no record")?;
        assert!(rt; written.as_slice() == want.as_bytes(), "at {text}");
    }
    for text in &WRITTEN {
        let written = record(rt.alloc(), text)?.ok_or("no record")?;
        assert!(rt; written.as_slice() == text.as_bytes(), "at {text}");
    }
    Ok(())
}

// A macro text, and how it is written.
const MACRO_TEXTS: [(&str, &str); 9] = [
    ("", ""),
    ("!~", "!~"),
    ("%{S1r.-+,/_=}.1", "%{S1r.-+,/_=}.1"),
    ("%{c}%{R}%{t}", "%{c}%{R}%{t}"),
    ("a.b-", "a.b-"),
    ("%{DR}", "%{Dr}"),
    ("%{d007}", "%{d7}"),
    ("%{d999r-+-}", "%{d255r-+}"),
    ("%{v=._}", "%{v._=}"),
];

fn macro_text(alloc: Global, text: &str) -> Result<Option<Bytes>, AllocError> {
    match read_macro_text(alloc, text.as_bytes())? {
        Some(pieces) => Ok(Some(write_macro_text(alloc, &pieces)?)),
        None => Ok(None),
    }
}

#[test]
fn macro_texts_are_written(rt: HostRuntime) -> Result<(), Fail> {
    for (text, want) in &MACRO_TEXTS {
        let written = macro_text(rt.alloc(), text)?.ok_or("no macro text")?;
        assert!(rt; written.as_slice() == want.as_bytes(), "at {text}");
    }
    Ok(())
}

// A printed name, and its first label.
const PRINTED: [(&str, Option<&str>); 4] = [
    (".", None),
    ("www.example.com", Some("www")),
    ("a\\046b.x", Some("a.b")),
    ("\\064\\036.com", Some("@$")),
];

// Texts that no name is printed as.
const NOT_PRINTED: [&str; 11] = [
    "", "a.", "..", "A", "\\065", "\\097", "\\256", "\\09", "a@b", "a b", "\\x41",
];

#[test]
fn printed_names_are_read(rt: HostRuntime) -> Result<(), Fail> {
    for (text, label) in &PRINTED {
        let name = Name::from_printed(text.as_bytes()).ok_or("no name")?;
        assert!(rt; name.first_label() == label.map(str::as_bytes), "at {text}");
        let printed = name.write_text(rt.alloc())?;
        assert!(rt; printed.as_slice() == text.as_bytes(), "at {text}");
    }
    for text in &NOT_PRINTED {
        assert!(rt; Name::from_printed(text.as_bytes()).is_none(), "at {text}");
    }
    Ok(())
}
