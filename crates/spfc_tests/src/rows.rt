//! Words and files, and what `run` makes of them.

/// A file's name and its contents.
pub(crate) type File<'a> = (&'a str, &'a str);

/// What `run` does: it writes an output that begins and ends so, with status 0, or it refuses with a status and a line.
pub(crate) enum Want<'a> {
    Output { begins: &'a str, ends: &'a str },
    Line { status: u8, line: &'a str },
}

/// Words, files, and what `run` does.
pub(crate) struct Row<'a> {
    pub words: &'a str,
    pub files: &'a [File<'a>],
    pub want: Want<'a>,
}

/// Words that compile one zone.
pub(crate) const COMPILE: &str = "compile example.com example.com=z";

/// A network in two halves.
pub(crate) const TWO_HALVES: &str =
    "@ IN TXT \"v=spf1 ip4:192.0.2.0/25 ip4:192.0.2.128/25 -all\"\n";

/// Policies, and what comes of them. What takes large files is in `tests/cases`.
pub(crate) const ROWS: [Row<'static>; 46] = [
    // Two halves are one network.
    Row {
        words: COMPILE,
        files: &[("z", TWO_HALVES)],
        want: Want::Output {
            begins: "\
                $ORIGIN example.com.\n$TTL 3600\n@ IN TXT \"v=spf1 ip4:192.0.2.0/24 -all\"\n\
                ; row 0.0.0.0/0 1 2 2 2\n; row 128.0.0.0/1 1 2 2 2\n",
            ends: "; row 192.0.0.0/22 1 2 2 2\n; row 192.0.2.0/23 1 2 1 2\n; fewest 2\n",
        },
    },
    // Neutral needs no term.
    Row {
        words: COMPILE,
        files: &[("z", "@ IN TXT \"v=spf1 ?all\"\n")],
        want: Want::Output {
            begins: "$ORIGIN example.com.\n$TTL 3600\n@ IN TXT \"v=spf1\"\n; fewest 0\n",
            ends: "; fewest 0\n",
        },
    },
    // One `all`.
    Row {
        words: COMPILE,
        files: &[("z", "@ IN TXT \"v=spf1 +all\"\n")],
        want: Want::Output {
            begins: "$ORIGIN example.com.\n$TTL 3600\n@ IN TXT \"v=spf1 all\"\n; fewest 1\n",
            ends: "; fewest 1\n",
        },
    },
    // A hole costs one term.
    Row {
        words: COMPILE,
        files: &[(
            "z",
            "@ IN TXT \"v=spf1 -ip4:10.1.0.0/16 ip4:10.0.0.0/8 -all\"\n",
        )],
        want: Want::Output {
            begins: "$ORIGIN example.com.\n$TTL 3600\n@ IN TXT \"v=spf1 -ip4:10.1.0.0/16 ip4:10.0.0.0/8 -all\"\n",
            ends: "; fewest 3\n",
        },
    },
    // A redirect beside `all` is never asked for.
    Row {
        words: COMPILE,
        files: &[(
            "z",
            "@ IN TXT \"v=spf1 ip4:192.0.2.0/24 -all redirect=other.invalid\"\n",
        )],
        want: Want::Output {
            begins: "$ORIGIN example.com.\n$TTL 3600\n@ IN TXT \"v=spf1 ip4:192.0.2.0/24 -all\"\n",
            ends: "; fewest 2\n",
        },
    },
    // An include beside a network.
    Row {
        words: "compile example.com example.com=z example.net=y",
        files: &[
            (
                "z",
                "@ IN TXT \"v=spf1 include:inc.example.net ip4:198.51.100.0/24 -all\"\n",
            ),
            ("y", "inc TXT \"v=spf1 ip4:192.0.2.0/24 -all\"\n"),
        ],
        want: Want::Output {
            begins: "$ORIGIN example.com.\n$TTL 3600\n@ IN TXT \"v=spf1 ip4:192.0.2.0/24 ip4:198.51.100.0/24 -all\"\n",
            ends: "; fewest 3\n",
        },
    },
    // What an include does not match is looked for further on.
    Row {
        words: "compile example.com example.com=z example.net=y",
        files: &[
            (
                "z",
                "@ IN TXT \"v=spf1 include:inc.example.net ip4:198.51.100.0/24 -all\"\n",
            ),
            ("y", "inc TXT \"v=spf1 ip4:192.0.2.0/24 ~all\"\n"),
        ],
        want: Want::Output {
            begins: "$ORIGIN example.com.\n$TTL 3600\n@ IN TXT \"v=spf1 ip4:192.0.2.0/24 ip4:198.51.100.0/24 -all\"\n",
            ends: "; fewest 3\n",
        },
    },
    // Eleven lookups.
    Row {
        words: COMPILE,
        files: &[(
            "z",
            "\
            @ IN TXT \"v=spf1 ip4:0.0.0.0/1 a:h1.example.com a:h2.example.com a:h3.example.com a:h4.example.com \
            a:h5.example.com a:h6.example.com a:h7.example.com a:h8.example.com a:h9.example.com \
            a:h10.example.com a:h11.example.com -all\"\nh1 A 192.0.2.1\nh1 AAAA 2001:db8::1\n\
            h2 A 192.0.2.2\nh2 AAAA 2001:db8::2\nh3 A 192.0.2.3\nh3 AAAA 2001:db8::3\nh4 A 192.0.2.4\n\
            h4 AAAA 2001:db8::4\nh5 A 192.0.2.5\nh5 AAAA 2001:db8::5\nh6 A 192.0.2.6\nh6 AAAA 2001:db8::6\n\
            h7 A 192.0.2.7\nh7 AAAA 2001:db8::7\nh8 A 192.0.2.8\nh8 AAAA 2001:db8::8\nh9 A 192.0.2.9\n\
            h9 AAAA 2001:db8::9\nh10 A 192.0.2.10\nh10 AAAA 2001:db8::a\nh11 A 192.0.2.11\n\
            h11 AAAA 2001:db8::b\n",
        )],
        want: Want::Line {
            status: 1,
            line: "refused 128.0.0.0 lookups example.com 12\n",
        },
    },
    // Ten lookups.
    Row {
        words: COMPILE,
        files: &[(
            "z",
            "\
            @ IN TXT \"v=spf1 ip4:0.0.0.0/1 a:h1.example.com a:h2.example.com a:h3.example.com a:h4.example.com \
            a:h5.example.com a:h6.example.com a:h7.example.com a:h8.example.com a:h9.example.com \
            a:h10.example.com -all\"\nh1 A 192.0.2.1\nh1 AAAA 2001:db8::1\nh2 A 192.0.2.2\n\
            h2 AAAA 2001:db8::2\nh3 A 192.0.2.3\nh3 AAAA 2001:db8::3\nh4 A 192.0.2.4\nh4 AAAA 2001:db8::4\n\
            h5 A 192.0.2.5\nh5 AAAA 2001:db8::5\nh6 A 192.0.2.6\nh6 AAAA 2001:db8::6\nh7 A 192.0.2.7\n\
            h7 AAAA 2001:db8::7\nh8 A 192.0.2.8\nh8 AAAA 2001:db8::8\nh9 A 192.0.2.9\nh9 AAAA 2001:db8::9\n\
            h10 A 192.0.2.10\nh10 AAAA 2001:db8::a\n",
        )],
        want: Want::Output {
            begins: "$ORIGIN example.com.\n$TTL 3600\n@ IN TXT \"v=spf1 ",
            ends: "; fewest 10\n",
        },
    },
    // Three void lookups, of IPv6 alone.
    Row {
        words: COMPILE,
        files: &[(
            "z",
            "\
            @ IN TXT \"v=spf1 a:h1.example.com a:h2.example.com a:h3.example.com -all\"\nh1 A 192.0.2.1\n\
            h2 A 192.0.2.2\nh3 A 192.0.2.3\n",
        )],
        want: Want::Line {
            status: 1,
            line: "refused :: voids example.com 3\n",
        },
    },
    // They are not asked for where every IPv6 address has its verdict.
    Row {
        words: COMPILE,
        files: &[(
            "z",
            "\
            @ IN TXT \"v=spf1 ip6:::/0 a:h1.example.com a:h2.example.com a:h3.example.com -all\"\n\
            h1 A 192.0.2.1\nh2 A 192.0.2.2\nh3 A 192.0.2.3\n",
        )],
        want: Want::Output {
            begins: "\
                $ORIGIN example.com.\n$TTL 3600\n\
                @ IN TXT \"v=spf1 ip4:192.0.2.1 ip4:192.0.2.2/31 -ip4:0.0.0.0/0 ip6:::/0\"\n",
            ends: "; fewest 4\n",
        },
    },
    // A network of all addresses of a family.
    Row {
        words: COMPILE,
        files: &[("z", "@ IN TXT \"v=spf1 ip6:::/0 -all\"\n")],
        want: Want::Output {
            begins: "$ORIGIN example.com.\n$TTL 3600\n@ IN TXT \"v=spf1 -ip4:0.0.0.0/0 ip6:::/0\"\n",
            ends: "; fewest 2\n",
        },
    },
    // Eleven exchanges.
    Row {
        words: COMPILE,
        files: &[(
            "z",
            "\
            @ IN TXT \"v=spf1 mx -all\"\n@ MX 10 m1\n@ MX 10 m2\n@ MX 10 m3\n@ MX 10 m4\n@ MX 10 m5\n\
            @ MX 10 m6\n@ MX 10 m7\n@ MX 10 m8\n@ MX 10 m9\n@ MX 10 m10\n@ MX 10 m11\nm1 A 192.0.2.1\n\
            m2 A 192.0.2.2\nm3 A 192.0.2.3\nm4 A 192.0.2.4\nm5 A 192.0.2.5\nm6 A 192.0.2.6\nm7 A 192.0.2.7\n\
            m8 A 192.0.2.8\nm9 A 192.0.2.9\nm10 A 192.0.2.10\nm11 A 192.0.2.11\n",
        )],
        want: Want::Line {
            status: 1,
            line: "refused 0.0.0.0 exchanges example.com 1\n",
        },
    },
    // Ten exchanges, and one that is the root.
    Row {
        words: COMPILE,
        files: &[(
            "z",
            "\
            @ IN TXT \"v=spf1 mx -all\"\n@ MX 10 m1\n@ MX 10 m2\n@ MX 10 m3\n@ MX 10 m4\n@ MX 10 m5\n\
            @ MX 10 m6\n@ MX 10 m7\n@ MX 10 m8\n@ MX 10 m9\n@ MX 10 m10\n@ MX 0 .\nm1 A 192.0.2.1\n\
            m2 A 192.0.2.2\nm3 A 192.0.2.3\nm4 A 192.0.2.4\nm5 A 192.0.2.5\nm6 A 192.0.2.6\nm7 A 192.0.2.7\n\
            m8 A 192.0.2.8\nm9 A 192.0.2.9\nm10 A 192.0.2.10\n",
        )],
        want: Want::Output {
            begins: "\
                $ORIGIN example.com.\n$TTL 3600\n\
                @ IN TXT \"v=spf1 -ip4:192.0.2.0 ip4:192.0.2.0/29 ip4:192.0.2.8/31 ip4:192.0.2.10 -all\"\n",
            ends: "; fewest 5\n",
        },
    },
    // A macro of the sender behind `all`.
    Row {
        words: COMPILE,
        files: &[(
            "z",
            "@ IN TXT \"v=spf1 ip4:192.0.2.0/24 -all include:%{s}.example.net\"\n",
        )],
        want: Want::Output {
            begins: "$ORIGIN example.com.\n$TTL 3600\n@ IN TXT \"v=spf1 ip4:192.0.2.0/24 -all\"\n",
            ends: "; fewest 2\n",
        },
    },
    // A macro of the sender.
    Row {
        words: COMPILE,
        files: &[("z", "@ IN TXT \"v=spf1 include:%{s}.example.net -all\"\n")],
        want: Want::Line {
            status: 1,
            line: "refused 0.0.0.0 sender example.com 1\n",
        },
    },
    // The strings of a record are joined.
    Row {
        words: COMPILE,
        files: &[("z", "@ IN TXT \"v=spf1 ip4:192.0.\" \"2.0/24 -all\"\n")],
        want: Want::Output {
            begins: "$ORIGIN example.com.\n$TTL 3600\n@ IN TXT \"v=spf1 ip4:192.0.2.0/24 -all\"\n",
            ends: "; fewest 2\n",
        },
    },
    // Two SPF records.
    Row {
        words: COMPILE,
        files: &[("z", "@ IN TXT \"v=spf1 -all\"\n@ IN TXT \"v=spf1 ~all\"\n")],
        want: Want::Line {
            status: 1,
            line: "refused 0.0.0.0 records example.com 0\n",
        },
    },
    // Equal records are one.
    Row {
        words: COMPILE,
        files: &[("z", "@ IN TXT \"v=spf1 ?all\"\n@ IN TXT \"v=spf1 ?all\"\n")],
        want: Want::Output {
            begins: "$ORIGIN example.com.\n$TTL 3600\n@ IN TXT \"v=spf1\"\n",
            ends: "; fewest 0\n",
        },
    },
    // An alias into another zone, and a wildcard there.
    Row {
        words: "compile example.com example.com=z example.net=y",
        files: &[
            (
                "z",
                "@ IN TXT \"v=spf1 include:mail.example.com -all\"\nmail CNAME a.example.net.\n",
            ),
            (
                "y",
                "a CNAME x.wild\n*.wild TXT \"v=spf1 ip4:203.0.113.0/24 -all\"\n",
            ),
        ],
        want: Want::Output {
            begins: "$ORIGIN example.com.\n$TTL 3600\n@ IN TXT \"v=spf1 ip4:203.0.113.0/24 -all\"\n",
            ends: "; fewest 2\n",
        },
    },
    // An alias of itself.
    Row {
        words: "compile example.com example.com=z example.net=y",
        files: &[
            (
                "z",
                "@ IN TXT \"v=spf1 include:mail.example.com -all\"\nmail CNAME mail\n",
            ),
            (
                "y",
                "a CNAME x.wild\n*.wild TXT \"v=spf1 ip4:203.0.113.0/24 -all\"\n",
            ),
        ],
        want: Want::Line {
            status: 1,
            line: "refused 0.0.0.0 alias mail.example.com 0\n",
        },
    },
    // Two records.
    Row {
        words: "compile example.com --size 64 example.com=z",
        files: &[(
            "z",
            "@ IN TXT \"v=spf1 ip4:10.0.0.0/8 ip4:192.0.2.0/24 -all\"\n@ TXT \"verify=0123456789\"\n",
        )],
        want: Want::Output {
            begins: "\
                $ORIGIN example.com.\n$TTL 3600\n@ IN TXT \"v=spf1 redirect=_spf1.example.com\"\n\
                _spf1 IN TXT \"v=spf1 ip4:10.0.0.0/8 ip4:192.0.2.0/24 -all\"\n",
            ends: "; fewest 3\n",
        },
    },
    // The name of the second record is taken.
    Row {
        words: "compile example.com --size 64 example.com=z",
        files: &[(
            "z",
            "\
            @ IN TXT \"v=spf1 ip4:10.0.0.0/8 ip4:192.0.2.0/24 -all\"\n@ TXT \"verify=0123456789\"\n\
            _spf1 TXT \"old\"\n",
        )],
        want: Want::Line {
            status: 1,
            line: "refused taken 1 _spf1.example.com\n",
        },
    },
    // Another label.
    Row {
        words: "compile example.com --size 64 --label _spfb example.com=z",
        files: &[(
            "z",
            "\
            @ IN TXT \"v=spf1 ip4:10.0.0.0/8 ip4:192.0.2.0/24 -all\"\n@ TXT \"verify=0123456789\"\n\
            _spf1 TXT \"old\"\n",
        )],
        want: Want::Output {
            begins: "\
                $ORIGIN example.com.\n$TTL 3600\n@ IN TXT \"v=spf1 redirect=_spfb1.example.com\"\n\
                _spfb1 IN TXT \"v=spf1 ip4:10.0.0.0/8 ip4:192.0.2.0/24 -all\"\n",
            ends: "; fewest 3\n",
        },
    },
    // An open quote.
    Row {
        words: COMPILE,
        files: &[(
            "z",
            "$ORIGIN example.com.\n$TTL 1h\n@ IN A 192.0.2.1\n@ IN TXT \"v=spf1 -all\nwww IN A 192.0.2.2\n",
        )],
        want: Want::Line {
            status: 3,
            line: "bad zone z 4 OpenQuote\n",
        },
    },
    // Entries over several lines.
    Row {
        words: COMPILE,
        files: &[(
            "z",
            "\
            @ 3600 IN SOA ns.example.com. admin.example.com. ( 1 7200 ; serial\n  900 1209600\n  300 ) ; end\n\
            @ IN TXT ( \"v=spf1 ip4:192.0.\"  ; first part\n  \"2.0/24\"\n  \" -all\" )\n",
        )],
        want: Want::Output {
            begins: "$ORIGIN example.com.\n$TTL 3600\n@ IN TXT \"v=spf1 ip4:192.0.2.0/24 -all\"\n",
            ends: "; fewest 2\n",
        },
    },
    // No record.
    Row {
        words: COMPILE,
        files: &[("z", "")],
        want: Want::Line {
            status: 1,
            line: "refused 0.0.0.0 norecord example.com 0\n",
        },
    },
    // No such file.
    Row {
        words: COMPILE,
        files: &[],
        want: Want::Line {
            status: 3,
            line: "no file z\n",
        },
    },
    // A tangle of several senders.
    Row {
        words: "compile example.com example.com=z mailone.example=one mailtwo.example=two",
        files: &[
            (
                "z",
                "\
            @ MX 10 mail\nmail A 203.0.113.10\nmail AAAA 2001:db8:ffff::10\n\
            @ IN TXT \"v=spf1 mx include:_spf.mailone.example include:spf.mailtwo.example ip4:203.0.113.17 \
            ~all\"\n",
            ),
            (
                "one",
                "\
            _spf TXT \"v=spf1 include:_nb1.mailone.example include:_nb2.mailone.example \
            include:_nb3.mailone.example ~all\"\n\
            _nb1 TXT \"v=spf1 ip4:198.18.0.0/24 ip4:198.18.2.0/24 ip4:198.18.4.0/24 ip4:198.18.6.0/24 \
            ip4:198.18.8.0/24 ip4:198.18.10.0/24 ip4:198.18.12.0/24 ip4:198.18.14.0/24 ip4:198.18.16.0/24 \
            ip4:198.18.18.0/24 ip4:198.18.20.0/24 ip4:198.18.22.0/24 ip4:198.18.24.0/24 ip4:19\" \"8.18.26.0/24 \
            ip4:198.18.28.0/24 ip4:198.18.30.0/24 ip4:198.18.32.0/24 ip4:198.18.34.0/24 ip4:198.18.36.0/24 \
            ip4:198.18.38.0/24 ip4:198.18.40.0/24 ip4:198.18.42.0/24 ip4:198.18.44.0/24 ip4:198.18.46.0/24 \
            ~all\"\n\
            _nb2 TXT \"v=spf1 ip6:2001:db8:0::/48 ip6:2001:db8:2::/48 ip6:2001:db8:4::/48 ip6:2001:db8:6::/48 \
            ip6:2001:db8:8::/48 ip6:2001:db8:a::/48 ip6:2001:db8:c::/48 ip6:2001:db8:e::/48 \
            ip6:2001:db8:10::/48 ip6:2001:db8:12::/48 ip6:2001:db8:14::/48 ip6:2001:db8:16::/48 ip6:\" \
            \"2001:db8:18::/48 ip6:2001:db8:1a::/48 ip6:2001:db8:1c::/48 ip6:2001:db8:1e::/48 \
            ip6:2001:db8:20::/48 ip6:2001:db8:22::/48 ip6:2001:db8:24::/48 ip6:2001:db8:26::/48 ~all\"\n\
            _nb3 TXT \"v=spf1 ip4:198.18.0.0/24 ip4:198.19.0.0/25 ip4:198.19.0.128/25 ~all\"\n",
            ),
            (
                "two",
                "\
            spf TXT \"v=spf1 include:a.mailtwo.example include:b.mailtwo.example -all\"\n\
            a TXT \"v=spf1 ip4:198.51.100.0/29 ip4:198.51.100.16/29 ip4:198.51.100.32/29 ip4:198.51.100.48/29 \
            ip4:198.51.100.64/29 ip4:198.51.100.80/29 ip4:198.51.100.96/29 ip4:198.51.100.112/29 -all\"\n\
            b TXT \"v=spf1 ip4:198.51.100.0/29 ip4:198.51.100.16/29 ip4:198.51.100.32/29 ?all\"\n",
            ),
        ],
        want: Want::Output {
            begins: "$ORIGIN example.com.\n$TTL 3600\n@ IN TXT \"v=spf1 ",
            ends: "; fewest 57\n",
        },
    },
    // The outcome of one address.
    Row {
        words: "check example.com 192.0.2.7 example.com=z",
        files: &[("z", TWO_HALVES)],
        want: Want::Output {
            begins: "pass\n",
            ends: "pass\n",
        },
    },
    // Of an IPv6 address.
    Row {
        words: "check example.com ::1 example.com=z",
        files: &[("z", TWO_HALVES)],
        want: Want::Output {
            begins: "fail\n",
            ends: "fail\n",
        },
    },
    // A mapped address is an IPv6 address.
    Row {
        words: "check example.com ::ffff:192.0.2.7 example.com=z",
        files: &[("z", TWO_HALVES)],
        want: Want::Output {
            begins: "fail\n",
            ends: "fail\n",
        },
    },
    // An outcome that is left open.
    Row {
        words: "check example.com 192.0.2.7 example.com=z",
        files: &[("z", "@ IN TXT \"v=spf1 include:%{s}.example.net -all\"\n")],
        want: Want::Output {
            begins: "open sender example.com 1\n",
            ends: "open sender example.com 1\n",
        },
    },
    // A record with an unknown term.
    Row {
        words: "check example.com 192.0.2.7 example.com=z",
        files: &[("z", "@ IN TXT \"v=spf1 foo -all\"\n")],
        want: Want::Output {
            begins: "permerror syntax example.com 0\n",
            ends: "permerror syntax example.com 0\n",
        },
    },
    // No record.
    Row {
        words: "check example.com 192.0.2.7 example.com=z",
        files: &[("z", "")],
        want: Want::Output {
            begins: "none norecord example.com 0\n",
            ends: "none norecord example.com 0\n",
        },
    },
    // The written form of an address.
    Row {
        words: COMPILE,
        files: &[(
            "z",
            "@ IN TXT \"v=spf1 ip6:2001:0DB8:0:0:1:0:0:1/127 -all\"\n",
        )],
        want: Want::Output {
            begins: "$ORIGIN example.com.\n$TTL 3600\n@ IN TXT \"v=spf1 ip6:2001:db8:0:0:1::/127 -all\"\n",
            ends: "; fewest 2\n",
        },
    },
    // An include without a record.
    Row {
        words: COMPILE,
        files: &[(
            "z",
            "@ IN TXT \"v=spf1 include:nowhere.example.com -all\"\n",
        )],
        want: Want::Line {
            status: 1,
            line: "refused 0.0.0.0 missing example.com 1\n",
        },
    },
    // A name of no zone.
    Row {
        words: COMPILE,
        files: &[("z", "@ IN TXT \"v=spf1 include:a.example.org -all\"\n")],
        want: Want::Line {
            status: 1,
            line: "refused 0.0.0.0 outside a.example.org 0\n",
        },
    },
    // A target that is no name.
    Row {
        words: COMPILE,
        files: &[("z", "@ IN TXT \"v=spf1 a:.com -all\"\n")],
        want: Want::Line {
            status: 1,
            line: "refused 0.0.0.0 target example.com 1\n",
        },
    },
    // The name of the address.
    Row {
        words: COMPILE,
        files: &[("z", "@ IN TXT \"v=spf1 ptr -all\"\n")],
        want: Want::Line {
            status: 1,
            line: "refused 0.0.0.0 reverse example.com 1\n",
        },
    },
    // A record that includes itself.
    Row {
        words: COMPILE,
        files: &[("z", "@ IN TXT \"v=spf1 include:example.com -all\"\n")],
        want: Want::Line {
            status: 1,
            line: "refused 0.0.0.0 lookups example.com 1\n",
        },
    },
    // A domain of one label.
    Row {
        words: "compile example example.com=z",
        files: &[("z", TWO_HALVES)],
        want: Want::Line {
            status: 4,
            line: "usage\n",
        },
    },
    // A size that is too small.
    Row {
        words: "compile example.com --size 63 example.com=z",
        files: &[("z", TWO_HALVES)],
        want: Want::Line {
            status: 4,
            line: "usage\n",
        },
    },
    // Two zones of one origin.
    Row {
        words: "compile example.com example.com=z EXAMPLE.com=y",
        files: &[("z", TWO_HALVES), ("y", TWO_HALVES)],
        want: Want::Line {
            status: 4,
            line: "usage\n",
        },
    },
    // An alias beside another record.
    Row {
        words: COMPILE,
        files: &[("z", "w CNAME x\nw A 192.0.2.1\n")],
        want: Want::Line {
            status: 3,
            line: "alias and other example.com w.example.com\n",
        },
    },
    // An alias at the domain.
    Row {
        words: "compile example.com example.com=z example.net=y",
        files: &[
            ("z", "@ CNAME p.example.net.\n"),
            ("y", "p TXT \"v=spf1 -all\"\n"),
        ],
        want: Want::Line {
            status: 1,
            line: "refused alias example.com\n",
        },
    },
];
