//! Flat terms and the rows of a table, by calls that the program does not make.
ghost use Rattle.std.specs.Prelude.{◌<◌, ◌≤◌, ◌^◌};
ghost use Rattle.spf_grammar.specs.declared.verdict.Verdict.{Verdict};
ghost use Rattle.fewest_terms.specs.Tables.{number};

use addr_bits::{Address, Prefix};
use bound_table::{TableFault, check_row, read_table, write_table};
use fewest_terms::{Needs, Row, Rows};
use spf_grammar::{FlatTerm, Net, Verdict, first};
use std::test::Fail;

fn needs(fail: u8, softfail: u8, pass: u8, neutral: u8) -> Needs
    ensures { (c : Verdict) → number result c < 2 ^ 32 }
{
    Needs {
        fail: u64::from(fail),
        softfail: u64::from(softfail),
        pass: u64::from(pass),
        neutral: u64::from(neutral),
    }
}

#[test]
fn rows_keep_the_rule(rt: HostRuntime) {
    let low = needs(1, 1, 0, 1);
    let high = needs(0, 1, 1, 1);
    for (row, answer) in [
        (needs(1, 2, 1, 2), true),
        (needs(0, 0, 0, 0), true),
        (needs(2, 2, 1, 2), false),
        (needs(1, 3, 1, 2), false),
        (needs(1, 2, 2, 2), false),
        (needs(1, 2, 1, 3), false),
    ] {
        assert!(rt; check_row(&row, &low, &high) == answer);
    }
}

#[test]
fn a_table_is_written(rt: HostRuntime) -> Result<(), Fail> {
    let mut rows4 = Rows::new(rt.alloc());
    rows4.push(Row {
        prefix: Prefix::new(0u32, 0),
        needs: needs(1, 2, 1, 2),
    })?;
    let mut rows6 = Rows::new(rt.alloc());
    rows6.push(Row {
        prefix: Prefix::new(0x2001_0db8u128 << 96, 32),
        needs: needs(255, 3, 20, 1),
    })?;
    let lines = write_table(rt.alloc(), &rows4, &rows6, 10)?;
    let wanted: &[u8] = b"; row 0.0.0.0/0 1 2 1 2\n; row 2001:db8::/32 255 3 20 1\n; fewest 10\n";
    assert!(rt; lines.as_slice() == wanted);
    Ok(())
}

// The lines that `read_table` takes: those of a table may stand among others.
const READ: &[u8] =
    b"$TTL 3600\n; row 0.0.0.0/0 1 2 1 2\n; rows\n; row 2001:db8::/32 255 3 20 1\n; fewest 10\n";

#[test]
fn a_table_is_read(rt: HostRuntime) -> Result<(), Fail> {
    let Ok(table) = read_table(rt.alloc(), READ) else {
        assert!(rt; false);
        return Ok(());
    };
    assert!(rt; table.rows4.len() == 1 && table.rows6.len() == 1);
    assert!(rt; table.total == 10 && table.last == 5);
    let fault = read_table(rt.alloc(), b"; row 0.0.0.0/0 1 2 1\n; fewest 10\n").err();
    assert!(rt; matches!(fault, Some(TableFault::NotTable { line: 1 })));
    Ok(())
}

fn term(verdict: Verdict, net: Net) -> FlatTerm {
    FlatTerm { verdict, net }
}

#[test]
fn the_first_term_decides(rt: HostRuntime) {
    let list = [
        term(Verdict::Fail, Net::V4(Prefix::new(0x0a01_0000, 16))),
        term(Verdict::Pass, Net::V4(Prefix::new(0x0a00_0000, 8))),
        term(Verdict::SoftFail, Net::V6(Prefix::new(0, 1))),
    ];
    for (address, verdict) in [
        (Address::V4(0x0a01_0203), Verdict::Fail),
        (Address::V4(0x0a02_0203), Verdict::Pass),
        (Address::V4(0), Verdict::Neutral),
        (Address::V6(0x0a01_0203), Verdict::SoftFail),
        (Address::V6(u128::MAX), Verdict::Neutral),
    ] {
        assert!(rt; first(&list, address) == verdict);
    }
    assert!(rt; first(&[term(Verdict::Pass, Net::All)], Address::V6(0)) == Verdict::Pass);
}
