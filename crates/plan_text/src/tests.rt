//! Texts and the numbers that they stand for, both ways.

use crate::{print_number, read_number};
use exact_lin::{Fraction, NoMemory};
use std::alloc::Global;
use std::test::Fail;

const LIMIT: i128 = 170141183460469231731687303715884105727;

fn parts_of(text: &[u8]) -> Option<(i128, i128)> {
    read_number(text).map(|number| (number.num(), number.den()))
}

#[test]
fn texts_stand_for_numbers(rt: HostRuntime) {
    let rows = [
        (b"0".as_slice(), 0, 1),
        (b"-5", -5, 1),
        (b"007", 7, 1),
        (b"-0", 0, 1),
        (b"5.000", 5, 1),
        (b"0.001", 1, 1000),
        (b"-12.5", -25, 2),
        (
            b"1.000000000000000001",
            1000000000000000001,
            1000000000000000000,
        ),
        (b"-2/6", -1, 3),
        (b"0/7", 0, 1),
        (b"170141183460469231731687303715884105727", LIMIT, 1),
        (b"-1/170141183460469231731687303715884105727", -1, LIMIT),
    ];
    for (text, num, den) in rows {
        assert!(rt; parts_of(text) == Some((num, den)), "at {text:?}");
    }
}

#[test]
fn long_texts_stand_for_numbers(rt: HostRuntime) {
    let rows = [
        (
            b"0000000000000000000000000000000000000000000000000000000000001".as_slice(),
            1,
            1,
        ),
        // 2^128 over 2^129
        (
            b"340282366920938463463374607431768211456/680564733841876926926749214863536422912",
            1,
            2,
        ),
        (
            b"3000000000000000000000000000000000000000000000/7000000000000000000000000000000000000000000000",
            3,
            7,
        ),
    ];
    for (text, num, den) in rows {
        assert!(rt; parts_of(text) == Some((num, den)), "at {text:?}");
    }
}

#[test]
fn other_texts_stand_for_none(rt: HostRuntime) {
    for text in [
        b"500000000000000000000000000000000000000.500/1".as_slice(),
        b"170141183460469231731687303715884105728",
        b"1/170141183460469231731687303715884105728",
        b"100000000000000000000000000000000000000001/100000000000000000000000000000000000000000",
        b"1.0000000000000000000",
        b"5.",
        b".5",
        b"",
        b"-",
        b"--1",
        b"+5",
        b" 5",
        b"5 ",
        b"1/0",
        b"1/",
        b"/2",
        b"1/-2",
        b"1.5/2",
        b"1e5",
    ] {
        assert!(rt; parts_of(text).is_none(), "at {text:?}");
    }
}

// Whether a fraction is printed so, and this text is read as the same fraction.
fn prints(alloc: Global, num: i128, den: i128, wanted: &[u8]) -> Result<bool, NoMemory> {
    let Some(number) = Fraction::of_parts(num, den) else {
        return Ok(false);
    };
    let text = print_number(alloc, number)?;
    Ok(text.as_slice() == wanted && read_number(&text) == Some(number))
}

#[test]
fn numbers_have_one_text(rt: HostRuntime) -> Result<(), Fail> {
    let rows = [
        (0, 1, b"0.000".as_slice()),
        (5, 1, b"5.000"),
        (1, 1000, b"0.001"),
        (12501, 500, b"25.002"),
        (-3, 2, b"-1.500"),
        (1, 8, b"0.125"),
        (-1, 16, b"-0.0625"),
        (1, 1000000000000000000, b"0.000000000000000001"),
        (1, 10000000000000000000, b"1/10000000000000000000"),
        (1, 3, b"1/3"),
        (-22, 7, b"-22/7"),
        (LIMIT, 2, b"85070591730234615865843651857942052863.500"),
        (-LIMIT, 3, b"-170141183460469231731687303715884105727/3"),
    ];
    for (num, den, wanted) in rows {
        assert!(rt; prints(rt.alloc(), num, den, wanted)?, "at {num}/{den}");
    }
    Ok(())
}
