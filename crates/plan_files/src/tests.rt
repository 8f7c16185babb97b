//! Texts cut by hand.

mod trips;

use crate::{next_written, read_words};

// How many words the line of a plan has a bracket for: 1, 0, or 2 where it is no plan line.
fn brackets(line: &[u8]) -> u32 {
    match read_words(line) {
        Some(text) => { if text.duration.is_some() { 1 } else { 0 } }
        None => 2,
    }
}

fn are_cut_as_told() -> bool {
    let cases: [(&[u8], u32); 6] = [
        (b"0.000: (go) [5.000]", 1),
        (b"1 : ( go a b )", 0),
        (b"1:(go)[2", 2),
        (b"1: go", 2),
        (b"1: (go) 2", 2),
        (b"", 2),
    ];
    for (line, expected) in cases {
        if brackets(line) != expected {
            return false;
        }
    }
    true
}

fn is_third_line() -> bool {
    match next_written(b"\n ;a\n0: (go)", 1) {
        Some(written) => written.number == 3,
        None => false,
    }
}

#[test]
fn lines_are_cut(rt: HostRuntime) {
    assert!(&rt; are_cut_as_told() && is_third_line());
}
