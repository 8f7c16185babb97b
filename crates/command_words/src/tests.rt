//! Tests of what no clause says: that words are read where there is memory.

use crate::{Limits, Request, read_words};
use exact_lin::Fraction;
use std::alloc::{AllocError, Global};

fn split_words(alloc: Global, line: &str) -> Result<Vec<String>, AllocError> {
    let mut words = Vec::new(alloc);
    for word in line.split_whitespace() {
        words.push(String::from_str(alloc, word)?)?;
    }
    Ok(words)
}

fn are_limits(limits: Limits, epsilon: (i128, i128), horizon: (i128, i128)) -> bool {
    Fraction::of_parts(epsilon.0, epsilon.1) == Some(limits.epsilon)
        && Fraction::of_parts(horizon.0, horizon.1) == Some(limits.horizon)
}

fn is_validate(alloc: Global, line: &str, epsilon: (i128, i128), horizon: (i128, i128)) -> bool {
    let Ok(words) = split_words(alloc, line) else {
        return false;
    };
    match read_words(alloc, &words) {
        Ok(Some(Request::Validate { files, limits })) => {
            files.domain == "d"
                && files.problem == "p"
                && files.third == "q"
                && are_limits(limits, epsilon, horizon)
        }
        _ => false,
    }
}

fn is_schedule(alloc: Global, line: &str, budgets: (u64, u64)) -> bool {
    let Ok(words) = split_words(alloc, line) else {
        return false;
    };
    match read_words(alloc, &words) {
        Ok(
            Some(
                Request::Schedule {
                    files,
                    limits,
                    pivots,
                    leaves,
                },
            ),
        ) => {
            files.third == "q"
                && are_limits(limits, (1, 1000), (1_000_000, 1))
                && (pivots, leaves) == budgets
        }
        _ => false,
    }
}

fn is_refused(alloc: Global, line: &str) -> bool {
    let Ok(words) = split_words(alloc, line) else {
        return false;
    };
    match read_words(alloc, &words) {
        Ok(None) => true,
        _ => false,
    }
}

#[test]
fn validate_is_read_with_its_limits(rt: HostRuntime) {
    let cases = [
        ("validate d p q", (1, 1000), (1_000_000, 1)),
        ("validate --epsilon 1/2 d p q", (1, 2), (1_000_000, 1)),
        (
            "validate d --horizon=1000000000 p q",
            (1, 1000),
            (1_000_000_000, 1),
        ),
        (
            "validate d p q --epsilon 1000 --horizon 0.5",
            (1000, 1),
            (1, 2),
        ),
    ];
    for (line, epsilon, horizon) in cases {
        assert!(rt; is_validate(rt.alloc(), line, epsilon, horizon));
    }
}

#[test]
fn schedule_is_read_with_its_budgets(rt: HostRuntime) {
    let cases = [
        ("schedule d p q", (20_000, 4096)),
        ("schedule d p q --pivots 0 --leaves 1", (0, 1)),
        (
            "schedule --pivots=1000000 d --leaves=65536 p q",
            (1_000_000, 65_536),
        ),
    ];
    for (line, budgets) in cases {
        assert!(rt; is_schedule(rt.alloc(), line, budgets));
    }
}

#[test]
fn other_words_are_refused(rt: HostRuntime) {
    let cases = [
        "",
        "validat d p q",
        "validate d p",
        "validate d p q r",
        "validate d p q --epsilon 0",
        "validate d p q --epsilon 1000.001",
        "validate d p q --horizon=-1",
        "validate d p q --horizon 1000000001",
        "validate d p q --pivots 1",
        "validate d p q --help",
        "schedule d p q --pivots 1000001",
        "schedule d p q --pivots 00000000001",
        "schedule d p q --leaves 0",
        "schedule d p q --leaves 65537",
        "schedule d p q --leaves 1.0",
        "--version",
    ];
    for line in cases {
        assert!(rt; is_refused(rt.alloc(), line));
    }
}
