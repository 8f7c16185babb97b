//! What an automaton remembers of the states so far, and how one state more changes it.

ghost use Rattle.std.specs.Prelude.{◌≡◌};
ghost use Rattle.trajectory.specs.Passing.{first_flags, next_flags, kept_or_now};

use task_types::TrailKind;

/// What is remembered of the states so far: whether they meet the constraint; for an at-most-once, whether its formula
/// held (`seen`) and then failed (`over`); for a sometime-before, whether its second formula held (`seen`).
#[derive(Clone, Copy, Drop)]
pub struct Flags {
    pub met: bool,
    pub seen: bool,
    pub over: bool,
}

/// The flags before the first state.
pub fn begin(kind: TrailKind) -> Flags
    ensures { result ≡ first_flags kind }
{
    let met = match kind {
        TrailKind::Always => true,
        TrailKind::Sometime => false,
        TrailKind::Within => false,
        TrailKind::AtMostOnce => true,
        TrailKind::SometimeAfter => true,
        TrailKind::SometimeBefore => true,
        TrailKind::AtEnd => false,
    };
    Flags {
        met,
        seen: false,
        over: false,
    }
}

/// The flags after one state more, in which the two formulas hold or not.
pub fn go_on(kind: TrailKind, first: bool, second: bool, flags: Flags) -> Flags
    ensures { result ≡ next_flags kind first second flags }
{
    let Flags { met, seen, over } = flags;
    match kind {
        TrailKind::Always => Flags {
            met: met && first,
            seen,
            over,
        },
        TrailKind::Sometime | TrailKind::Within => Flags {
            met: met || first,
            seen,
            over,
        },
        TrailKind::AtMostOnce => Flags {
            met: met && !(first && over),
            seen: seen || first,
            over: over || (seen && !first),
        },
        TrailKind::SometimeAfter => Flags {
            met: second || (met && !first),
            seen,
            over,
        },
        TrailKind::SometimeBefore => Flags {
            met: met && (!first || seen),
            seen: seen || second,
            over,
        },
        TrailKind::AtEnd => Flags {
            met: first,
            seen,
            over,
        },
    }
}

/// The number that was kept, else this one where the test holds.
pub fn keep_first(kept: Option<u32>, holds: bool, number: u32) -> Option<u32>
    ensures { result ≡ kept_or_now kept holds number }
{
    match kept {
        Some(first) => Some(first),
        None => { if holds { Some(number) } else { None } }
    }
}
