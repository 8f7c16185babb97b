//! Each line of the table of answers once, where there is memory.

use crate::{
    ground_fault_text, line_fault_text, pddl_fault_text, reason_text, valid_text,
    wide_happening_text,
};
use exact_lin::{Fraction, Scalar};
use grounder::{GroundFault, LimitName};
use ordering::OrderFault;
use pddl_terms::{Kind, PddlFault};
use plan_files::{LineFault, LineKind};
use sexpr_text::LexFault;
use std::test::Fail;
use task_types::Reason;

#[test]
fn tokens_are_refused_so(rt: HostRuntime) -> Result<(), Fail> {
    for (fault, want) in [
        (LexFault::Byte(0), "refused domain Byte at byte 0\n"),
        (LexFault::Open(1), "refused domain Open at byte 1\n"),
        (LexFault::Close(22), "refused domain Close at byte 22\n"),
        (LexFault::Deep(64), "refused domain Deep at byte 64\n"),
        (LexFault::LongName(8), "refused domain LongName at byte 8\n"),
        (
            LexFault::Number(4_294_967_295),
            "refused domain Number at byte 4294967295\n",
        ),
    ] {
        let text = pddl_fault_text(rt.alloc(), "domain", PddlFault::Lex(fault))?;
        assert!(rt; text.as_slice() == want.as_bytes(), "{want}");
    }
    Ok(())
}

#[test]
fn problems_are_refused_so(rt: HostRuntime) -> Result<(), Fail> {
    for (kind, want) in [
        (Kind::Shape, "refused problem Shape at byte 40\n"),
        (Kind::Name, "refused problem Name at byte 40\n"),
        (Kind::Double, "refused problem Double at byte 40\n"),
        (Kind::Sort, "refused problem Sort at byte 40\n"),
        (Kind::Arity, "refused problem Arity at byte 40\n"),
        (Kind::Strict, "refused problem Strict at byte 40\n"),
        (Kind::Nonlinear, "refused problem Nonlinear at byte 40\n"),
        (Kind::LeftOut, "refused problem LeftOut at byte 40\n"),
        (
            Kind::Requirement,
            "refused problem Requirement at byte 40\n",
        ),
        (Kind::MetricSign, "refused problem MetricSign at byte 40\n"),
        (Kind::TilClash, "refused problem TilClash at byte 40\n"),
        (Kind::Limit, "refused problem Limit at byte 40\n"),
    ] {
        let text = pddl_fault_text(rt.alloc(), "problem", PddlFault::At(kind, 40))?;
        assert!(rt; text.as_slice() == want.as_bytes(), "{want}");
    }
    Ok(())
}

#[test]
fn ground_tasks_are_refused_so(rt: HostRuntime) -> Result<(), Fail> {
    for (fault, want) in [
        (
            GroundFault::Limit(LimitName::Bindings),
            "refused ground Bindings\n",
        ),
        (
            GroundFault::Limit(LimitName::Facts),
            "refused ground Facts\n",
        ),
        (
            GroundFault::Limit(LimitName::Fluents),
            "refused ground Fluents\n",
        ),
        (
            GroundFault::Limit(LimitName::Actions),
            "refused ground Actions\n",
        ),
        (
            GroundFault::Limit(LimitName::Terms),
            "refused ground Terms\n",
        ),
        (
            GroundFault::Limit(LimitName::Timed),
            "refused ground Timed\n",
        ),
        (
            GroundFault::Limit(LimitName::Watches),
            "refused ground Watches\n",
        ),
        (
            GroundFault::Limit(LimitName::Moments),
            "refused ground Moments\n",
        ),
        (GroundFault::Wide(0), "refused ground Wide at byte 0\n"),
        (
            GroundFault::NoValue(7),
            "refused ground NoValue at byte 7\n",
        ),
    ] {
        let text = ground_fault_text(rt.alloc(), fault)?;
        assert!(rt; text.as_slice() == want.as_bytes(), "{want}");
    }
    Ok(())
}

#[test]
fn plan_lines_are_refused_so(rt: HostRuntime) -> Result<(), Fail> {
    for (kind, want) in [
        (LineKind::Shape, "refused plan Shape at line 2\n"),
        (LineKind::Number, "refused plan Number at line 2\n"),
        (LineKind::Name, "refused plan Name at line 2\n"),
        (LineKind::Unground, "refused plan Unground at line 2\n"),
        (LineKind::Limit, "refused plan Limit at line 2\n"),
        (LineKind::Wide, "wide line 2\n"),
    ] {
        let text = line_fault_text(rt.alloc(), "plan", LineFault::At(2, kind))?;
        assert!(rt; text.as_slice() == want.as_bytes(), "{want}");
    }
    Ok(())
}

#[test]
fn orderings_are_refused_so(rt: HostRuntime) -> Result<(), Fail> {
    for (fault, want) in [
        (
            OrderFault::UnknownStep,
            "refused ordering UnknownStep at line 1\n",
        ),
        (OrderFault::Running, "refused ordering Running at line 1\n"),
        (
            OrderFault::EndWithoutStart,
            "refused ordering EndWithoutStart at line 1\n",
        ),
        (
            OrderFault::OpenAction(3),
            "refused ordering OpenAction at line 1\n",
        ),
        (
            OrderFault::TilMissing,
            "refused ordering TilMissing at line 1\n",
        ),
        (
            OrderFault::TilOrder,
            "refused ordering TilOrder at line 1\n",
        ),
        (OrderFault::Cycle, "refused ordering Cycle at line 1\n"),
        (OrderFault::Limit, "refused ordering Limit at line 1\n"),
    ] {
        let line = LineFault::At(1, LineKind::Order(fault));
        let text = line_fault_text(rt.alloc(), "ordering", line)?;
        assert!(rt; text.as_slice() == want.as_bytes(), "{want}");
    }
    Ok(())
}

#[test]
fn reasons_are_told_so(rt: HostRuntime) -> Result<(), Fail> {
    let (zero, five) = (Fraction::of_int(0), Fraction::of_int(5));
    for (reason, want) in [
        (Reason::Time(1), "invalid time line 1\n"),
        (Reason::Duration(1), "invalid duration line 1\n"),
        (Reason::Clash(1, 2), "invalid clash lines 1 2\n"),
        (
            Reason::ClashTimed(1, five),
            "invalid clash line 1 timed 5.000\n",
        ),
        (Reason::Start(1), "invalid at start line 1\n"),
        (Reason::End(1), "invalid at end line 1\n"),
        (
            Reason::OverAll(1, zero, five),
            "invalid over all line 1 between 0.000 and 5.000\n",
        ),
        (Reason::Goal, "invalid goal\n"),
        (Reason::Constraint(1), "invalid constraint 1\n"),
    ] {
        let text = reason_text(rt.alloc(), &reason)?;
        assert!(rt; text.as_slice() == want.as_bytes(), "{want}");
    }
    Ok(())
}

#[test]
fn verdicts_are_told_so(rt: HostRuntime) -> Result<(), Fail> {
    let alloc = rt.alloc();
    let valid = valid_text(alloc, Fraction::of_int(-5))?;
    assert!(rt; valid.as_slice() == "valid cost -5.000\n".as_bytes());
    let wide = wide_happening_text(alloc, 0)?;
    assert!(rt; wide.as_slice() == "wide happening 0\n".as_bytes());
    Ok(())
}
