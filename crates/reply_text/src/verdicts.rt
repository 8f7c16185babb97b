//! What is said of a plan that was judged.

ghost use Rattle.std.specs.Prelude.{◌≡◌, ◌++◌, IfOk, OnOk, codes, decimal};
ghost use Rattle.plan_text.specs.Numbers.{number_text};
ghost use Rattle.reply_text.specs.Verdicts.{reason_text, valid_text, wide_happening};

use exact_lin::{Fraction, NoMemory};
use plan_text::print_number;
use std::alloc::Global;
use task_types::Reason;

fn push_number(alloc: Global, text: &mut Vec<u8>, value: Fraction) -> Result<(), NoMemory>
    ensures { OnOk result (text.new.items ≡ text.old.items ++ number_text value) }
{
    text.extend_from_slice(&print_number(alloc, value)?)?;
    Ok(())
}

fn over_all_text(
    alloc: Global,
    line: u32,
    from: Fraction,
    to: Fraction,
) -> Result<Vec<u8>, NoMemory>
    ensures { IfOk result (λ text. text.items ≡ reason_text (Reason.OverAll line from to)) }
{
    let mut text = format!(in alloc; "invalid over all line {line} between ")?.into_bytes();
    push_number(alloc, &mut text, from)?;
    text.extend_from_slice(b" and ")?;
    push_number(alloc, &mut text, to)?;
    text.push(b'\n')?;
    Ok(text)
}

fn clash_timed_text(alloc: Global, line: u32, moment: Fraction) -> Result<Vec<u8>, NoMemory>
    ensures { IfOk result (λ text. text.items ≡ reason_text (Reason.ClashTimed line moment)) }
{
    let mut text = format!(in alloc; "invalid clash line {line} timed ")?.into_bytes();
    push_number(alloc, &mut text, moment)?;
    text.push(b'\n')?;
    Ok(text)
}

fn of_line(alloc: Global, what: &str, line: u32) -> Result<Vec<u8>, NoMemory>
    ensures { IfOk result (λ text.
        text.items ≡ codes "invalid " ++ what.now ++ codes " " ++ decimal line ++ codes "\n") }
{
    Ok(format!(in alloc; "invalid {what} {line}\n")?.into_bytes())
}

fn clash_text(alloc: Global, line: u32, other: u32) -> Result<Vec<u8>, NoMemory>
    ensures { IfOk result (λ text. text.items ≡ reason_text (Reason.Clash line other)) }
{
    Ok(format!(in alloc; "invalid clash lines {line} {other}\n")?.into_bytes())
}

/// What is said of a plan that isn't valid, by the first reason, as `invalid clash lines 1 2`.
pub fn reason_text(alloc: Global, reason: &Reason) -> Result<Vec<u8>, NoMemory>
    ensures { IfOk result (λ text. text.items ≡ reason_text reason.now) }
{
    match reason {
        Reason::Time(line) => of_line(alloc, "time line", *line),
        Reason::Duration(line) => of_line(alloc, "duration line", *line),
        Reason::Clash(line, other) => clash_text(alloc, *line, *other),
        Reason::ClashTimed(line, moment) => clash_timed_text(alloc, *line, *moment),
        Reason::Start(line) => of_line(alloc, "at start line", *line),
        Reason::End(line) => of_line(alloc, "at end line", *line),
        Reason::OverAll(line, from, to) => over_all_text(alloc, *line, *from, *to),
        Reason::Goal => Ok(Vec::from_slice(alloc, b"invalid goal\n")?),
        Reason::Constraint(number) => of_line(alloc, "constraint", *number),
    }
}

/// What is said of a valid plan, as `valid cost 5.000`.
pub fn valid_text(alloc: Global, cost: Fraction) -> Result<Vec<u8>, NoMemory>
    ensures { IfOk result (λ text. text.items ≡ valid_text cost) }
{
    let mut text = Vec::from_slice(alloc, b"valid cost ")?;
    push_number(alloc, &mut text, cost)?;
    text.push(b'\n')?;
    Ok(text)
}

/// What is said where a value of the plan's course passes 128 bits, as `wide happening 2`. Happenings are counted from 0;
/// their number stands for the goal and the cost.
pub fn wide_happening_text(alloc: Global, happening: u32) -> Result<Vec<u8>, NoMemory>
    ensures { IfOk result (λ text. text.items ≡ wide_happening happening) }
{
    Ok(format!(in alloc; "wide happening {happening}\n")?.into_bytes())
}
