//! What refusals of texts, of ground tasks and of lines say.

ghost use Rattle.std.specs.Prelude.{◌≡◌, IfOk, Some};
ghost use Rattle.reply_text.specs.Faults.{refused_at, lexed_text, pddl_text, ground_text, wide_line, order_text, line_text};
ghost use Rattle.reply_text.specs.Words.{limit_word};

use crate::words::{kind_word, limit_word};
use exact_lin::NoMemory;
use grounder::{GroundFault, LimitName};
use ordering::OrderFault;
use pddl_terms::PddlFault;
use plan_files::{LineFault, LineKind};
use sexpr_text::LexFault;
use std::alloc::Global;

fn refused_at(
    alloc: Global,
    what: &str,
    word: &str,
    unit: &str,
    place: u32,
) -> Result<Vec<u8>, NoMemory>
    ensures { IfOk result (λ text. text.items ≡ refused_at what.now word.now unit.now place) }
{
    Ok(format!(in alloc; "refused {what} {word} at {unit} {place}\n")?.into_bytes())
}

fn lexed_text(alloc: Global, file: &str, fault: LexFault) -> Result<Vec<u8>, NoMemory>
    ensures { IfOk result (λ text. lexed_text file.now fault ≡ Some text.items) }
{
    match fault {
        LexFault::Byte(place) => refused_at(alloc, file, "Byte", "byte", place),
        LexFault::Open(place) => refused_at(alloc, file, "Open", "byte", place),
        LexFault::Close(place) => refused_at(alloc, file, "Close", "byte", place),
        LexFault::Deep(place) => refused_at(alloc, file, "Deep", "byte", place),
        LexFault::LongName(place) => refused_at(alloc, file, "LongName", "byte", place),
        LexFault::Number(place) => refused_at(alloc, file, "Number", "byte", place),
        LexFault::Memory => Err(NoMemory),
    }
}

/// What is said of a domain or a problem that is refused, as `refused domain Shape at byte 7`; `file` is the word for
/// the file. A fault of memory is handed on.
pub fn pddl_fault_text(alloc: Global, file: &str, fault: PddlFault) -> Result<Vec<u8>, NoMemory>
    ensures { IfOk result (λ text. pddl_text file.now fault ≡ Some text.items) }
{
    match fault {
        PddlFault::Lex(fault) => lexed_text(alloc, file, fault),
        PddlFault::At(kind, place) => refused_at(alloc, file, kind_word(kind), "byte", place),
        PddlFault::Memory => Err(NoMemory),
    }
}

fn past_limit(alloc: Global, name: LimitName) -> Result<Vec<u8>, NoMemory>
    ensures { IfOk result (λ text. ground_text (GroundFault.Limit name) ≡ Some text.items) }
{
    let word = limit_word(name);
    Ok(format!(in alloc; "refused ground {word}\n")?.into_bytes())
}

/// What is said where a domain and a problem have no ground task, as `refused ground Facts` or
/// `refused ground NoValue at byte 7`. A fault of memory is handed on.
pub fn ground_fault_text(alloc: Global, fault: GroundFault) -> Result<Vec<u8>, NoMemory>
    ensures { IfOk result (λ text. ground_text fault ≡ Some text.items) }
{
    match fault {
        GroundFault::Limit(name) => past_limit(alloc, name),
        GroundFault::Wide(place) => refused_at(alloc, "ground", "Wide", "byte", place),
        GroundFault::NoValue(place) => refused_at(alloc, "ground", "NoValue", "byte", place),
        GroundFault::Memory => Err(NoMemory),
    }
}

fn wide_line(alloc: Global, number: u32) -> Result<Vec<u8>, NoMemory>
    ensures { IfOk result (λ text. text.items ≡ wide_line number) }
{
    Ok(format!(in alloc; "wide line {number}\n")?.into_bytes())
}

fn refused_order(
    alloc: Global,
    file: &str,
    number: u32,
    fault: OrderFault,
) -> Result<Vec<u8>, NoMemory>
    ensures { IfOk result (λ text. order_text file.now number fault ≡ Some text.items) }
{
    match fault {
        OrderFault::UnknownStep => refused_at(alloc, file, "UnknownStep", "line", number),
        OrderFault::Running => refused_at(alloc, file, "Running", "line", number),
        OrderFault::EndWithoutStart => refused_at(alloc, file, "EndWithoutStart", "line", number),
        OrderFault::OpenAction(_) => refused_at(alloc, file, "OpenAction", "line", number),
        OrderFault::TilMissing => refused_at(alloc, file, "TilMissing", "line", number),
        OrderFault::TilOrder => refused_at(alloc, file, "TilOrder", "line", number),
        OrderFault::Cycle => refused_at(alloc, file, "Cycle", "line", number),
        OrderFault::Limit => refused_at(alloc, file, "Limit", "line", number),
        OrderFault::Memory => Err(NoMemory),
    }
}

fn refused_line(alloc: Global, file: &str, number: u32, kind: LineKind) -> Result<Vec<u8>, NoMemory>
    ensures { IfOk result (λ text. line_text file.now (LineFault.At number kind) ≡ Some text.items) }
{
    match kind {
        LineKind::Shape => refused_at(alloc, file, "Shape", "line", number),
        LineKind::Number => refused_at(alloc, file, "Number", "line", number),
        LineKind::Name => refused_at(alloc, file, "Name", "line", number),
        LineKind::Unground => refused_at(alloc, file, "Unground", "line", number),
        LineKind::Limit => refused_at(alloc, file, "Limit", "line", number),
        LineKind::Order(fault) => refused_order(alloc, file, number, fault),
        LineKind::Wide => wide_line(alloc, number),
    }
}

/// What is said of a plan file or an ordering file that is refused, as `refused plan Name at line 2`, or of a line whose
/// end passes 128 bits, as `wide line 2`; `file` is the word for the file. A fault of memory is handed on.
pub fn line_fault_text(alloc: Global, file: &str, fault: LineFault) -> Result<Vec<u8>, NoMemory>
    ensures { IfOk result (λ text. line_text file.now fault ≡ Some text.items) }
{
    match fault {
        LineFault::At(number, kind) => refused_line(alloc, file, number, kind),
        LineFault::Memory => Err(NoMemory),
    }
}
