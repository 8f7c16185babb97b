//! Why a text is refused.

ghost use Rattle.std.specs.Prelude.{◌≡◌, ◌<◌, ◌^◌, length, IfOk, IfErr};
ghost use Rattle.sexpr_text.specs.Token.{AreTokens};
ghost use Rattle.pddl_terms.specs.Files.{of_lexer, MayRefuseTokens};

use exact_lin::NoMemory;
use sexpr_text::{Forms, LexFault, read_forms};
use std::alloc::Global;

/// What is wrong at a place of a text.
#[derive(Clone, Copy, Debug, PartialEq, Eq)]
pub enum Kind {
    /// No accepted text can go on with this token.
    Shape,
    /// A name that isn't declared, or a domain's name that differs.
    Name,
    /// Something that is declared or told twice.
    Double,
    /// A term whose type doesn't fit.
    Sort,
    /// A wrong number of terms.
    Arity,
    /// A strict or negated comparison.
    Strict,
    /// A product, quotient or rate that isn't linear.
    Nonlinear,
    /// A part of PDDL that is left out.
    LeftOut,
    /// A requirement that isn't known.
    Requirement,
    /// A term of the metric that a minimised form may not have.
    MetricSign,
    /// Timed literals that contradict each other, or one too early.
    TilClash,
    /// More parameters or objects than are taken.
    Limit,
}

/// Why a text of PDDL is refused.
#[derive(Clone, Copy, Debug, PartialEq, Eq)]
pub enum PddlFault {
    /// Its tokens are at fault.
    Lex(LexFault),
    /// This is wrong at the byte.
    At(Kind, u32),
    /// There was no memory left.
    Memory,
}

impl From<NoMemory> for PddlFault {
    ghost use Rattle.std.specs.Prelude.{◌≡◌};
    ghost use Rattle.pddl_terms.specs.declared.faults.PddlFault.TheVariants.{Memory};

    ghost from_gives = { λ _ fault. fault ≡ Memory };

    fn from(_error: NoMemory) -> PddlFault {
        PddlFault::Memory
    }
}

/// A fault of the tokens, where memory doesn't run out.
pub fn of_lexer(fault: LexFault) -> PddlFault
    ensures { result ≡ of_lexer fault }
{
    match fault {
        LexFault::Memory => PddlFault::Memory,
        LexFault::Byte(_)
        | LexFault::Open(_)
        | LexFault::Close(_)
        | LexFault::Deep(_)
        | LexFault::LongName(_)
        | LexFault::Number(_) => PddlFault::Lex(fault),
    }
}

/// The tokens of a text, or its first fault.
pub fn tokens_of(alloc: Global, text: &[u8]) -> Result<Forms, PddlFault>
    requires { length text.now < 2 ^ 32 }
    ensures text { IfOk result (λ forms. forms.text ≡ text.now) }
    ensures tokens { IfOk result (λ forms. AreTokens text.now forms.tokens) }
    ensures fault { IfErr result (MayRefuseTokens text.now) }
{
    match read_forms(alloc, text) {
        Ok(forms) => Ok(forms),
        Err(fault) => Err(of_lexer(fault)),
    }
}
