//! A program under decisions, read entry by entry.

ghost use Rattle.std.specs.Prelude.{◌≡◌, IfOk, IsOk, ◌↔◌};
ghost use Rattle.cert_core.specs.Soft.{AreDecisions, program_under};

use crate::program::Rows;
use crate::soft::{SoftRows, Way};
use exact_lin::{Id, Scalar, Wide};
use std::marker::PhantomData;

/// A program under decisions.
#[derive(Drop)]
pub struct Decided<'a, T: Id, R: Id, V: Id, S: Scalar, P: SoftRows<T, R, V, S>> {
    soft: &'a P,
    made: &'a [Option<Way>],
    base: S,
    ids: PhantomData<(T, R, V)>,
    ghost decisions: { AreDecisions (P.soft soft.now) made.now },
    ghost based: { S.value base ≡ (program_under (P.soft soft.now) made.now).base },
}

impl<'a, T: Id, R: Id, V: Id, S: Scalar, P: SoftRows<T, R, V, S>> Rows<R, V, S>
    for Decided<'a, T, R, V, S, P> {
    ghost use Rattle.cert_core.specs.Soft.{program_under};

    ghost program = { λ d. program_under (P.soft d.soft.now) d.made.now };

    fn row_count(&self) -> u32 {
        self.soft.row_count(self.made)
    }

    fn var_count(&self) -> u32 {
        self.soft.var_count()
    }

    fn entry(&self, r: R, v: V) -> S {
        self.soft.entry(self.made, r, v)
    }

    fn row(&self, r: R) -> Option<&[(V, S)]> {
        self.soft.row(self.made, r)
    }

    fn bound(&self, r: R) -> S {
        self.soft.bound(self.made, r)
    }

    fn cost(&self, v: V) -> S {
        self.soft.cost(v)
    }

    fn base(&self) -> S {
        self.base
    }

    ghost even = { λ d. (P.lawful d.soft.now).even d.made.now d.decisions };
}

/// The program of `soft` under these decisions, or `Wide` where its base is not defined.
pub fn under<'a, T: Id, R: Id, V: Id, S: Scalar, P: SoftRows<T, R, V, S>>(
    soft: &'a P,
    made: &'a [Option<Way>],
) -> Result<Decided<'a, T, R, V, S, P>, Wide>
    requires { AreDecisions (P.soft soft.now) made.now }
    ensures defined { IsOk result ↔ (P.soft soft.now).CanReckonBase made.now }
    ensures program { IfOk result
        (λ d. ⟦<Decided<'a, T, R, V, S, P> as Rows<R, V, S>>⟧.program d
        ≡ program_under (P.soft soft.now) made.now) }
{
    match soft.base(made) {
        Ok(base) => Ok(Decided {
            soft,
            made,
            base,
            ids: PhantomData,
        }),
        Err(wide) => Err(wide),
    }
}
