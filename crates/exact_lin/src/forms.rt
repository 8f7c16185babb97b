//! Linear forms over ids: a constant and terms in the order of their ids.

ghost use Rattle.std.specs.Prelude.{◌≡◌, ℕ, length, map, OnOk, IfOk, OnErr, IsErrOf};
ghost use Rattle.rational.specs.Rational.{ℚ, zeroℚ, ◌+ℚ◌, ◌*ℚ◌};
ghost use Rattle.exact_lin.specs.Reckoning.{CanAdd, Reckons};
ghost use Rattle.exact_lin.specs.Forms.{shown, IsForm, Covers, coefficient, form_at, values_of, constant_form, plus_constant, plus_term, plus_scaled, CanAddTerm, CanAddScaled, CanEvaluate};

use crate::faults::{FormFault, NoMemory};
use crate::ids::Id;
use crate::scalars::{Scalar, Wide};
use crate::terms::{add_to_terms, coefficient_of, merge, sum_terms};
use std::alloc::Global;
use std::marker::Model;

/// A constant and terms, each an id with its coefficient. The ids ascend strictly and no coefficient is 0.
#[derive(Drop)]
pub struct Form<V: Id, S: Scalar> {
    constant: S,
    terms: Vec<(V, S)>,
}

impl<V: Id, S: Scalar> Model for Form<V, S> {
    ghost use Rattle.exact_lin.specs.Forms.{LinearForm, form_code, shown, AscendFrom};

    ghost Value = { LinearForm };

    ghost coded = { form_code };

    ghost view = { λ f. record { constant = S.value f.constant; terms = shown V.number_of S.value f.terms.items } };

    ghost invariant = { λ f. AscendFrom 0 (shown V.number_of S.value f.terms.items) };
}

impl<V: Id, S: Scalar> Form<V, S> {
    /// The form 0.
    pub fn zero(alloc: Global) -> Form<V, S>
        ensures { result ≡ constant_form zeroℚ }
    {
        Form {
            constant: S::of_int(0),
            terms: Vec::new(alloc),
        }
    }

    /// The same form once more.
    pub fn copy(&self) -> Result<Form<V, S>, NoMemory>
        ensures { IfOk result (λ form. form ≡ self.now) }
    {
        let terms = Vec::from_slice(*self.terms.allocator(), self.terms.as_slice())?;
        Ok(Form {
            constant: self.constant,
            terms,
        })
    }

    /// The constant.
    pub fn constant(&self) -> S
        ensures { S.value result ≡ self.now.constant }
    {
        self.constant
    }

    /// The terms, in the order of their ids.
    pub fn terms(&self) -> &[(V, S)]
        ensures value { shown V.number_of S.value result.now ≡ self.now.terms }
        ensures form { IsForm self.now }
    {
        self.terms.as_slice()
    }

    /// The coefficient of an id, 0 where it has no term. It is found by halving the terms.
    pub fn coefficient(&self, v: V) -> S
        ensures { S.value result ≡ coefficient self.now.terms (V.number_of v) }
    {
        coefficient_of(self.terms.as_slice(), v)
    }

    /// Adds a number to the constant. The form is unchanged where that fails.
    pub fn add_constant(&mut self, c: S) -> Result<(), Wide>
        ensures defined { OnOk result (CanAdd S.limit self.old.constant (S.value c)) }
        ensures form { OnOk result (self.new ≡ plus_constant self.old (S.value c)) }
        ensures value { OnOk result ((x : ℕ → ℚ) → form_at self.new x ≡ form_at self.old x +ℚ S.value c) }
        ensures wide { OnErr result (¬ (CanAdd S.limit self.old.constant (S.value c))) }
        ensures err { OnErr result (self.new ≡ self.old) }
    {
        self.constant = self.constant.add(c)?;
        Ok(())
    }

    /// Adds a number to the coefficient of an id. The form is unchanged where that fails.
    pub fn add_term(&mut self, v: V, c: S) -> Result<(), FormFault>
        ensures defined { OnOk result (CanAddTerm S.limit self.old (V.number_of v) (S.value c)) }
        ensures form { OnOk result (self.new ≡ plus_term self.old (V.number_of v) (S.value c)) }
        ensures value { OnOk result ((x : ℕ → ℚ) → form_at self.new x ≡ form_at self.old x +ℚ S.value c *ℚ x (V.number_of v)) }
        ensures wide { IsErrOf result FormFault.Wide → ¬ (CanAddTerm S.limit self.old (V.number_of v) (S.value c)) }
        ensures err { OnErr result (self.new ≡ self.old) }
    {
        add_to_terms(&mut self.terms, v, c)?;
        Ok(())
    }

    /// Adds `by` times another form, in one pass over the terms of both. The form is unchanged where that fails.
    pub fn add_scaled(&mut self, other: &Form<V, S>, by: S) -> Result<(), FormFault>
        ensures defined { OnOk result (CanAddScaled S.limit self.old (S.value by) other.now) }
        ensures form { OnOk result (self.new ≡ plus_scaled self.old (S.value by) other.now) }
        ensures value { OnOk result ((x : ℕ → ℚ) → form_at self.new x ≡ form_at self.old x +ℚ S.value by *ℚ form_at other.now x) }
        ensures wide { IsErrOf result FormFault.Wide → ¬ (CanAddScaled S.limit self.old (S.value by) other.now) }
        ensures err { OnErr result (self.new ≡ self.old) }
    {
        let terms = merge(
            *self.terms.allocator(),
            self.terms.as_slice(),
            by,
            other.terms.as_slice(),
        )?;
        self.constant = self.constant.add(by.mul(other.constant)?)?;
        self.terms = terms;
        Ok(())
    }

    /// The value of the form where the id of number n has the value `point[n]`, reckoned from the constant on, term by
    /// term.
    pub fn value_at(&self, point: &[S]) -> Result<S, Wide>
        requires { Covers (length point.now) self.now.terms }
        ensures { Reckons S.value result (CanEvaluate S.limit self.now (values_of (map S.value point.now))) (form_at self.now (values_of (map S.value point.now))) }
    {
        sum_terms(self.constant, self.terms.as_slice(), point)
    }
}
