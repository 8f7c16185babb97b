//! Ids: numbers of one kind of thing each, so that the number of a fact is never taken for that of a row.

ghost use Rattle.std.specs.Prelude.{◌≡◌, ℕ, ◌<◌, ◌^◌, ◌↔◌, IsTrue};
ghost use Rattle.std.specs.Ordering.{nat_cmp};

use std::marker::Model;

/// The number of one kind of thing, counted from 0.
pub trait Id: Copy + Eq + Ord {
    // the number that the id stands for
    ghost number_of: { Self → ℕ };

    /// The number of this id.
    fn number(self) -> u32
        ensures { result ≡ number_of self };

    /// The id of this number.
    fn of(n: u32) -> Self
        ensures { number_of result ≡ n };

    // two ids of one number are one id, `==` says so, and ids are in the order of their numbers
    ghost distinct: { (i j : Self) → number_of i ≡ number_of j → i ≡ j };

    ghost decides: { (i j : Self) → IsTrue (Self.eq i j) ↔ (number_of i ≡ number_of j) };

    ghost ordered: { (i j : Self) → Self.cmp i j ≡ nat_cmp (number_of i) (number_of j) };
}

/// A fact of a ground task.
#[derive(Clone, Copy, Debug, PartialEq, Eq, PartialOrd, Ord, Hash)]
pub struct FactId(u32);

impl Model for FactId {
    ghost use Rattle.std.specs.Prelude.{ℕ};

    ghost Value = { ℕ };

    ghost view = { λ i. i.0 };

    ghost inverse = { λ n. record { 0 = n } };
}

impl Id for FactId {
    ghost use Rattle.std.specs.Prelude.{refl};
    ghost use Rattle.exact_lin.specs.Ids.{nat-decide};

    ghost number_of = { λ n. n };

    fn number(self) -> u32 {
        self.0
    }

    fn of(n: u32) -> FactId {
        FactId(n)
    }

    ghost distinct = { λ i j e. e };

    ghost decides = { nat-decide };

    ghost ordered = { λ i j. refl };
}

/// A numeric fluent of a ground task.
#[derive(Clone, Copy, Debug, PartialEq, Eq, PartialOrd, Ord, Hash)]
pub struct FluentId(u32);

impl Model for FluentId {
    ghost use Rattle.std.specs.Prelude.{ℕ};

    ghost Value = { ℕ };

    ghost view = { λ i. i.0 };

    ghost inverse = { λ n. record { 0 = n } };
}

impl Id for FluentId {
    ghost use Rattle.std.specs.Prelude.{refl};
    ghost use Rattle.exact_lin.specs.Ids.{nat-decide};

    ghost number_of = { λ n. n };

    fn number(self) -> u32 {
        self.0
    }

    fn of(n: u32) -> FluentId {
        FluentId(n)
    }

    ghost distinct = { λ i j e. e };

    ghost decides = { nat-decide };

    ghost ordered = { λ i j. refl };
}

/// A ground action.
#[derive(Clone, Copy, Debug, PartialEq, Eq, PartialOrd, Ord, Hash)]
pub struct ActionId(u32);

impl Model for ActionId {
    ghost use Rattle.std.specs.Prelude.{ℕ};

    ghost Value = { ℕ };

    ghost view = { λ i. i.0 };

    ghost inverse = { λ n. record { 0 = n } };
}

impl Id for ActionId {
    ghost use Rattle.std.specs.Prelude.{refl};
    ghost use Rattle.exact_lin.specs.Ids.{nat-decide};

    ghost number_of = { λ n. n };

    fn number(self) -> u32 {
        self.0
    }

    fn of(n: u32) -> ActionId {
        ActionId(n)
    }

    ghost distinct = { λ i j e. e };

    ghost decides = { nat-decide };

    ghost ordered = { λ i j. refl };
}

/// A snap action: the start or the end of a durative action, or an instantaneous one.
#[derive(Clone, Copy, Debug, PartialEq, Eq, PartialOrd, Ord, Hash)]
pub struct SnapId(u32);

impl Model for SnapId {
    ghost use Rattle.std.specs.Prelude.{ℕ};

    ghost Value = { ℕ };

    ghost view = { λ i. i.0 };

    ghost inverse = { λ n. record { 0 = n } };
}

impl Id for SnapId {
    ghost use Rattle.std.specs.Prelude.{refl};
    ghost use Rattle.exact_lin.specs.Ids.{nat-decide};

    ghost number_of = { λ n. n };

    fn number(self) -> u32 {
        self.0
    }

    fn of(n: u32) -> SnapId {
        SnapId(n)
    }

    ghost distinct = { λ i j e. e };

    ghost decides = { nat-decide };

    ghost ordered = { λ i j. refl };
}

/// A step of an ordering of snap actions.
#[derive(Clone, Copy, Debug, PartialEq, Eq, PartialOrd, Ord, Hash)]
pub struct StepId(u32);

impl Model for StepId {
    ghost use Rattle.std.specs.Prelude.{ℕ};

    ghost Value = { ℕ };

    ghost view = { λ i. i.0 };

    ghost inverse = { λ n. record { 0 = n } };
}

impl Id for StepId {
    ghost use Rattle.std.specs.Prelude.{refl};
    ghost use Rattle.exact_lin.specs.Ids.{nat-decide};

    ghost number_of = { λ n. n };

    fn number(self) -> u32 {
        self.0
    }

    fn of(n: u32) -> StepId {
        StepId(n)
    }

    ghost distinct = { λ i j e. e };

    ghost decides = { nat-decide };

    ghost ordered = { λ i j. refl };
}

/// A variable of a linear program.
#[derive(Clone, Copy, Debug, PartialEq, Eq, PartialOrd, Ord, Hash)]
pub struct VarId(u32);

impl Model for VarId {
    ghost use Rattle.std.specs.Prelude.{ℕ};

    ghost Value = { ℕ };

    ghost view = { λ i. i.0 };

    ghost inverse = { λ n. record { 0 = n } };
}

impl Id for VarId {
    ghost use Rattle.std.specs.Prelude.{refl};
    ghost use Rattle.exact_lin.specs.Ids.{nat-decide};

    ghost number_of = { λ n. n };

    fn number(self) -> u32 {
        self.0
    }

    fn of(n: u32) -> VarId {
        VarId(n)
    }

    ghost distinct = { λ i j e. e };

    ghost decides = { nat-decide };

    ghost ordered = { λ i j. refl };
}

/// A row of a linear program.
#[derive(Clone, Copy, Debug, PartialEq, Eq, PartialOrd, Ord, Hash)]
pub struct RowId(u32);

impl Model for RowId {
    ghost use Rattle.std.specs.Prelude.{ℕ};

    ghost Value = { ℕ };

    ghost view = { λ i. i.0 };

    ghost inverse = { λ n. record { 0 = n } };
}

impl Id for RowId {
    ghost use Rattle.std.specs.Prelude.{refl};
    ghost use Rattle.exact_lin.specs.Ids.{nat-decide};

    ghost number_of = { λ n. n };

    fn number(self) -> u32 {
        self.0
    }

    fn of(n: u32) -> RowId {
        RowId(n)
    }

    ghost distinct = { λ i j e. e };

    ghost decides = { nat-decide };

    ghost ordered = { λ i j. refl };
}

/// A soft term of a linear program.
#[derive(Clone, Copy, Debug, PartialEq, Eq, PartialOrd, Ord, Hash)]
pub struct TermId(u32);

impl Model for TermId {
    ghost use Rattle.std.specs.Prelude.{ℕ};

    ghost Value = { ℕ };

    ghost view = { λ i. i.0 };

    ghost inverse = { λ n. record { 0 = n } };
}

impl Id for TermId {
    ghost use Rattle.std.specs.Prelude.{refl};
    ghost use Rattle.exact_lin.specs.Ids.{nat-decide};

    ghost number_of = { λ n. n };

    fn number(self) -> u32 {
        self.0
    }

    fn of(n: u32) -> TermId {
        TermId(n)
    }

    ghost distinct = { λ i j e. e };

    ghost decides = { nat-decide };

    ghost ordered = { λ i j. refl };
}

/// A word or bracket of a text.
#[derive(Clone, Copy, Debug, PartialEq, Eq, PartialOrd, Ord, Hash)]
pub struct TokenId(u32);

impl Model for TokenId {
    ghost use Rattle.std.specs.Prelude.{ℕ};

    ghost Value = { ℕ };

    ghost view = { λ i. i.0 };

    ghost inverse = { λ n. record { 0 = n } };
}

impl Id for TokenId {
    ghost use Rattle.std.specs.Prelude.{refl};
    ghost use Rattle.exact_lin.specs.Ids.{nat-decide};

    ghost number_of = { λ n. n };

    fn number(self) -> u32 {
        self.0
    }

    fn of(n: u32) -> TokenId {
        TokenId(n)
    }

    ghost distinct = { λ i j e. e };

    ghost decides = { nat-decide };

    ghost ordered = { λ i j. refl };
}
