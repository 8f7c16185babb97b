//! Laws of the shape of texts.

ghost use Rattle.std.specs.Prelude.{◌≡◌, ℕ, ◌<◌, [], length, true};
ghost use Rattle.sexpr_text.specs.Forms.{Lexed, MatesAreBehind};
ghost use Rattle.sexpr_text.specs.Token.{AreTokens};
ghost use Rattle.pddl_terms.specs.declared.grammar.Line.{Line};
ghost use Rattle.pddl_terms.specs.declared.grammar.Rest.{Rest};
ghost use Rattle.pddl_terms.specs.declared.grammar.Rest.TheVariants.{One};
ghost use Rattle.pddl_terms.specs.Content.{Content, content_at};
ghost use Rattle.pddl_terms.specs.Files.{domain_file, problem_file};
ghost use Rattle.pddl_terms.specs.Shape.{wrong, wrong_item, IsFirst};
ghost use Rattle.pddl_terms.specs.Order.{Ascends, IsLeast};
ghost use Rattle.pddl_terms.specs.Beginnings.{SameBefore, SameThrough, may_go_on};

/// In the tokens of a text, the first place of the wrong shape is the least, whatever line is wanted.
pub fn first_is_least()
    ensures item { (forms : Lexed) (at : ℕ) (l : Line) (place : ℕ)
        → AreTokens forms.text forms.tokens → MatesAreBehind forms.tokens → at < length forms.tokens
        → IsFirst place (wrong_item l (content_at forms at))
        → IsLeast place (wrong_item l (content_at forms at)) }
    ensures list { (low : ℕ) (x : Content) (r : Rest) (place : ℕ)
        → Ascends low x → IsFirst place (wrong r x) → IsLeast place (wrong r x) }
    ensures file { (forms : Lexed) (l : Line) (place : ℕ) → AreTokens forms.text forms.tokens
        → IsFirst place (wrong (One l) (content_at forms 0)) → IsLeast place (wrong (One l) (content_at forms 0)) }
{}

/// Up to the first place of the wrong shape the text goes on as one that has the right shape.
pub fn some_text_goes_so_far()
    ensures item { (l : Line) (x : Content) (place : ℕ) → IsFirst place (wrong_item l x)
        → (y : Content) × SameBefore place x y × (wrong_item l y ≡ []) }
    ensures list { (r : Rest) (x : Content) (place : ℕ) → may_go_on r ≡ true → IsFirst place (wrong r x)
        → (y : Content) × SameBefore place x y × (wrong r y ≡ []) }
{}

/// No text has the right shape that goes on alike through the first place of the wrong shape and one token further: that
/// place is its first as well.
pub fn no_text_goes_further()
    ensures item { (forms : Lexed) (at : ℕ) (l : Line) (place : ℕ) (y : Content)
        → AreTokens forms.text forms.tokens → MatesAreBehind forms.tokens → at < length forms.tokens
        → IsFirst place (wrong_item l (content_at forms at))
        → SameThrough place (content_at forms at) y → IsFirst place (wrong_item l y) }
    ensures list { (low : ℕ) (x y : Content) (r : Rest) (place : ℕ) → Ascends low x → IsFirst place (wrong r x)
        → SameThrough place x y → IsFirst place (wrong r y) }
    ensures domain { (forms : Lexed) (place : ℕ) (y : Content) → AreTokens forms.text forms.tokens
        → IsFirst place (wrong domain_file (content_at forms 0)) → SameThrough place (content_at forms 0) y
        → IsFirst place (wrong domain_file y) }
    ensures problem { (forms : Lexed) (place : ℕ) (y : Content) → AreTokens forms.text forms.tokens
        → IsFirst place (wrong problem_file (content_at forms 0)) → SameThrough place (content_at forms 0) y
        → IsFirst place (wrong problem_file y) }
{}
