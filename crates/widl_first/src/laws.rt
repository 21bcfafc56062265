//! The laws of firsts, for all sorts of breaks. Each function does nothing: its contract is the law.

ghost use Rattle.std.specs.Prelude.{◌≡◌, Option, Some};
ghost use Rattle.widl_first.specs.Keys.{first_of, Either, IsFirst};

/// Two sorts of breaks of things that have keys.
pub trait Sorts {
    ghost use Rattle.std.specs.Prelude.{ℕ, List};

    ghost thing: { Type 0 };

    ghost key: { thing → List ℕ };

    ghost one: { thing → Type 0 };

    ghost other: { thing → Type 0 };
}

/// The first of two sorts of breaks is the first of their firsts.
pub fn first_either<S: Sorts>()
    ensures { (a b : Option S.thing) → IsFirst S.key S.one a → IsFirst S.key S.other b → IsFirst S.key (Either S.one S.other) (first_of S.key a b) }
{}

/// Two wordings of the same breaks have the same first.
pub fn first_same<S: Sorts>()
    ensures { (a : Option S.thing) → ((p : S.thing) → S.one p → S.other p) → ((p : S.thing) → S.other p → S.one p) → IsFirst S.key S.one a → IsFirst S.key S.other a }
{}

/// Two firsts of the same breaks have one key.
pub fn one_key<S: Sorts>()
    ensures { (p q : S.thing) → IsFirst S.key S.one (Some p) → IsFirst S.key S.one (Some q) → S.key p ≡ S.key q }
{}
