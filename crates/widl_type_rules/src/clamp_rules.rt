//! The rule that a type doesn't have `[Clamp]` and `[EnforceRange]` both, its own and those of the typedefs
//! that it leads to.

ghost use Rattle.std.specs.Prelude.{◌≡◌, option_and_then, option_map};
ghost use Rattle.widl_idl.specs.First.{FirstWhere, violation_at};
ghost use Rattle.widl_idl.specs.PlainTrees.{plain_definitions};
ghost use Rattle.widl_overload.specs.rules.TypeRules.{HasClampAndEnforceRange, later};
ghost use Rattle.widl_type_rules.specs.UsesListed.{use_of};

use crate::type_uses::TypeUse;
use widl_idl::{Violation, comes_before};
use widl_names::{Annotations, Resolver};
use widl_text::Place;

/// The first place at which a type has `[Clamp]` and `[EnforceRange]`, which is the name that stands
/// later.
pub fn clamp_and_enforce<'a>(
    resolver: &Resolver<'_, 'a>,
    written: &TypeUse<'a>,
) -> Option<Violation>
    ensures { FirstWhere (HasClampAndEnforceRange (plain_definitions resolver.now) (use_of written.now)) result }
{
    let outer = Annotations::of(written.outer);
    let own = Annotations::of(written.own);
    let all = resolver.all_annotations(outer.followed_by(own), written.ty);
    later_of_both(all.clamp, all.enforce)
}

/// The later of two places, if there are both.
fn later_of_both(clamp: Option<Place>, enforce: Option<Place>) -> Option<Violation>
    ensures { result ≡ option_and_then (λ c. option_map (λ e. violation_at (later c e)) enforce) clamp }
{
    match (clamp, enforce) {
        (Some(clamp), Some(enforce)) => Some(Violation::at(later(clamp, enforce))),
        _ => None,
    }
}

/// Of two places the later one.
fn later(p: Place, q: Place) -> Place
    ensures { result ≡ later p q }
{
    if comes_before(p, q) { q } else { p }
}
