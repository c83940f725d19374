//! The lesser of two places.

ghost use Rattle.std.specs.Prelude.{◌≡◌};
ghost use Rattle.quartz_expr.specs.Kinds.{place_if};
ghost use Rattle.quartz_tree.specs.Least.{least_place, lesser_place};

use quartz_tree::Place;

/// The lesser of two places, and the first where neither is.
pub fn lesser_place(p: Option<Place>, q: Option<Place>) -> Option<Place>
    ensures { result ≡ lesser_place p q }
{
    match (p, q) {
        (None, _) => q,
        (Some(_), None) => p,
        (Some(first), Some(second)) => { if second.is_before(first) { q } else { p } }
    }
}

/// The place, where the test holds.
pub fn place_if(test: bool, place: Place) -> Option<Place>
    ensures { result ≡ least_place (place_if test place) }
{
    if test { Some(place) } else { None }
}
