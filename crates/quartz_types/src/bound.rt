//! The rule of bounds in declarations.

ghost use Rattle.std.specs.Prelude.{◌≡◌};
ghost use Rattle.quartz_expr.specs.Intervals.{type_breaks};
ghost use Rattle.quartz_tree.specs.Least.{least_place};
ghost use Rattle.quartz_types.specs.Rules.{declared_bound_breaks, init_bound_breaks};

use quartz_expr::{is_sound_base, is_sound_length};
use quartz_names::{is_within, lesser_place, place_if};
use quartz_tree::{Decl, Init, Place, Ty, Var};

// The least place at which a declared type breaks its bounds.
#[tactic(auto, using(quartz_names::proofs::LeastLemmas::least_append))]
fn least_type_break(decl: &Decl) -> Option<Place>
    ensures { result ≡ least_place (type_breaks decl.now) }
{
    let base = place_if(!is_sound_base(decl.ty.base), decl.base_place);
    let length = place_if(!is_sound_length(decl.ty.len), decl.len_place);
    lesser_place(base, length)
}

// The place of a constant that breaks its bounds.
fn least_init_break(ty: Ty, init: Option<Init>) -> Option<Place>
    ensures { result ≡ least_place (init_bound_breaks ty init) }
{
    match init {
        None => None,
        Some(init) => place_if(!is_within(ty, init.value), init.place),
    }
}

/// The least place at which a declared type or a constant breaks its bounds.
pub fn least_declared_break(vars: &[Var]) -> Option<Place>
    ensures { result ≡ least_place (declared_bound_breaks vars.now) }
{
    let mut least = None;
    for var in vars {
        let constant = least_init_break(var.decl.ty, var.decl.init);
        let own = lesser_place(least_type_break(&var.decl), constant);
        least = lesser_place(least, own);
    }
    least
}
