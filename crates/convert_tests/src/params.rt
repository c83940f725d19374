//! Parameters of modules.

ghost use Rattle.std.specs.Prelude.{◌≡◌, IfOk};
ghost use Rattle.quartz_expr.specs.Intervals.{is_sound_base, is_sound_type};
ghost use Rattle.quartz_expr.specs.Typed.{AreSound};

use quartz_tree::{Base, Decl, Flow, Name, NoMemory, Place, Storage, Ty, Var};
use std::alloc::Global;

/// Whether a scalar type is within its bounds.
pub(crate) fn has_bounds(base: Base) -> bool
    ensures { result ≡ is_sound_base base }
{
    match base {
        Base::Bool => true,
        Base::Nat(count) | Base::Int(count) => 1 <= count && count <= 1 << 31,
        Base::Bv(width) => 1 <= width && width <= 32,
    }
}

// Whether a type is within its bounds.
fn is_bounded(ty: Ty) -> bool
    ensures { result ≡ is_sound_type ty }
{
    let has_len = match ty.len {
        None => true,
        Some(count) => 1 <= count && count <= 64,
    };
    has_bounds(ty.base) && has_len
}

// The number in a pair of marks, or 0.
fn number_in(text: &str, front: char, back: char) -> u128 {
    let (_, rest) = text.split_once(front).unwrap_or(("", ""));
    let (number, _) = rest.split_once(back).unwrap_or(("", ""));
    number.parse::<u128>().unwrap_or(0)
}

/// A scalar type as texts have it.
pub(crate) fn base_of(text: &str) -> Base {
    let count = number_in(text, '{', '}');
    if text.starts_with("nat") {
        Base::Nat(count)
    } else if text.starts_with("int") {
        Base::Int(count)
    } else if text.starts_with("bv") {
        Base::Bv(count)
    } else {
        Base::Bool
    }
}

// A type that may have a length.
fn type_of(text: &str) -> Ty {
    let count = number_in(text, '[', ']');
    Ty {
        base: base_of(text),
        len: if count == 0 { None } else { Some(count) },
    }
}

// What a word of a parameter begins with says how its values go, and the rest is its name.
fn name_of(text: &str) -> (Flow, &str) {
    match text.split_once('?') {
        Some((_, rest)) => (Flow::Input, rest),
        None => (Flow::Output, text.split_once('!').unwrap_or(("", "")).1),
    }
}

fn var(alloc: Global, text: &str, ty: Ty) -> Result<Var, NoMemory>
    ensures { IfOk result (λ v. v.decl.ty ≡ ty) }
{
    let place = Place { line: 1, col: 1 };
    let (flow, rest) = name_of(text);
    let (name, _) = rest.split_once(' ').unwrap_or((rest, ""));
    Ok(Var {
        decl: Decl {
            name: Name::new(alloc, name)?,
            ty,
            storage: Storage::Mem,
            flow,
            place,
            base_place: place,
            len_place: place,
            init: None,
        },
        delayed: false,
        start: 0,
    })
}

/// At most 64 variables, of which each is a line: its scalar type, `?` or `!` and its name, and
/// its length in brackets if it has one.
pub(crate) fn vars_of(alloc: Global, params: &str) -> Result<Vec<Var>, NoMemory>
    ensures { IfOk result (λ vars. AreSound vars.items) }
{
    let mut vars = Vec::new(alloc);
    for param in params.lines() {
        let ty = type_of(param);
        if !is_bounded(ty) || vars.len() >= 64 {
            return Err(NoMemory);
        }
        vars.push(var(alloc, param, ty)?)?;
    }
    Ok(vars)
}
