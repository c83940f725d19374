//! Declarations, made of a type, a name and a start value.

ghost use Rattle.std.specs.Prelude.{◌≡◌};
ghost use Rattle.quartz_parser.specs.Grammar.{declared_as, taken as taken_of};

use quartz_tree::{Decl, Flow, Init, Name, Place, Storage, Ty};

/// A type with its storage, and the places of its numbers where it has them.
#[derive(Clone, Copy, Debug, PartialEq, Eq)]
pub struct Typing {
    pub storage: Storage,
    pub ty: Ty,
    pub base_place: Option<Place>,
    pub len_place: Option<Place>,
}

/// A declared name of this type.
pub fn declaration(typing: Typing, flow: Flow, name: Name, place: Place, init: Option<Init>) -> Decl
    ensures { result ≡ declared_as typing flow name place init }
{
    Decl {
        name,
        ty: typing.ty,
        storage: typing.storage,
        flow,
        place,
        base_place: typing.base_place.unwrap_or(place),
        len_place: typing.len_place.unwrap_or(place),
        init,
    }
}

/// What a parameter without a type takes from the one before it.
pub fn typing_of(before: &Decl) -> Typing
    ensures { result ≡ taken_of before.now }
{
    Typing {
        storage: before.storage,
        ty: before.ty,
        base_place: Some(before.base_place),
        len_place: Some(before.len_place),
    }
}
