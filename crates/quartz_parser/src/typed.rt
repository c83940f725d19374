//! The type of a declaration, and its start value, read a token at a time.

ghost use Rattle.std.specs.Prelude.{◌≡◌, Option, Some, None, MatchOption};
ghost use Rattle.quartz_tree.specs.declared.declare.Init.{Init};
ghost use Rattle.quartz_tree.specs.declared.place.Place.{Place};
ghost use Rattle.quartz_parser.specs.declared.declaring.Typing.{Typing};
ghost use Rattle.quartz_parser.specs.Grammar.{sized_base as sized_base_of};
ghost use Rattle.quartz_parser.specs.Machine.{State, base_on, type_on, head_on, const_on, step, ended};
ghost use Rattle.quartz_parser.specs.Views.{token, shaped, storage_of, type_state, reads_type, type_outcome, init_state, init_outcome};

use crate::declaring::Typing;
use crate::item::{Item, is_mark};
use crate::marks::Marks;
use crate::symbol::{Mark, Scalar};
use quartz_tree::{Base, Binary, Init, Place, Start, Storage, Ty};

/// A scalar, or an array by its length with the place of the number.
#[derive(Clone, Copy)]
pub enum Shape {
    Single,
    Array(u128, Place),
}

/// What is to come of a type.
#[derive(Clone, Copy)]
pub enum TypePart {
    /// A type that may be left out behind its storage.
    Stored(Storage),
    /// The length of an array.
    Len(Storage),
    /// The base of an array.
    Element(Storage, Shape),
    /// The number of a base.
    Size(Scalar, Storage, Shape),
    Nothing(Typing),
}

/// Marks, and what is to come of a type behind them.
#[derive(Clone, Copy)]
pub struct NextType {
    pub marks: Marks,
    pub part: TypePart,
}

/// What a token does to a type.
#[derive(Clone, Copy)]
pub enum TypeOutcome {
    Taken(NextType),
    /// It is not of the type, which is over.
    Over(Typing),
    Stuck,
}

/// What is to come of a start value.
#[derive(Clone, Copy)]
pub enum InitPart {
    /// `=`, or none.
    Equals,
    Constant,
    /// The number behind a `-` at this place.
    Negative(Place),
    Nothing(Init),
}

/// What a token does to a start value.
#[derive(Clone, Copy)]
pub enum InitOutcome {
    Taken(InitPart),
    /// It is not of the start value, which is over.
    Over(Option<Init>),
    Stuck,
}

fn typing_with(storage: Storage, shape: Shape, base: Base, place: Option<Place>) -> Typing
    ensures { result ≡ shaped storage shape base place }
{
    let (len, len_place) = match shape {
        Shape::Single => (None, None),
        Shape::Array(len, at) => (Some(len), Some(at)),
    };
    Typing {
        storage,
        ty: Ty { base, len },
        base_place: place,
        len_place,
    }
}

fn sized_base(scalar: Scalar, size: u128) -> Base
    ensures { result ≡ sized_base_of scalar size }
{
    match scalar {
        Scalar::Nat => Base::Nat(size),
        Scalar::Int => Base::Int(size),
        Scalar::Bv => Base::Bv(size),
    }
}

fn base(storage: Storage, shape: Shape, item: Item<'_>) -> Option<NextType>
    ensures { (next : Typing → State) (outer : Option State) (p : Place) →
        reads_type result next outer ≡ base_on (λ b q.
        next (shaped storage shape b q)) (token item.entry p) outer }
{
    match item {
        Item::Mark(Mark::Bool) => Some(NextType {
            marks: Marks::Zero,
            part: TypePart::Nothing(typing_with(storage, shape, Base::Bool, None)),
        }),
        Item::Scalar(scalar) => Some(NextType {
            marks: Marks::One(Mark::OpenBrace),
            part: TypePart::Size(scalar, storage, shape),
        }),
        _ => None,
    }
}

fn head_without_storage(storage: Storage, item: Item<'_>) -> Option<NextType>
    ensures { (next : Typing → State) (outer : Option State) (p : Place) →
        reads_type result next outer ≡ type_on storage next (token item.entry p) outer }
{
    if is_mark(item, Mark::OpenBracket) {
        Some(NextType {
            marks: Marks::Zero,
            part: TypePart::Len(storage),
        })
    } else {
        base(storage, Shape::Single, item)
    }
}

fn storage_in(item: Item<'_>) -> Option<Storage>
    ensures { (p : Place) → result ≡ storage_of (token item.entry p) }
{
    match item {
        Item::Storage(storage) => Some(storage),
        _ => None,
    }
}

/// What is to come where a token begins a type or its storage.
pub fn head(item: Item<'_>) -> Option<NextType>
    ensures { (next : Typing → State) (outer : Option State) (p : Place) →
        reads_type result next outer ≡ head_on next (token item.entry p) outer }
{
    match storage_in(item) {
        Some(storage) => Some(NextType {
            marks: Marks::Zero,
            part: TypePart::Stored(storage),
        }),
        None => head_without_storage(Storage::Mem, item),
    }
}

/// Whether the type may be over here, and then the type.
pub fn whole_type(part: TypePart) -> Option<Typing>
    ensures { (next : Typing → State) → MatchOption result (ended (type_state part next)
        ≡ None) (λ ty. ended (type_state part next) ≡ ended (next ty)) }
{
    match part {
        TypePart::Stored(storage) => Some(typing_with(storage, Shape::Single, Base::Bool, None)),
        TypePart::Nothing(typing) => Some(typing),
        _ => None,
    }
}

fn want_size(
    scalar: Scalar,
    storage: Storage,
    shape: Shape,
    item: Item<'_>,
    place: Place,
) -> TypeOutcome
    ensures { (next : Typing → State) → type_outcome result next (token item.entry place)
        ≡ step (type_state (TypePart.Size scalar storage shape) next) (token item.entry place) }
{
    match item {
        Item::Number(size) => TypeOutcome::Taken(NextType {
            marks: Marks::One(Mark::CloseBrace),
            part: TypePart::Nothing(typing_with(
                storage,
                shape,
                sized_base(scalar, size),
                Some(place),
            )),
        }),
        _ => TypeOutcome::Stuck,
    }
}

/// What a token does to a type of which this is to come.
pub fn offer_type(part: TypePart, item: Item<'_>, place: Place) -> TypeOutcome
    ensures { (next : Typing → State) → type_outcome result next (token item.entry place)
        ≡ step (type_state part next) (token item.entry place) }
{
    match part {
        TypePart::Stored(storage) => match head_without_storage(storage, item) {
            Some(next) => TypeOutcome::Taken(next),
            None => TypeOutcome::Over(typing_with(storage, Shape::Single, Base::Bool, None)),
        },
        TypePart::Len(storage) => match item {
            Item::Number(len) => TypeOutcome::Taken(NextType {
                marks: Marks::One(Mark::CloseBracket),
                part: TypePart::Element(storage, Shape::Array(len, place)),
            }),
            _ => TypeOutcome::Stuck,
        },
        TypePart::Element(storage, shape) => match base(storage, shape, item) {
            Some(next) => TypeOutcome::Taken(next),
            None => TypeOutcome::Stuck,
        },
        TypePart::Size(scalar, storage, shape) => want_size(scalar, storage, shape, item, place),
        TypePart::Nothing(typing) => TypeOutcome::Over(typing),
    }
}

fn constant(item: Item<'_>, place: Place) -> InitOutcome
    ensures { (next : Option Init → State) → init_outcome result next (token item.entry place)
        ≡ const_on (λ i. next (Some i)) (token item.entry place) }
{
    let value = match item {
        Item::Truth(value) => Start::Truth(value),
        Item::Number(value) => Start::Number {
            negative: false,
            value,
        },
        Item::Bits { width, value } => Start::Bits { width, value },
        Item::Infix(Binary::Sub) => return InitOutcome::Taken(InitPart::Negative(place)),
        _ => return InitOutcome::Stuck,
    };
    InitOutcome::Taken(InitPart::Nothing(Init { value, place }))
}

/// Whether the start value may be over here, and then what there is of it.
pub fn whole_init(part: InitPart) -> Option<Option<Init>>
    ensures { (next : Option Init → State) → MatchOption result
        (ended (init_state part next) ≡ None) (λ i. ended (init_state part next) ≡ ended (next i)) }
{
    match part {
        InitPart::Equals => Some(None),
        InitPart::Nothing(init) => Some(Some(init)),
        _ => None,
    }
}

/// What a token does to a start value of which this is to come.
pub fn offer_init(part: InitPart, item: Item<'_>, place: Place) -> InitOutcome
    ensures { (next : Option Init → State) → init_outcome result next (token item.entry place)
        ≡ step (init_state part next) (token item.entry place) }
{
    match part {
        InitPart::Equals => {
            if is_mark(item, Mark::Equals) {
                InitOutcome::Taken(InitPart::Constant)
            } else {
                InitOutcome::Over(None)
            }
        }
        InitPart::Constant => constant(item, place),
        InitPart::Negative(at) => match item {
            Item::Number(value) => {
                let negative = true;
                let value = Start::Number { negative, value };
                InitOutcome::Taken(InitPart::Nothing(Init { value, place: at }))
            }
            _ => InitOutcome::Stuck,
        },
        InitPart::Nothing(init) => InitOutcome::Over(Some(init)),
    }
}
