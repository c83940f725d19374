//! Types, storage, flow and start values of variables, and declarations.

ghost use Rattle.std.specs.Prelude.{◌≡◌};
ghost use Rattle.quartz_tree.specs.Storage.{is_memorized};

use crate::name::Name;
use crate::place::Place;

/// A scalar type as written. Its number is not bounded here.
#[derive(Clone, Copy, Debug, PartialEq, Eq)]
pub enum Base {
    /// 0 or 1.
    Bool,
    /// `nat{n}`: 0 to n - 1.
    Nat(u128),
    /// `int{n}`: -n to n - 1.
    Int(u128),
    /// `bv{n}`: n bits, kept as a number from 0 to 2^n - 1.
    Bv(u128),
}

/// A type as written: a scalar, or an array of `len` of them.
#[derive(Clone, Copy, Debug, PartialEq, Eq)]
pub struct Ty {
    pub base: Base,
    pub len: Option<u128>,
}

/// What a variable holds in a step in which nothing writes it.
#[derive(Clone, Copy, Debug, PartialEq, Eq)]
pub enum Storage {
    /// Its previous value.
    Mem,
    /// 0.
    Event,
}

impl Storage {
    /// Whether a variable keeps its value in a step in which nothing writes it.
    pub fn is_memorized(self) -> bool
        ensures { result ≡ is_memorized self }
    {
        match self {
            Storage::Mem => true,
            Storage::Event => false,
        }
    }
}

/// Who reads and writes a variable.
#[derive(Clone, Copy, Debug, PartialEq, Eq)]
pub enum Flow {
    Input,
    Output,
    /// A local.
    Inner,
}

/// A constant behind `=` in a declaration.
#[derive(Clone, Copy, Debug, PartialEq, Eq)]
pub enum Start {
    Truth(bool),
    Number { negative: bool, value: u128 },
    /// The value of bits of more than 32 digits counts as 0.
    Bits { width: u32, value: u128 },
}

/// A declared start value, with the place of the constant's first token.
#[derive(Clone, Copy, Debug, PartialEq, Eq)]
pub struct Init {
    pub value: Start,
    pub place: Place,
}

/// A declared parameter or local.
///
/// `place` is that of its name. `base_place` and `len_place` are those of the number tokens of its
/// base type and of its array length, and `place` where its type has no such number. A parameter
/// that takes the type of the one before takes these two places with it.
#[derive(Debug, Drop)]
pub struct Decl {
    pub name: Name,
    pub ty: Ty,
    pub storage: Storage,
    pub flow: Flow,
    pub place: Place,
    pub base_place: Place,
    pub len_place: Place,
    pub init: Option<Init>,
}

/// A variable of a module whose names are numbers.
///
/// `delayed` says that some `next` targets it. `start` is its start value, which is 0 without a
/// constant, and for a constant that breaks S4 or S5.
#[derive(Debug, Drop)]
pub struct Var {
    pub decl: Decl,
    pub delayed: bool,
    pub start: i64,
}
