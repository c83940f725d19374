//! The name and the parameters of a module, read a token at a time.

ghost use Rattle.std.specs.Prelude.{◌≡◌, List, None, Some, IfOk};
ghost use Rattle.quartz_tree.specs.Surfaces.{ModuleTree, Word};
ghost use Rattle.quartz_tree.specs.declared.declare.Decl.{Decl};
ghost use Rattle.quartz_parser.specs.Grammar.{declared_as};
ghost use Rattle.quartz_parser.specs.Machine.{State, after_param as after_param_state, after_param_on, first_param_on, flow_on, head_on, flow as flow_state, param_more, step};
ghost use Rattle.quartz_parser.specs.Views.{token};
ghost use Rattle.quartz_parser.specs.HeadingViews.{params_next, heading_state, course, Goes};

use crate::declaring::{Typing, declaration, typing_of};
use crate::item::{Item, is_mark};
use crate::marks::Marks;
use crate::symbol::Mark;
use crate::typed::{InitOutcome, InitPart, TypeOutcome, TypePart, head, offer_init, offer_type};
use quartz_tree::{Decl, Flow, Init, Name, NoMemory, Place};
use std::alloc::Global;

/// The module that is read: its name, and its parameters so far.
#[derive(Drop)]
pub struct Header {
    pub name: Name,
    pub params: Vec<Decl>,
}

/// What is to come before the body of a module.
#[derive(Drop)]
pub enum Heading {
    Named,
    /// The first parameter, or none.
    First,
    /// What may come behind a parameter that has this type.
    AfterParam(Typing),
    /// A parameter behind one that has this type.
    Next(Typing),
    Type(TypePart),
    /// The name of an input.
    Input(Typing),
    /// The name of an output.
    Output(Typing),
    Init(InitPart, Typing, Name, Place),
}

/// What a token does before the body of a module.
#[derive(Drop)]
pub enum Course {
    Taken(Marks, Heading),
    /// The parameters are over.
    Body,
    Stuck,
}

// A parameter more, with what the next one may take from it.
fn add_param(
    header: &mut Header,
    typing: Typing,
    flow: Flow,
    name: Name,
    place: Place,
    init: Option<Init>,
) -> Result<Typing, NoMemory>
    ensures is { IfOk result (λ last. (k : ModuleTree → State) →
        after_param_state header.new.params.items last (params_next header.new.name k)
        ≡ param_more header.old.params.items (params_next header.old.name k)
        (declared_as typing flow name place init)) }
{
    let param = declaration(typing, flow, name, place, init);
    let last = typing_of(&param);
    header.params.push(param)?;
    Ok(last)
}

// The name of the module.
fn read_name(alloc: Global, item: Item<'_>, header: &mut Header) -> Result<Course, NoMemory>
    ensures { IfOk result (λ x. (p : Place) →
        Goes x header.old header.new (token item.entry p) Heading.Named) }
{
    match item {
        Item::Name(name) => {
            header.name = Name::new(alloc, name)?;
            Ok(Course::Taken(Marks::One(Mark::Open), Heading::First))
        }
        _ => Ok(Course::Stuck),
    }
}

// A parameter's type comes.
fn begin_param(item: Item<'_>) -> Course
    ensures { (x : Word) (ds : List Decl) (p : Place) (k : ModuleTree → State) →
        course result x ds k ≡ head_on (λ ty.
        flow_state ty (param_more ds (params_next x k))) (token item.entry p) None }
{
    match head(item) {
        Some(next) => Course::Taken(next.marks, Heading::Type(next.part)),
        None => Course::Stuck,
    }
}

// The first parameter.
fn first(alloc: Global, item: Item<'_>, header: &mut Header) -> Course
    ensures { (p : Place) → Goes result header.old header.new (token item.entry p) Heading.First }
{
    header.params = Vec::new(alloc);
    if is_mark(item, Mark::Close) {
        Course::Body
    } else {
        begin_param(item)
    }
}

// What follows a parameter of this type.
fn after_param(last: Typing, item: Item<'_>) -> Course
    ensures { (x : Word) (ds : List Decl) (p : Place) (k : ModuleTree → State) →
        course result x ds k ≡ after_param_on ds last (params_next x k) (token item.entry p) }
{
    match item {
        Item::Mark(Mark::Comma) => Course::Taken(Marks::Zero, Heading::Next(last)),
        Item::Mark(Mark::Close) => Course::Body,
        _ => Course::Stuck,
    }
}

// A parameter behind another one: one that takes the type of that one, or one with a type.
fn next_param(last: Typing, item: Item<'_>) -> Course
    ensures { (x : Word) (ds : List Decl) (p : Place) (k : ModuleTree → State) →
        course result x ds k ≡ step (heading_state (Heading.Next last) x ds k)
        (token item.entry p) }
{
    if is_mark(item, Mark::Question) {
        Course::Taken(Marks::Zero, Heading::Input(last))
    } else if is_mark(item, Mark::Bang) {
        Course::Taken(Marks::Zero, Heading::Output(last))
    } else {
        begin_param(item)
    }
}

// A parameter's flow.
fn flow_mark(typing: Typing, item: Item<'_>) -> Course
    ensures { (x : Word) (ds : List Decl) (p : Place) (k : ModuleTree → State) →
        course result x ds k ≡ flow_on typing (param_more ds (params_next x k))
        (token item.entry p) None }
{
    match item {
        Item::Mark(Mark::Question) => Course::Taken(Marks::Zero, Heading::Input(typing)),
        Item::Mark(Mark::Bang) => Course::Taken(Marks::Zero, Heading::Output(typing)),
        _ => Course::Stuck,
    }
}

// The name of an input.
fn input(
    alloc: Global,
    typing: Typing,
    item: Item<'_>,
    place: Place,
    header: &mut Header,
) -> Result<Course, NoMemory>
    ensures { IfOk result (λ x.
        Goes x header.old header.new (token item.entry place) (Heading.Input typing)) }
{
    match item {
        Item::Name(name) => {
            let name = Name::new(alloc, name)?;
            let last = add_param(header, typing, Flow::Input, name, place, None)?;
            Ok(Course::Taken(Marks::Zero, Heading::AfterParam(last)))
        }
        _ => Ok(Course::Stuck),
    }
}

// The name of an output.
fn output(alloc: Global, typing: Typing, item: Item<'_>, place: Place) -> Result<Course, NoMemory>
    ensures { IfOk result (λ c. (x : Word) (ds : List Decl) (k : ModuleTree → State) → course c
        x ds k ≡ step (heading_state (Heading.Output typing) x ds k) (token item.entry place)) }
{
    match item {
        Item::Name(name) => {
            let name = Name::new(alloc, name)?;
            let next = Heading::Init(InitPart::Equals, typing, name, place);
            Ok(Course::Taken(Marks::Zero, next))
        }
        _ => Ok(Course::Stuck),
    }
}

// A parameter's type goes on, or is over.
fn go_on(part: TypePart, item: Item<'_>, place: Place) -> Course
    ensures { (x : Word) (ds : List Decl) (k : ModuleTree → State) → course result x ds k
        ≡ step (heading_state (Heading.Type part) x ds k) (token item.entry place) }
{
    match offer_type(part, item, place) {
        TypeOutcome::Taken(next) => Course::Taken(next.marks, Heading::Type(next.part)),
        TypeOutcome::Over(typing) => flow_mark(typing, item),
        TypeOutcome::Stuck => Course::Stuck,
    }
}

// An output's start value goes on, or is over.
fn start(
    part: InitPart,
    typing: Typing,
    name: Name,
    at: Place,
    item: Item<'_>,
    place: Place,
    header: &mut Header,
) -> Result<Course, NoMemory>
    ensures { IfOk result (λ x.
        Goes x header.old header.new (token item.entry place) (Heading.Init part typing name at)) }
{
    match offer_init(part, item, place) {
        InitOutcome::Taken(part) => {
            let next = Heading::Init(part, typing, name, at);
            Ok(Course::Taken(Marks::Zero, next))
        }
        InitOutcome::Over(init) => {
            let last = add_param(header, typing, Flow::Output, name, at, init)?;
            Ok(after_param(last, item))
        }
        InitOutcome::Stuck => Ok(Course::Stuck),
    }
}

/// What a token does where this is to come before the body of a module.
pub fn offer_heading(
    alloc: Global,
    heading: Heading,
    item: Item<'_>,
    place: Place,
    header: &mut Header,
) -> Result<Course, NoMemory>
    ensures { IfOk result (λ x. Goes x header.old header.new (token item.entry place) heading) }
{
    match heading {
        Heading::Named => read_name(alloc, item, header),
        Heading::First => Ok(first(alloc, item, header)),
        Heading::AfterParam(last) => Ok(after_param(last, item)),
        Heading::Next(last) => Ok(next_param(last, item)),
        Heading::Type(part) => Ok(go_on(part, item, place)),
        Heading::Input(typing) => input(alloc, typing, item, place, header),
        Heading::Output(typing) => output(alloc, typing, item, place),
        Heading::Init(part, typing, name, at) => {
            start(part, typing, name, at, item, place, header)
        }
    }
}
