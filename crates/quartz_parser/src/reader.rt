//! A text, read in one pass over its tokens.

ghost use Rattle.std.specs.Prelude.{◌≡◌, ◌≤◌, ◌*◌, Bool, length, IfOk, option_map};
ghost use Rattle.quartz_tree.specs.Surfaces.{written};
ghost use Rattle.quartz_parser.specs.Machine.{expect, step, ended};
ghost use Rattle.quartz_tree.specs.declared.place.Place.{Place};
ghost use Rattle.quartz_parser.specs.Views.{token};
ghost use Rattle.quartz_parser.specs.StatementViews.{open_next, weight};
ghost use Rattle.quartz_parser.specs.ReaderViews.{body_next, rest_state, control_state, control_weight, start_state, stepped, Drops, left_by, LeavesLess, IsLast};

use crate::heading::{Course, Header, Heading, offer_heading};
use crate::item::{Item, is_mark};
use crate::marks::Marks;
use crate::statement::{Leaving, Locals, Move, Open, Part, close, leave, offer};
use crate::symbol::Mark;
use quartz_tree::{Module, Name, NoMemory, Place, Surface};
use std::alloc::Global;
use std::mem::replace;

/// The most levels of the statements in the block of a module.
const INNER_LEVELS: u32 = 63;

/// What is to come of a text.
#[derive(Drop)]
pub enum Rest {
    /// A module, or the end behind one.
    Between,
    /// The end behind this module.
    Alone(Module),
    Head(Heading),
    Body(Part),
}

/// Marks, and what is to come of a text behind them.
#[derive(Drop)]
pub struct Control {
    pub marks: Marks,
    pub rest: Rest,
}

/// What was read of a text: the modules that are over, the head of the one that is read, and what
/// waits for a statement of it.
#[derive(Drop)]
pub struct Reader {
    pub modules: Vec<Module>,
    pub header: Header,
    pub waiting: Vec<Open>,
}

/// What a token does to a text.
#[derive(Drop)]
pub enum Act {
    Taken(Control),
    /// It is for what comes in place of what was to come.
    Past(Control),
    Stuck,
}

/// What is read where the tokens end.
#[derive(Drop)]
pub enum End {
    /// To be seen from what comes in place of what was to come.
    Past(Control),
    Module(Module),
    Modules,
    Broken,
}

// No module is being read.
fn no_header(alloc: Global) -> Result<Header, NoMemory> {
    Ok(Header {
        name: Name::new(alloc, "")?,
        params: Vec::new(alloc),
    })
}

/// A text of which nothing is read.
pub fn fresh(alloc: Global) -> Result<Reader, NoMemory>
    ensures { IfOk result (λ r. (many : Bool) → rest_state many Rest.Between r ≡ start_state many) }
{
    Ok(Reader {
        modules: Vec::new(alloc),
        header: no_header(alloc)?,
        waiting: Vec::new(alloc),
    })
}

// The module is over.
fn finish(
    alloc: Global,
    many: bool,
    body: Surface,
    reader: &mut Reader,
) -> Result<Control, NoMemory>
    ensures is { IfOk result (λ c. control_state many c reader.new
        ≡ body_next many reader.old (written body)) }
    ensures firm { IfOk result (λ c. control_weight c reader.new ≡ 0) }
{
    let header = replace(&mut reader.header, no_header(alloc)?);
    let module = Module {
        name: header.name,
        params: header.params,
        body,
    };
    let marks = Marks::Zero;
    if many {
        reader.modules.push(module)?;
        let rest = Rest::Between;
        Ok(Control { marks, rest })
    } else {
        let rest = Rest::Alone(module);
        Ok(Control { marks, rest })
    }
}

// A statement is over, and what waits for it goes on.
fn over(alloc: Global, many: bool, inner: Surface, reader: &mut Reader) -> Result<Control, NoMemory>
    ensures is { IfOk result (λ c. control_state many c reader.new
        ≡ open_next reader.old.waiting.items (body_next many reader.old) (written inner)) }
    ensures falls { IfOk result (λ c. control_weight c reader.new
        ≤ 2 * length reader.old.waiting.items) }
{
    match reader.waiting.pop() {
        None => finish(alloc, many, inner, reader),
        Some(waiting) => {
            let turn = close(alloc, inner, waiting)?;
            Ok(Control {
                marks: turn.marks,
                rest: Rest::Body(turn.part),
            })
        }
    }
}

// A token before the body of a module.
fn offer_head(
    alloc: Global,
    many: bool,
    heading: Heading,
    item: Item<'_>,
    place: Place,
    reader: &mut Reader,
) -> Result<Act, NoMemory>
    ensures is { IfOk result (λ x. stepped many x reader.new (token item.entry place)
        ≡ step (rest_state many (Rest.Head heading) reader.old) (token item.entry place)) }
    ensures falls { IfOk result (λ x. Drops x reader.new 0) }
{
    let course = offer_heading(alloc, heading, item, place, &mut reader.header)?;
    match course {
        Course::Taken(marks, heading) => {
            let rest = Rest::Head(heading);
            Ok(Act::Taken(Control { marks, rest }))
        }
        Course::Body => {
            reader.waiting = Vec::new(alloc);
            let levels = INNER_LEVELS;
            let decls = Vec::new(alloc);
            let marks = Marks::One(Mark::OpenBrace);
            let rest = Rest::Body(Part::Locals(Locals { levels, decls }));
            Ok(Act::Taken(Control { marks, rest }))
        }
        Course::Stuck => Ok(Act::Stuck),
    }
}

// A token in the body of a module.
fn offer_body(
    alloc: Global,
    many: bool,
    part: Part,
    item: Item<'_>,
    place: Place,
    reader: &mut Reader,
) -> Result<Act, NoMemory>
    ensures is { IfOk result (λ x. stepped many x reader.new (token item.entry place)
        ≡ step (rest_state many (Rest.Body part) reader.old) (token item.entry place)) }
    ensures falls { IfOk result (λ x.
        Drops x reader.new (weight Marks.Zero part (length reader.old.waiting.items))) }
{
    match offer(alloc, part, item, place, &mut reader.waiting)? {
        Move::Taken(turn) => Ok(Act::Taken(Control {
            marks: turn.marks,
            rest: Rest::Body(turn.part),
        })),
        Move::Past(turn) => Ok(Act::Past(Control {
            marks: turn.marks,
            rest: Rest::Body(turn.part),
        })),
        Move::Over(inner) => {
            let next = over(alloc, many, inner, reader)?;
            Ok(Act::Past(next))
        }
        Move::Stuck => Ok(Act::Stuck),
    }
}

// A token where no module is being read.
fn offer_between(item: Item<'_>) -> Act
    ensures is { (many : Bool) (r : Reader) (p : Place) → stepped many result r (token item.entry p)
        ≡ step (rest_state many Rest.Between r) (token item.entry p) }
    ensures falls { (r : Reader) → Drops result r 0 }
{
    if is_mark(item, Mark::Module) {
        Act::Taken(Control {
            marks: Marks::Zero,
            rest: Rest::Head(Heading::Named),
        })
    } else {
        Act::Stuck
    }
}

// A token where a mark has to come.
fn offer_mark(mark: Mark, next: Control, item: Item<'_>) -> Act
    ensures is { (many : Bool) (r : Reader) (p : Place) → stepped many result r (token item.entry p)
        ≡ step (expect mark (control_state many next r)) (token item.entry p) }
    ensures falls { (r : Reader) → Drops result r 0 }
{
    if is_mark(item, mark) {
        Act::Taken(next)
    } else {
        Act::Stuck
    }
}

// What a token does to a text of which this is to come.
fn offer_control(
    alloc: Global,
    many: bool,
    control: Control,
    item: Item<'_>,
    place: Place,
    reader: &mut Reader,
) -> Result<Act, NoMemory>
    ensures is { IfOk result (λ x. stepped many x reader.new (token item.entry place)
        ≡ step (control_state many control reader.old) (token item.entry place)) }
    ensures falls { IfOk result (λ x. Drops x reader.new (control_weight control reader.old)) }
{
    let rest = control.rest;
    match control.marks {
        Marks::Zero => offer_rest(alloc, many, rest, item, place, reader),
        Marks::One(mark) => {
            let marks = Marks::Zero;
            Ok(offer_mark(mark, Control { marks, rest }, item))
        }
        Marks::Two(mark, next) => {
            let marks = Marks::One(next);
            Ok(offer_mark(mark, Control { marks, rest }, item))
        }
    }
}

fn offer_rest(
    alloc: Global,
    many: bool,
    rest: Rest,
    item: Item<'_>,
    place: Place,
    reader: &mut Reader,
) -> Result<Act, NoMemory>
    ensures is { IfOk result (λ x. stepped many x reader.new (token item.entry place)
        ≡ step (rest_state many rest reader.old) (token item.entry place)) }
    ensures falls { IfOk result (λ x. Drops x reader.new
        (control_weight (record { marks = Marks.Zero; rest = rest }) reader.old)) }
{
    match rest {
        Rest::Between => Ok(offer_between(item)),
        Rest::Alone(_) => Ok(Act::Stuck),
        Rest::Head(heading) => offer_head(alloc, many, heading, item, place, reader),
        Rest::Body(part) => offer_body(alloc, many, part, item, place, reader),
    }
}

/// What is to come behind a token, or none where no text goes on with it.
pub fn take(
    alloc: Global,
    many: bool,
    control: Control,
    item: Item<'_>,
    place: Place,
    reader: &mut Reader,
) -> Result<Option<Control>, NoMemory>
    ensures { IfOk result (λ c. option_map (λ x. control_state many x reader.new) c
        ≡ step (control_state many control reader.old) (token item.entry place)) }
{
    let mut control = control;
    loop {
        match offer_control(alloc, many, control, item, place, reader)? {
            Act::Taken(next) => return Ok(Some(next)),
            Act::Past(next) => control = next,
            Act::Stuck => return Ok(None),
        }
    }
}

// What is left of the body of a module where the tokens end.
fn leave_body(alloc: Global, many: bool, part: Part, reader: &mut Reader) -> Result<End, NoMemory>
    ensures is { IfOk result (λ e. left_by many e reader.new
        ≡ ended (rest_state many (Rest.Body part) reader.old)) }
    ensures falls { IfOk result (λ e.
        LeavesLess e reader.new (weight Marks.Zero part (length reader.old.waiting.items))) }
{
    match leave(alloc, part, &mut reader.waiting)? {
        Leaving::Past(turn) => Ok(End::Past(Control {
            marks: turn.marks,
            rest: Rest::Body(turn.part),
        })),
        Leaving::Over(inner) => {
            let next = over(alloc, many, inner, reader)?;
            Ok(End::Past(next))
        }
        Leaving::Stuck => Ok(End::Broken),
    }
}

fn leave_control(
    alloc: Global,
    many: bool,
    control: Control,
    reader: &mut Reader,
) -> Result<End, NoMemory>
    ensures is { IfOk result (λ e. left_by many e reader.new
        ≡ ended (control_state many control reader.old)) }
    ensures falls { IfOk result (λ e. LeavesLess e reader.new (control_weight control reader.old)) }
{
    match control.marks {
        Marks::Zero => match control.rest {
            Rest::Between => Ok(End::Modules),
            Rest::Alone(module) => Ok(End::Module(module)),
            Rest::Head(_) => Ok(End::Broken),
            Rest::Body(part) => leave_body(alloc, many, part, reader),
        },
        _ => Ok(End::Broken),
    }
}

/// What is read where the tokens end.
pub fn end_reading(
    alloc: Global,
    many: bool,
    control: Control,
    reader: &mut Reader,
) -> Result<End, NoMemory>
    ensures is { IfOk result (λ e. left_by many e reader.new
        ≡ ended (control_state many control reader.old)) }
    ensures last { IfOk result (λ e. IsLast e) }
{
    let mut control = control;
    loop {
        match leave_control(alloc, many, control, reader)? {
            End::Past(next) => control = next,
            End::Module(module) => return Ok(End::Module(module)),
            End::Modules => return Ok(End::Modules),
            End::Broken => return Ok(End::Broken),
        }
    }
}
