//! Statements, read a token at a time.

ghost use Rattle.std.specs.Prelude.{◌≡◌, ◌+◌, ◌-◌, ◌*◌, ◌++◌, ◌∷◌, [], ℕ, length, map, nat_lt, ◌<◌, ◌≤◌, if◌then◌else◌, Some, None, IfOk};
ghost use Rattle.quartz_tree.specs.Tree.{tree};
ghost use Rattle.quartz_tree.specs.Surfaces.{Written, goal_of, written, branch, branches_of, block as block_of};
ghost use Rattle.quartz_tree.specs.declared.declare.Flow.TheVariants.{Inner};
ghost use Rattle.quartz_parser.specs.Grammar.{declared_as};
ghost use Rattle.quartz_parser.specs.Tokens.{Token, mark as mark_token};
ghost use Rattle.quartz_parser.specs.Machine.{State, expect, want as wanted, stmt, guarded as guarded_state, only, stmt_on, ready_on, after_word_on, labelled_on, after_immediate_on, after_weak_on, after_mode_on, after_emit_on, first_arg_on, after_arg_on, open_decls_on, decls, open_decls, ready as ready_state, after_arg as after_arg_state, step, ended};
ghost use Rattle.quartz_parser.specs.Views.{token, behind, expr_next};
ghost use Rattle.quartz_parser.specs.StatementViews.{opened, open_next, aim_next, wish_next, part_state, turn_state, moved, left, branches, taken, weight, Falls, Leads, LeavesLess, Takes, Turns};

use crate::built;
use crate::built::Mode;
use crate::declaring::{Typing, declaration};
use crate::expression::{Outcome, Pending, Piece, Room, offer as offer_expression, resume, whole};
use crate::item::{Item, is_mark};
use crate::marks::Marks;
use crate::rated::Rated;
use crate::symbol::Mark;
use crate::typed::{
    InitOutcome, InitPart, TypeOutcome, TypePart, head, offer_init, offer_type, whole_init,
    whole_type,
};
use quartz_tree::{Arg, Decl, Expr, Flow, Init, Name, NoMemory, Place, Surface, Target};
use std::alloc::Global;

/// The most levels of an expression by itself.
const LEVELS: u32 = 64;

/// The declarations of a block so far, and the levels that are left for its statements.
#[derive(Drop)]
pub struct Locals {
    pub levels: u32,
    pub decls: Vec<Decl>,
}

/// A block so far: its branches that are over, and the statements of the one that isn't.
#[derive(Drop)]
pub struct Block {
    pub levels: u32,
    pub decls: Vec<Decl>,
    pub branches: Vec<Vec<Surface>>,
    pub statements: Vec<Surface>,
}

/// What waits for a statement.
#[derive(Drop)]
pub enum Open {
    Block(Block),
    Yes(u32, Expr<Name>),
    No(Expr<Name>, Surface),
    Loop(Place),
    Always(Place),
    While(Expr<Name>, Place),
    Do(Place),
    Guard(Mode),
}

/// What a target is for.
#[derive(Clone, Copy)]
pub enum Aim {
    Emit(Place),
    /// In parentheses, behind `next` where it is delayed.
    EmitIn(bool, Place),
    WriteNext(Place),
    Assign,
}

/// What an expression is for.
#[derive(Drop)]
pub enum Wish {
    Await(bool, Place),
    If(u32),
    While(u32, Place),
    Do(Surface, Place),
    Guard(Mode, Surface),
    Value(bool, Target, Place),
    Index(Name, Place, Aim),
}

/// An expression that is read.
#[derive(Drop)]
pub struct Reading {
    pub room: Room,
    pub piece: Piece,
    pub pending: Vec<Pending>,
    pub wish: Wish,
}

/// What is to come of a statement.
#[derive(Drop)]
pub enum Part {
    Expr(Reading),
    LocalType(TypePart, Locals),
    LocalName(Typing, Locals),
    LocalInit(InitPart, Typing, Name, Place, Locals),
    /// What may come behind a local of this type.
    Declared(Typing, Locals),
    Locals(Locals),
    Ready(Block),
    Begin(u32),
    AfterWord(Name, Place),
    Labelled,
    AfterImmediate(u32, Place),
    AfterWeak(u32),
    AfterMode(u32, bool, bool),
    AfterEmit(Place),
    FirstArg(Name, Place),
    AfterArg(Name, Place, Vec<Arg>),
    NextArg(Name, Place, Vec<Arg>),
    TargetName(Aim),
    AfterTarget(Name, Place, Aim),
    /// What comes behind this target.
    Aimed(Aim, Target),
    AfterIf(u32, Expr<Name>, Surface),
    Done(Surface),
}

/// Marks, and what is to come of a statement behind them.
#[derive(Drop)]
pub struct Turn {
    pub marks: Marks,
    pub part: Part,
}

/// What a token does to a statement.
#[derive(Drop)]
pub enum Move {
    Taken(Turn),
    /// It is for what comes in place of what was to come.
    Past(Turn),
    /// It is not of the statement, which is over.
    Over(Surface),
    Stuck,
}

/// What is left of a statement where the tokens end.
#[derive(Drop)]
pub enum Leaving {
    /// To be seen from what comes in place of what was to come.
    Past(Turn),
    Over(Surface),
    /// The statement isn't over.
    Stuck,
}

// The part comes next.
fn take(marks: Marks, part: Part) -> Option<Turn>
    ensures { (k : Written → State) →
        taken result k ≡ Some (turn_state (record { marks = marks; part = part }) k) }
{
    Some(Turn { marks, part })
}

// An expression for this comes.
fn ask(alloc: Global, marks: Marks, wish: Wish) -> Option<Turn>
    ensures { (k : Written → State) →
        taken result k ≡ Some (behind marks (wanted 0 64 (wish_next wish k))) }
{
    take(marks, expression_for(alloc, wish))
}

// An expression for this.
fn expression_for(alloc: Global, wish: Wish) -> Part
    ensures { (k : Written → State) → part_state result k ≡ wanted 0 64 (wish_next wish k) }
{
    let room = Room {
        row: 0,
        levels: LEVELS,
    };
    let pending = Vec::new(alloc);
    let piece = Piece::Whole;
    Part::Expr(Reading {
        room,
        piece,
        pending,
        wish,
    })
}

// A statement inside another one comes.
fn nest(levels: u32, waiting: Open, frames: &mut Vec<Open>) -> Result<Option<Turn>, NoMemory>
    ensures { IfOk result (λ x. Leads x frames.old.items frames.new.items (λ next.
        Some (stmt (levels - 1) (opened waiting next)))) }
{
    frames.push(waiting)?;
    Ok(take(Marks::Zero, Part::Begin(levels.saturating_sub(1))))
}

// The body of an `abort` or `suspend` comes.
fn nest_guard(levels: u32, mode: Mode, frames: &mut Vec<Open>) -> Result<Option<Turn>, NoMemory>
    ensures { IfOk result (λ x. Leads x frames.old.items frames.new.items (λ next.
        Some (guarded_state levels mode.abort mode.weak mode.immediate next))) }
{
    nest(levels, Open::Guard(mode), frames)
}

// The same, where there is a level left.
fn nest_inside(levels: u32, waiting: Open, frames: &mut Vec<Open>) -> Result<Option<Turn>, NoMemory>
    ensures { IfOk result (λ x. Leads x frames.old.items frames.new.items (λ next.
        only (nat_lt 1 levels) (stmt (levels - 1) (opened waiting next)))) }
{
    if 1 < levels {
        nest(levels, waiting, frames)
    } else {
        Ok(None)
    }
}

// The move, where there is a level left.
fn inside(levels: u32, next: Option<Turn>) -> Option<Turn>
    ensures { (k : Written → State) →
        taken result k ≡ (if nat_lt 1 levels then taken next k else None) }
{
    if 1 < levels { next } else { None }
}

// A statement begins with a mark.
fn begin_mark(
    alloc: Global,
    levels: u32,
    mark: Mark,
    place: Place,
    frames: &mut Vec<Open>,
) -> Result<Option<Turn>, NoMemory>
    ensures { IfOk result (λ x.
        Takes x frames.old.items frames.new.items (mark_token mark place) (stmt_on levels)) }
{
    let zero = Marks::Zero;
    let semicolon = Marks::One(Mark::Semicolon);
    let paren = Marks::One(Mark::Open);
    match mark {
        Mark::Semicolon => Ok(take(zero, Part::Done(built::empty()))),
        Mark::Nothing => Ok(take(semicolon, Part::Done(built::empty()))),
        Mark::Pause => Ok(take(semicolon, Part::Done(built::pause()))),
        Mark::Halt => Ok(take(semicolon, Part::Done(built::halt(place)))),
        Mark::Await => Ok(ask(alloc, paren, Wish::Await(false, place))),
        Mark::Immediate => Ok(take(zero, Part::AfterImmediate(levels, place))),
        Mark::Emit => Ok(take(zero, Part::AfterEmit(place))),
        Mark::Next => Ok(take(paren, Part::TargetName(Aim::WriteNext(place)))),
        Mark::OpenBrace => Ok(block_begins(alloc, levels)),
        Mark::If => Ok(inside(levels, ask(alloc, paren, Wish::If(levels)))),
        Mark::Loop => nest_inside(levels, Open::Loop(place), frames),
        Mark::Always => nest_inside(levels, Open::Always(place), frames),
        Mark::While => Ok(inside(levels, ask(alloc, paren, Wish::While(levels, place)))),
        Mark::Do => nest_inside(levels, Open::Do(place), frames),
        Mark::Weak => Ok(inside(levels, take(zero, Part::AfterWeak(levels)))),
        _ => Ok(None),
    }
}

// A block comes.
fn block_begins(alloc: Global, levels: u32) -> Option<Turn>
    ensures { (k : Written → State) → taken result k ≡ Some (decls (levels - 1) [] k) }
{
    let decls = Vec::new(alloc);
    let levels = levels.saturating_sub(1);
    take(Marks::Zero, Part::Locals(Locals { levels, decls }))
}

// A guarded statement, where there is a level left.
fn guarded_inside(levels: u32, mode: Mode, frames: &mut Vec<Open>) -> Result<Option<Turn>, NoMemory>
    ensures { IfOk result (λ x. Leads x frames.old.items frames.new.items (λ next.
        only (nat_lt 1 levels) (guarded_state levels mode.abort mode.weak mode.immediate next))) }
{
    nest_inside(levels, Open::Guard(mode), frames)
}

// A statement begins.
fn begin(
    alloc: Global,
    levels: u32,
    item: Item<'_>,
    place: Place,
    frames: &mut Vec<Open>,
) -> Result<Option<Turn>, NoMemory>
    ensures { IfOk result (λ x.
        Takes x frames.old.items frames.new.items (token item.entry place) (stmt_on levels)) }
{
    match item {
        Item::Mark(mark) => begin_mark(alloc, levels, mark, place, frames),
        Item::Preempt(abort) => {
            let weak = false;
            let immediate = false;
            let mode = Mode {
                abort,
                weak,
                immediate,
            };
            guarded_inside(levels, mode, frames)
        }
        Item::Name(name) => {
            let name = Name::new(alloc, name)?;
            Ok(take(Marks::Zero, Part::AfterWord(name, place)))
        }
        _ => Ok(None),
    }
}

// What follows a name with which a statement begins.
fn after_word(alloc: Global, name: Name, at: Place, item: Item<'_>) -> Option<Turn>
    ensures { (k : Written → State) (p : Place) →
        taken result k ≡ after_word_on name at k (token item.entry p) }
{
    let zero = Marks::Zero;
    match item {
        Item::Mark(Mark::Colon) => take(zero, Part::Labelled),
        Item::Mark(Mark::Open) => take(zero, Part::FirstArg(name, at)),
        Item::Mark(Mark::Equals) => {
            let index = None;
            let place = at;
            let target = Target { name, index, place };
            ask(alloc, zero, Wish::Value(false, target, at))
        }
        Item::Mark(Mark::OpenBracket) => ask(alloc, zero, Wish::Index(name, at, Aim::Assign)),
        _ => None,
    }
}

// What follows a label.
fn after_label(alloc: Global, item: Item<'_>, place: Place) -> Option<Turn>
    ensures { (k : Written → State) → taken result k ≡ labelled_on k (token item.entry place) }
{
    let semicolon = Marks::One(Mark::Semicolon);
    match item {
        Item::Mark(Mark::Pause) => take(semicolon, Part::Done(built::pause())),
        Item::Mark(Mark::Halt) => take(semicolon, Part::Done(built::halt(place))),
        Item::Mark(Mark::Await) => { ask(alloc, Marks::One(Mark::Open), Wish::Await(false, place)) }
        Item::Mark(Mark::Immediate) => {
            let marks = Marks::Two(Mark::Await, Mark::Open);
            ask(alloc, marks, Wish::Await(true, place))
        }
        _ => None,
    }
}

// What follows an `immediate` at this place.
fn after_immediate(
    alloc: Global,
    levels: u32,
    at: Place,
    item: Item<'_>,
    frames: &mut Vec<Open>,
) -> Result<Option<Turn>, NoMemory>
    ensures { IfOk result (λ x. (p : Place) → Takes x frames.old.items frames.new.items
        (token item.entry p) (after_immediate_on levels at)) }
{
    let weak = false;
    let immediate = true;
    match item {
        Item::Mark(Mark::Await) => { Ok(ask(alloc, Marks::One(Mark::Open), Wish::Await(true, at))) }
        Item::Mark(Mark::Weak) => {
            let mode = take(Marks::Zero, Part::AfterMode(levels, true, true));
            Ok(inside(levels, mode))
        }
        Item::Preempt(abort) => {
            let mode = Mode {
                abort,
                weak,
                immediate,
            };
            guarded_inside(levels, mode, frames)
        }
        _ => Ok(None),
    }
}

// What follows a `weak`.
fn after_weak(levels: u32, item: Item<'_>, frames: &mut Vec<Open>) -> Result<Option<Turn>, NoMemory>
    ensures { IfOk result (λ x. (p : Place) →
        Takes x frames.old.items frames.new.items (token item.entry p) (after_weak_on levels)) }
{
    let weak = true;
    let immediate = false;
    match item {
        Item::Mark(Mark::Immediate) => {
            Ok(take(Marks::Zero, Part::AfterMode(levels, true, true)))
        }
        Item::Preempt(abort) => {
            let mode = Mode {
                abort,
                weak,
                immediate,
            };
            nest_guard(levels, mode, frames)
        }
        _ => Ok(None),
    }
}

// What follows both words.
fn after_mode(
    levels: u32,
    weak: bool,
    immediate: bool,
    item: Item<'_>,
    frames: &mut Vec<Open>,
) -> Result<Option<Turn>, NoMemory>
    ensures { IfOk result (λ x. (p : Place) → Takes x frames.old.items frames.new.items
        (token item.entry p) (after_mode_on levels weak immediate)) }
{
    match item {
        Item::Preempt(abort) => {
            let mode = Mode {
                abort,
                weak,
                immediate,
            };
            nest_guard(levels, mode, frames)
        }
        _ => Ok(None),
    }
}

// What follows an `emit` at this place.
fn after_emit(
    alloc: Global,
    at: Place,
    item: Item<'_>,
    place: Place,
) -> Result<Option<Turn>, NoMemory>
    ensures { IfOk result (λ x. (k : Written → State) →
        taken x k ≡ after_emit_on at k (token item.entry place)) }
{
    match item {
        Item::Name(name) => {
            let name = Name::new(alloc, name)?;
            Ok(take(Marks::Zero, Part::AfterTarget(name, place, Aim::Emit(at))))
        }
        Item::Mark(Mark::Open) => {
            Ok(take(Marks::Zero, Part::TargetName(Aim::EmitIn(false, at))))
        }
        Item::Mark(Mark::Next) => {
            let aim = Aim::EmitIn(true, at);
            Ok(take(Marks::One(Mark::Open), Part::TargetName(aim)))
        }
        _ => Ok(None),
    }
}

// An argument more.
fn add_arg(
    alloc: Global,
    callee: Name,
    at: Place,
    mut args: Vec<Arg>,
    name: &str,
    place: Place,
) -> Result<Option<Turn>, NoMemory>
    ensures { IfOk result (λ x. (k : Written → State) → taken x k ≡ Some (after_arg_state callee at
        (args.items ++ record { name = name.now; place = place } ∷ []) k)) }
{
    let name = Name::new(alloc, name)?;
    args.push(Arg { name, place })?;
    Ok(take(Marks::Zero, Part::AfterArg(callee, at, args)))
}

// What follows the `(` of a call.
fn first_arg(
    alloc: Global,
    callee: Name,
    at: Place,
    item: Item<'_>,
    place: Place,
) -> Result<Option<Turn>, NoMemory>
    ensures { IfOk result (λ x. (k : Written → State) →
        taken x k ≡ first_arg_on callee at k (token item.entry place)) }
{
    let args = Vec::new(alloc);
    match item {
        Item::Mark(Mark::Close) => {
            let call = built::call(callee, args, at);
            Ok(take(Marks::One(Mark::Semicolon), Part::Done(call)))
        }
        Item::Name(name) => add_arg(alloc, callee, at, args, name, place),
        _ => Ok(None),
    }
}

// What follows an argument.
fn after_arg(callee: Name, at: Place, args: Vec<Arg>, item: Item<'_>) -> Option<Turn>
    ensures { (k : Written → State) (p : Place) →
        taken result k ≡ after_arg_on callee at args.items k (token item.entry p) }
{
    match item {
        Item::Mark(Mark::Close) => {
            let call = built::call(callee, args, at);
            take(Marks::One(Mark::Semicolon), Part::Done(call))
        }
        Item::Mark(Mark::Comma) => take(Marks::Zero, Part::NextArg(callee, at, args)),
        _ => None,
    }
}

// What follows a `,` in a call.
fn next_arg(
    alloc: Global,
    callee: Name,
    at: Place,
    args: Vec<Arg>,
    item: Item<'_>,
    place: Place,
) -> Result<Option<Turn>, NoMemory>
    ensures { IfOk result (λ x. (k : Written → State) →
        taken x k ≡ step (part_state (Part.NextArg callee at args) k) (token item.entry place)) }
{
    match item {
        Item::Name(name) => add_arg(alloc, callee, at, args, name, place),
        _ => Ok(None),
    }
}

// The statements behind the `||` come.
fn next_branch(alloc: Global, block: Block) -> Result<Block, NoMemory>
    ensures { IfOk result (λ b. (k : Written → State) →
        part_state (Part.Ready b) k ≡ ready_state block.levels block.decls.items
        (branches block ++ branch (map written block.statements.items) ∷ []) [] k) }
{
    let mut branches = block.branches;
    branches.push(block.statements)?;
    Ok(Block {
        levels: block.levels,
        decls: block.decls,
        branches,
        statements: Vec::new(alloc),
    })
}

// The block is over.
fn close_block(block: Block) -> Result<Surface, NoMemory>
    ensures { IfOk result (λ s. written s ≡ block_of block.decls.items
        (branches_of (branches block ++ branch (map written block.statements.items) ∷ []))) }
{
    let mut branches = block.branches;
    branches.push(block.statements)?;
    Ok(built::block(block.decls, branches))
}

// A statement of the block comes.
fn go_on(
    alloc: Global,
    block: Block,
    item: Item<'_>,
    place: Place,
    frames: &mut Vec<Open>,
) -> Result<Option<Turn>, NoMemory>
    ensures { IfOk result (λ x. Takes x frames.old.items frames.new.items
        (token item.entry place) (λ next. stmt_on block.levels (opened (Open.Block block) next))) }
{
    let levels = block.levels;
    frames.push(Open::Block(block))?;
    begin(alloc, levels, item, place, frames)
}

// A block goes on, or ends.
fn ready(
    alloc: Global,
    block: Block,
    item: Item<'_>,
    place: Place,
    frames: &mut Vec<Open>,
) -> Result<Option<Turn>, NoMemory>
    ensures { IfOk result (λ x. Takes x frames.old.items frames.new.items
        (token item.entry place) (ready_on block.levels block.decls.items
        (branches block) (map written block.statements.items))) }
{
    if is_mark(item, Mark::Bars) {
        let block = next_branch(alloc, block)?;
        Ok(take(Marks::Zero, Part::Ready(block)))
    } else if is_mark(item, Mark::CloseBrace) {
        let block = close_block(block)?;
        Ok(take(Marks::Zero, Part::Done(block)))
    } else if 0 < block.levels {
        go_on(alloc, block, item, place, frames)
    } else {
        Ok(None)
    }
}

// A declaration or a statement of a block comes.
fn declare_or_go_on(
    alloc: Global,
    locals: Locals,
    item: Item<'_>,
    place: Place,
    frames: &mut Vec<Open>,
) -> Result<Option<Turn>, NoMemory>
    ensures { IfOk result (λ x. Takes x frames.old.items frames.new.items
        (token item.entry place) (λ next t. step (part_state (Part.Locals locals) next) t)) }
{
    match head(item) {
        Some(next) => Ok(take(next.marks, Part::LocalType(next.part, locals))),
        None => {
            let block = Block {
                levels: locals.levels,
                decls: locals.decls,
                branches: Vec::new(alloc),
                statements: Vec::new(alloc),
            };
            ready(alloc, block, item, place, frames)
        }
    }
}

// A local's type goes on, or is over.
fn local_type(part: TypePart, locals: Locals, item: Item<'_>, place: Place) -> Move
    ensures is { (k : Written → State) → moved result k (token item.entry place)
        ≡ step (part_state (Part.LocalType part locals) k) (token item.entry place) }
    ensures falls { (n : ℕ) → Falls result n (1 + 2 * n) }
{
    match offer_type(part, item, place) {
        TypeOutcome::Taken(next) => Move::Taken(Turn {
            marks: next.marks,
            part: Part::LocalType(next.part, locals),
        }),
        TypeOutcome::Over(typing) => past(Part::LocalName(typing, locals)),
        TypeOutcome::Stuck => Move::Stuck,
    }
}

// What a token does that is not passed on.
fn settle(next: Option<Turn>) -> Move
    ensures is { (k : Written → State) (t : Token) → moved result k t ≡ taken next k }
    ensures falls { (n w : ℕ) → Falls result n w }
{
    match next {
        Some(turn) => Move::Taken(turn),
        None => Move::Stuck,
    }
}

// The token is for this part.
fn past(part: Part) -> Move
    ensures { result ≡ Move.Past (record { marks = Marks.Zero; part = part }) }
{
    let marks = Marks::Zero;
    Move::Past(Turn { marks, part })
}

// The name of a local.
fn local_name(
    alloc: Global,
    typing: Typing,
    locals: Locals,
    item: Item<'_>,
    place: Place,
) -> Result<Option<Turn>, NoMemory>
    ensures { IfOk result (λ x. (k : Written → State) →
        taken x k ≡ step (part_state (Part.LocalName typing locals) k) (token item.entry place)) }
{
    match item {
        Item::Name(name) => {
            let name = Name::new(alloc, name)?;
            let part = Part::LocalInit(InitPart::Equals, typing, name, place, locals);
            Ok(take(Marks::Zero, part))
        }
        _ => Ok(None),
    }
}

// A local more.
fn declare(
    typing: Typing,
    name: Name,
    place: Place,
    init: Option<Init>,
    locals: Locals,
) -> Result<Part, NoMemory>
    ensures is { IfOk result (λ x. (k : Written → State) → part_state x k ≡ open_decls locals.levels
        (locals.decls.items ++ declared_as typing Inner name place init ∷ []) typing k) }
    ensures firm { IfOk result (λ x. (n : ℕ) → weight Marks.Zero x n ≡ 0) }
{
    let levels = locals.levels;
    let mut decls = locals.decls;
    decls.push(declaration(typing, Flow::Inner, name, place, init))?;
    Ok(Part::Declared(typing, Locals { levels, decls }))
}

// A local's start value goes on, or is over.
fn local_init(
    part: InitPart,
    typing: Typing,
    name: Name,
    at: Place,
    locals: Locals,
    item: Item<'_>,
    place: Place,
) -> Result<Move, NoMemory>
    ensures is { IfOk result (λ x. (k : Written → State) → moved x k (token item.entry place) ≡ step
        (part_state (Part.LocalInit part typing name at locals) k) (token item.entry place)) }
    ensures falls { IfOk result (λ x. (n : ℕ) → Falls x n (1 + 2 * n)) }
{
    match offer_init(part, item, place) {
        InitOutcome::Taken(part) => {
            let part = Part::LocalInit(part, typing, name, at, locals);
            let marks = Marks::Zero;
            Ok(Move::Taken(Turn { marks, part }))
        }
        InitOutcome::Over(init) => {
            let part = declare(typing, name, at, init, locals)?;
            Ok(past(part))
        }
        InitOutcome::Stuck => Ok(Move::Stuck),
    }
}

// What follows a local.
fn after_local(typing: Typing, locals: Locals, item: Item<'_>) -> Option<Turn>
    ensures { (k : Written → State) (p : Place) → taken result k
        ≡ open_decls_on locals.levels locals.decls.items typing k (token item.entry p) }
{
    match item {
        Item::Mark(Mark::Comma) => take(Marks::Zero, Part::LocalName(typing, locals)),
        Item::Mark(Mark::Semicolon) => take(Marks::Zero, Part::Locals(locals)),
        _ => None,
    }
}

// The name of a target.
fn target_name(
    alloc: Global,
    aim: Aim,
    item: Item<'_>,
    place: Place,
) -> Result<Option<Turn>, NoMemory>
    ensures { IfOk result (λ x. (k : Written → State) →
        taken x k ≡ step (part_state (Part.TargetName aim) k) (token item.entry place)) }
{
    match item {
        Item::Name(name) => {
            let name = Name::new(alloc, name)?;
            Ok(take(Marks::Zero, Part::AfterTarget(name, place, aim)))
        }
        _ => Ok(None),
    }
}

// What comes behind a target.
fn follow_aim(alloc: Global, aim: Aim, target: Target) -> Turn
    ensures is { (k : Written → State) → turn_state result k ≡ aim_next aim k (goal_of target) }
    ensures firm { (n : ℕ) → weight result.marks result.part n ≡ 0 }
{
    let at = target.place;
    match aim {
        Aim::Emit(place) => {
            let part = Part::Done(built::emit(false, target, place));
            let marks = Marks::One(Mark::Semicolon);
            Turn { marks, part }
        }
        Aim::EmitIn(delayed, place) => {
            let part = Part::Done(built::emit(delayed, target, place));
            let marks = Marks::Two(Mark::Close, Mark::Semicolon);
            Turn { marks, part }
        }
        Aim::WriteNext(place) => {
            let part = expression_for(alloc, Wish::Value(true, target, place));
            let marks = Marks::Two(Mark::Close, Mark::Equals);
            Turn { marks, part }
        }
        Aim::Assign => {
            let part = expression_for(alloc, Wish::Value(false, target, at));
            let marks = Marks::One(Mark::Equals);
            Turn { marks, part }
        }
    }
}

// What follows the name of a target.
fn after_target(alloc: Global, name: Name, at: Place, aim: Aim, item: Item<'_>) -> Move
    ensures is { (k : Written → State) (p : Place) → moved result k (token item.entry p)
        ≡ step (part_state (Part.AfterTarget name at aim) k) (token item.entry p) }
    ensures falls { (n : ℕ) → Falls result n (1 + 2 * n) }
{
    if is_mark(item, Mark::OpenBracket) {
        settle(ask(alloc, Marks::Zero, Wish::Index(name, at, aim)))
    } else {
        let index = None;
        let place = at;
        Move::Past(follow_aim(alloc, aim, Target { name, index, place }))
    }
}

// What follows the first alternative of an `if`.
fn after_if(
    alloc: Global,
    levels: u32,
    cond: Expr<Name>,
    yes: Surface,
    item: Item<'_>,
    frames: &mut Vec<Open>,
) -> Result<Move, NoMemory>
    ensures is { IfOk result (λ x. (p : Place) → Turns x frames.old.items frames.new.items
        (token item.entry p) (λ next t. step (part_state (Part.AfterIf levels cond yes) next) t)) }
    ensures falls { IfOk result (λ x.
        Falls x (length frames.new.items) (1 + 2 * length frames.old.items)) }
{
    if is_mark(item, Mark::Else) {
        let next = nest(levels, Open::No(cond, yes), frames)?;
        Ok(settle(next))
    } else {
        let alone = built::only_if(alloc, cond, yes)?;
        Ok(Move::Over(alone))
    }
}

// The body comes, behind the condition's parenthesis.
fn enter(levels: u32, waiting: Open, frames: &mut Vec<Open>) -> Result<Turn, NoMemory>
    ensures is { IfOk result (λ x. (k : Written → State) →
        turn_state x (open_next frames.new.items k)
        ≡ expect Mark.Close (stmt (levels - 1) (opened waiting (open_next frames.old.items k)))) }
    ensures firm { IfOk result (λ x. (n : ℕ) → weight x.marks x.part n ≡ 0) }
{
    frames.push(waiting)?;
    let marks = Marks::One(Mark::Close);
    let part = Part::Begin(levels.saturating_sub(1));
    Ok(Turn { marks, part })
}

// The statement is over, behind the condition's parenthesis and the `;`.
fn conclude(inner: Surface) -> Turn
    ensures is { (k : Written → State) →
        turn_state result k ≡ expect Mark.Close (expect Mark.Semicolon (k (written inner))) }
    ensures firm { (n : ℕ) → weight result.marks result.part n ≡ 0 }
{
    let marks = Marks::Two(Mark::Close, Mark::Semicolon);
    let part = Part::Done(inner);
    Turn { marks, part }
}

// The expression is read that was asked for.
fn follow_wish(
    alloc: Global,
    wish: Wish,
    expr: Expr<Name>,
    frames: &mut Vec<Open>,
) -> Result<Turn, NoMemory>
    ensures is { IfOk result (λ x. (k : Written → State) →
        turn_state x (open_next frames.new.items k)
        ≡ wish_next wish (open_next frames.old.items k) (tree expr)) }
    ensures firm { IfOk result (λ x. (n : ℕ) → weight x.marks x.part n ≡ 0) }
{
    match wish {
        Wish::Await(immediate, place) => Ok(conclude(built::wait(immediate, expr, place))),
        Wish::If(levels) => enter(levels, Open::Yes(levels, expr), frames),
        Wish::While(levels, place) => enter(levels, Open::While(expr, place), frames),
        Wish::Do(body, place) => {
            let repeated = built::do_while(alloc, body, expr, place)?;
            Ok(conclude(repeated))
        }
        Wish::Guard(mode, body) => {
            let guarded = built::guard(alloc, mode, body, expr)?;
            Ok(conclude(guarded))
        }
        Wish::Value(delayed, target, place) => Ok(Turn {
            marks: Marks::One(Mark::Semicolon),
            part: Part::Done(built::write(delayed, target, expr, place)),
        }),
        Wish::Index(name, place, aim) => {
            let index = Some(expr);
            Ok(Turn {
                marks: Marks::One(Mark::CloseBracket),
                part: Part::Aimed(aim, Target { name, index, place }),
            })
        }
    }
}

// An expression is over, and what waits for it goes on.
fn read(
    alloc: Global,
    expr: Rated,
    wish: Wish,
    mut pending: Vec<Pending>,
    frames: &mut Vec<Open>,
) -> Result<Turn, NoMemory>
    ensures is { IfOk result (λ x. (k : Written → State) →
        turn_state x (open_next frames.new.items k) ≡ expr_next pending.items
        (wish_next wish (open_next frames.old.items k)) (tree expr.expr)) }
    ensures falls { IfOk result (λ x. weight x.marks x.part (length frames.new.items)
        < 1 + (length pending.items + 2 * length frames.old.items)) }
{
    match pending.pop() {
        None => follow_wish(alloc, wish, expr.expr, frames),
        Some(waiting) => {
            let next = resume(alloc, expr, waiting, &mut pending)?;
            let reading = Reading {
                room: next.room,
                piece: next.piece,
                pending,
                wish,
            };
            Ok(Turn {
                marks: next.marks,
                part: Part::Expr(reading),
            })
        }
    }
}

// An expression goes on, or is over.
fn expression(
    alloc: Global,
    reading: Reading,
    item: Item<'_>,
    place: Place,
    frames: &mut Vec<Open>,
) -> Result<Move, NoMemory>
    ensures is { IfOk result (λ x. Turns x frames.old.items frames.new.items
        (token item.entry place) (λ next t. step (part_state (Part.Expr reading) next) t)) }
    ensures falls { IfOk result (λ x. Falls x (length frames.new.items)
        (1 + (length reading.pending.items + 2 * length frames.old.items))) }
{
    let mut pending = reading.pending;
    let wish = reading.wish;
    let outcome = offer_expression(
        alloc,
        reading.room,
        reading.piece,
        item,
        place,
        &mut pending,
    )?;
    match outcome {
        Outcome::Taken(next) => Ok(Move::Taken(Turn {
            marks: next.marks,
            part: Part::Expr(Reading {
                room: next.room,
                piece: next.piece,
                pending,
                wish,
            }),
        })),
        Outcome::Over(expr) => {
            let next = read(alloc, expr, wish, pending, frames)?;
            Ok(Move::Past(next))
        }
        Outcome::Stuck => Ok(Move::Stuck),
    }
}

/// What comes once a statement is read that another one waits for.
pub fn close(alloc: Global, inner: Surface, waiting: Open) -> Result<Turn, NoMemory>
    ensures is { IfOk result (λ x. (k : Written → State) →
        turn_state x k ≡ opened waiting k (written inner)) }
    ensures falls { IfOk result (λ x. (n : ℕ) → weight x.marks x.part n ≤ 1 + 2 * n) }
{
    match waiting {
        Open::Block(block) => {
            let block = add(block, inner)?;
            Ok(at_once(Part::Ready(block)))
        }
        Open::Yes(levels, cond) => Ok(at_once(Part::AfterIf(levels, cond, inner))),
        Open::No(cond, yes) => {
            let choice = built::if_else(alloc, cond, yes, inner)?;
            Ok(at_once(Part::Done(choice)))
        }
        Open::Loop(place) => {
            let repeated = built::repeat(alloc, inner, place)?;
            Ok(at_once(Part::Done(repeated)))
        }
        Open::Always(place) => {
            let repeated = built::always(alloc, inner, place)?;
            Ok(at_once(Part::Done(repeated)))
        }
        Open::While(cond, place) => {
            let repeated = built::repeat_while(alloc, cond, inner, place)?;
            Ok(at_once(Part::Done(repeated)))
        }
        Open::Do(place) => Ok(Turn {
            marks: Marks::Two(Mark::While, Mark::Open),
            part: expression_for(alloc, Wish::Do(inner, place)),
        }),
        Open::Guard(mode) => Ok(Turn {
            marks: Marks::Two(Mark::When, Mark::Open),
            part: expression_for(alloc, Wish::Guard(mode, inner)),
        }),
    }
}

// The part, with no mark before it.
fn at_once(part: Part) -> Turn
    ensures { result ≡ record { marks = Marks.Zero; part = part } }
{
    let marks = Marks::Zero;
    Turn { marks, part }
}

// A statement more in the block.
fn add(block: Block, inner: Surface) -> Result<Block, NoMemory>
    ensures { IfOk result (λ b. (k : Written → State) →
        part_state (Part.Ready b) k ≡ opened (Open.Block block) k (written inner)) }
{
    let mut statements = block.statements;
    statements.push(inner)?;
    Ok(Block {
        levels: block.levels,
        decls: block.decls,
        branches: block.branches,
        statements,
    })
}

/// What a token does to a statement of which this is to come.
pub fn offer(
    alloc: Global,
    part: Part,
    item: Item<'_>,
    place: Place,
    frames: &mut Vec<Open>,
) -> Result<Move, NoMemory>
    ensures is { IfOk result (λ x. Turns x frames.old.items frames.new.items
        (token item.entry place) (λ next t. step (part_state part next) t)) }
    ensures falls { IfOk result (λ x.
        Falls x (length frames.new.items) (weight Marks.Zero part (length frames.old.items))) }
{
    match part {
        Part::Expr(reading) => expression(alloc, reading, item, place, frames),
        Part::LocalType(part, locals) => Ok(local_type(part, locals, item, place)),
        Part::LocalInit(part, typing, name, at, locals) => {
            local_init(part, typing, name, at, locals, item, place)
        }
        Part::AfterTarget(name, at, aim) => Ok(after_target(alloc, name, at, aim, item)),
        Part::Aimed(aim, target) => Ok(Move::Past(follow_aim(alloc, aim, target))),
        Part::AfterIf(levels, cond, yes) => after_if(alloc, levels, cond, yes, item, frames),
        Part::Done(inner) => Ok(Move::Over(inner)),
        Part::Locals(locals) => {
            let next = declare_or_go_on(alloc, locals, item, place, frames)?;
            Ok(settle(next))
        }
        Part::Ready(block) => {
            let next = ready(alloc, block, item, place, frames)?;
            Ok(settle(next))
        }
        Part::Begin(levels) => {
            let next = begin(alloc, levels, item, place, frames)?;
            Ok(settle(next))
        }
        Part::LocalName(typing, locals) => {
            let next = local_name(alloc, typing, locals, item, place)?;
            Ok(settle(next))
        }
        Part::Declared(typing, locals) => Ok(settle(after_local(typing, locals, item))),
        Part::AfterWord(name, at) => Ok(settle(after_word(alloc, name, at, item))),
        Part::Labelled => Ok(settle(after_label(alloc, item, place))),
        Part::AfterImmediate(levels, at) => {
            let next = after_immediate(alloc, levels, at, item, frames)?;
            Ok(settle(next))
        }
        Part::AfterWeak(levels) => {
            let next = after_weak(levels, item, frames)?;
            Ok(settle(next))
        }
        Part::AfterMode(levels, weak, immediate) => {
            let next = after_mode(levels, weak, immediate, item, frames)?;
            Ok(settle(next))
        }
        Part::AfterEmit(at) => {
            let next = after_emit(alloc, at, item, place)?;
            Ok(settle(next))
        }
        Part::FirstArg(callee, at) => {
            let next = first_arg(alloc, callee, at, item, place)?;
            Ok(settle(next))
        }
        Part::AfterArg(callee, at, args) => Ok(settle(after_arg(callee, at, args, item))),
        Part::NextArg(callee, at, args) => {
            let next = next_arg(alloc, callee, at, args, item, place)?;
            Ok(settle(next))
        }
        Part::TargetName(aim) => {
            let next = target_name(alloc, aim, item, place)?;
            Ok(settle(next))
        }
    }
}

/// What is left of a statement of which this is to come, where the tokens end.
pub fn leave(alloc: Global, part: Part, frames: &mut Vec<Open>) -> Result<Leaving, NoMemory>
    ensures is { IfOk result (λ x. (k : Written → State) → left x (open_next frames.new.items k)
        ≡ ended (part_state part (open_next frames.old.items k))) }
    ensures falls { IfOk result (λ x.
        LeavesLess x (length frames.new.items) (weight Marks.Zero part (length frames.old.items))) }
{
    match part {
        Part::Expr(reading) => leave_expression(alloc, reading, frames),
        Part::LocalType(part, locals) => match whole_type(part) {
            Some(typing) => Ok(in_place(Part::LocalName(typing, locals))),
            None => Ok(Leaving::Stuck),
        },
        Part::LocalInit(part, typing, name, at, locals) => match whole_init(part) {
            Some(init) => {
                let part = declare(typing, name, at, init, locals)?;
                Ok(in_place(part))
            }
            None => Ok(Leaving::Stuck),
        },
        Part::AfterTarget(name, place, aim) => {
            let index = None;
            Ok(Leaving::Past(follow_aim(alloc, aim, Target { name, index, place })))
        }
        Part::Aimed(aim, target) => Ok(Leaving::Past(follow_aim(alloc, aim, target))),
        Part::AfterIf(_, cond, yes) => {
            let alone = built::only_if(alloc, cond, yes)?;
            Ok(Leaving::Over(alone))
        }
        Part::Done(inner) => Ok(Leaving::Over(inner)),
        _ => Ok(Leaving::Stuck),
    }
}

fn leave_expression(
    alloc: Global,
    reading: Reading,
    frames: &mut Vec<Open>,
) -> Result<Leaving, NoMemory>
    ensures is { IfOk result (λ x. (k : Written → State) → left x (open_next frames.new.items k)
        ≡ ended (part_state (Part.Expr reading) (open_next frames.old.items k))) }
    ensures falls { IfOk result (λ x. LeavesLess x (length frames.new.items)
        (1 + (length reading.pending.items + 2 * length frames.old.items))) }
{
    match whole(reading.room, reading.piece) {
        Some(expr) => {
            let next = read(alloc, expr, reading.wish, reading.pending, frames)?;
            Ok(Leaving::Past(next))
        }
        None => Ok(Leaving::Stuck),
    }
}

// What is left is to be seen from this part.
fn in_place(part: Part) -> Leaving
    ensures { result ≡ Leaving.Past (record { marks = Marks.Zero; part = part }) }
{
    let marks = Marks::Zero;
    Leaving::Past(Turn { marks, part })
}
