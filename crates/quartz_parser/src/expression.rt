//! Expressions, read a token at a time.

ghost use Rattle.std.specs.Prelude.{◌≡◌, ◌≤◌, ◌-◌, ◌&&◌, true, length, nat_le, nat_lt, if◌then◌else◌, Some, None, IfOk, MatchOption};
ghost use Rattle.quartz_tree.specs.Tree.{Tree, named, tree as plain};
ghost use Rattle.quartz_tree.specs.Surfaces.{Word};
ghost use Rattle.quartz_parser.specs.Grammar.{level as level_of, row as row_of, left_row as left_row_of, right_row as right_row_of};
ghost use Rattle.quartz_parser.specs.Machine.{State, expect, want as wanted, tail as behind_all, want_on, tail_on, after_name_on, after_high_on, after_high as behind_high, tightest as tightest_of, step, ended, only};
ghost use Rattle.quartz_parser.specs.Tokens.{Token, infix_sign, mark as mark_token};
ghost use Rattle.quartz_parser.specs.Views.{token, behind, resumed, expr_next, next_state, operand, outcome, is_over, Moves, WaitsAsBefore};

use crate::item::{Item, is_mark};
use crate::marks::Marks;
use crate::rated::{Rated, row};
use crate::symbol::Mark;
use quartz_tree::{Binary, Expr, Name, NoMemory, Place, Unary};
use std::alloc::Global;

/// The loosest row of operators that an expression may have, and its most levels.
#[derive(Clone, Copy)]
pub struct Room {
    pub row: u32,
    pub levels: u32,
}

/// What waits for an expression.
#[derive(Drop)]
pub enum Begun {
    One(Unary),
    Right(Binary, Rated),
    Yes(Rated),
    No(Rated, Rated),
    Paren,
    ToNat,
    ToBv,
    Index(Name),
}

/// An expression around one that is read, with its room and its place.
#[derive(Drop)]
pub struct Pending {
    pub begun: Begun,
    pub room: Room,
    pub place: Place,
}

/// What is to come of an expression.
#[derive(Drop)]
pub enum Piece {
    Whole,
    /// What may come behind a name.
    AfterName(Name, Place),
    /// What may come behind an expression.
    Tail(Rated),
    /// The number behind a `{`.
    High(Rated, Place),
    AfterHigh(Rated, u128, Place),
    /// The number behind a `:`.
    Low(Rated, u128, Place),
    /// The second argument of `nat2bv`.
    Width(Rated, Place),
}

/// Marks, and what is to come of an expression behind them.
#[derive(Drop)]
pub struct Next {
    pub marks: Marks,
    pub room: Room,
    pub piece: Piece,
}

/// What a token does to an expression.
#[derive(Drop)]
pub enum Outcome {
    Taken(Next),
    /// It is not of the expression, which is over.
    Over(Rated),
    Stuck,
}

// The piece comes next.
fn take(room: Room, piece: Piece) -> Outcome
    ensures { (k : Tree Word → State) (t : Token) →
        outcome result k t ≡ Some (operand room piece k) }
{
    Outcome::Taken(Next {
        marks: Marks::Zero,
        room,
        piece,
    })
}

// An expression of this row comes, for another one that waits for it.
fn nest(
    room: Room,
    begun: Begun,
    row: u32,
    marks: Marks,
    place: Place,
    pending: &mut Vec<Pending>,
) -> Result<Outcome, NoMemory>
    ensures is { IfOk result (λ o. (t : Token) →
        Moves o pending.old.items pending.new.items t (λ next _. Some (behind marks
        (wanted row (room.levels - 1) (resumed begun room.row room.levels place next))))) }
    ensures kept { IfOk result (λ o. is_over o ≡ true →
        length pending.new.items ≡ length pending.old.items) }
{
    let inner = Room {
        row,
        levels: room.levels.saturating_sub(1),
    };
    pending.push(Pending { begun, room, place })?;
    Ok(Outcome::Taken(Next {
        marks,
        room: inner,
        piece: Piece::Whole,
    }))
}

// The same, where there is a level left.
fn begin(
    room: Room,
    begun: Begun,
    row: u32,
    marks: Marks,
    place: Place,
    pending: &mut Vec<Pending>,
) -> Result<Outcome, NoMemory>
    ensures is { IfOk result (λ o. (t : Token) → Moves o pending.old.items pending.new.items t
        (λ next _. only (nat_lt 1 room.levels) (behind marks
        (wanted row (room.levels - 1) (resumed begun room.row room.levels place next))))) }
    ensures kept { IfOk result (λ o. is_over o ≡ true →
        length pending.new.items ≡ length pending.old.items) }
{
    if 1 < room.levels {
        nest(room, begun, row, marks, place, pending)
    } else {
        Ok(Outcome::Stuck)
    }
}

fn want_mark(
    room: Room,
    mark: Mark,
    place: Place,
    pending: &mut Vec<Pending>,
) -> Result<Outcome, NoMemory>
    ensures is { IfOk result (λ o. Moves o pending.old.items pending.new.items
        (mark_token mark place) (want_on room.row room.levels)) }
    ensures kept { IfOk result (λ o. is_over o ≡ true →
        length pending.new.items ≡ length pending.old.items) }
{
    let zero = Marks::Zero;
    let open = Marks::One(Mark::Open);
    match mark {
        Mark::Bang => begin(room, Begun::One(Unary::Not), 11, zero, place, pending),
        Mark::Open => begin(room, Begun::Paren, 0, zero, place, pending),
        Mark::ToNat => begin(room, Begun::ToNat, 0, open, place, pending),
        Mark::ToBv => begin(room, Begun::ToBv, 0, open, place, pending),
        _ => Ok(Outcome::Stuck),
    }
}

// An expression begins.
fn want(
    alloc: Global,
    room: Room,
    item: Item<'_>,
    place: Place,
    pending: &mut Vec<Pending>,
) -> Result<Outcome, NoMemory>
    ensures is { IfOk result (λ o. Moves o pending.old.items pending.new.items
        (token item.entry place) (want_on room.row room.levels)) }
    ensures kept { IfOk result (λ o. is_over o ≡ true →
        length pending.new.items ≡ length pending.old.items) }
{
    let expr = match item {
        Item::Truth(value) => Expr::Truth { value, place },
        Item::Number(value) => Expr::Number { value, place },
        Item::Bits { width, value } => Expr::Bits {
            width,
            value,
            place,
        },
        Item::Name(name) => {
            let name = Name::new(alloc, name)?;
            return Ok(take(room, Piece::AfterName(name, place)));
        }
        Item::Infix(Binary::Sub) => {
            let minus = Begun::One(Unary::Neg);
            return begin(room, minus, 11, Marks::Zero, place, pending);
        }
        Item::Mark(mark) => return want_mark(room, mark, place, pending),
        _ => return Ok(Outcome::Stuck),
    };
    Ok(take(room, Piece::Tail(Rated { expr, level: 1 })))
}

fn left_row(row: u32) -> u32
    ensures { result ≡ left_row_of row }
{
    if row == 2 { 3 } else { row }
}

fn right_row(row: u32) -> u32
    requires { row ≤ 10 }
    ensures { result ≡ right_row_of row }
{
    if row == 2 { 2 } else { row + 1 }
}

// Whether an operator of the row, which takes a left operand from another row on, may follow the
// expression.
fn may_follow(room: Room, row: u32, operand_row: u32, left: &Rated) -> bool
    ensures { result ≡ (nat_le room.row row && (nat_le operand_row (tightest_of
        (plain left.now.expr)) && nat_lt (level_of (plain left.now.expr)) room.levels)) }
{
    room.row <= row && operand_row <= left.tightest() && left.is_below(room.levels)
}

fn operate(
    room: Room,
    op: Binary,
    left: Rated,
    place: Place,
    pending: &mut Vec<Pending>,
) -> Result<Outcome, NoMemory>
    ensures is { IfOk result (λ o.
        Moves o pending.old.items pending.new.items (infix_sign op place) (λ next t.
        tail_on room.row room.levels (plain left.expr) next t (step (next (plain left.expr)) t))) }
    ensures kept { IfOk result (λ o. is_over o ≡ true →
        length pending.new.items ≡ length pending.old.items) }
{
    let row = row(op);
    if may_follow(room, row, left_row(row), &left) {
        let right = Begun::Right(op, left);
        nest(room, right, right_row(row), Marks::Zero, place, pending)
    } else {
        Ok(Outcome::Over(left))
    }
}

fn choose(
    room: Room,
    cond: Rated,
    place: Place,
    pending: &mut Vec<Pending>,
) -> Result<Outcome, NoMemory>
    ensures is { IfOk result (λ o.
        Moves o pending.old.items pending.new.items (mark_token Mark.Question place) (λ next t.
        tail_on room.row room.levels (plain cond.expr) next t (step (next (plain cond.expr)) t))) }
    ensures kept { IfOk result (λ o. is_over o ≡ true →
        length pending.new.items ≡ length pending.old.items) }
{
    if may_follow(room, 0, 1, &cond) {
        nest(room, Begun::Yes(cond), 0, Marks::Zero, place, pending)
    } else {
        Ok(Outcome::Over(cond))
    }
}

fn cut(room: Room, part: Rated, place: Place) -> Outcome
    ensures { (k : Tree Word → State) → outcome result k (mark_token Mark.OpenBrace place)
        ≡ tail_on room.row room.levels (plain part.expr) k (mark_token Mark.OpenBrace place)
        (step (k (plain part.expr)) (mark_token Mark.OpenBrace place)) }
{
    if 12 <= part.tightest() && part.is_below(room.levels) {
        take(room, Piece::High(part, place))
    } else {
        Outcome::Over(part)
    }
}

// An expression goes on, or is over.
fn tail(
    room: Room,
    left: Rated,
    item: Item<'_>,
    place: Place,
    pending: &mut Vec<Pending>,
) -> Result<Outcome, NoMemory>
    ensures is { IfOk result (λ o.
        Moves o pending.old.items pending.new.items (token item.entry place) (λ next t.
        tail_on room.row room.levels (plain left.expr) next t (step (next (plain left.expr)) t))) }
    ensures kept { IfOk result (λ o. is_over o ≡ true →
        length pending.new.items ≡ length pending.old.items) }
{
    match item {
        Item::Infix(op) => operate(room, op, left, place, pending),
        Item::Mark(Mark::Question) => choose(room, left, place, pending),
        Item::Mark(Mark::OpenBrace) => Ok(cut(room, left, place)),
        _ => Ok(Outcome::Over(left)),
    }
}

// What follows a name.
fn after_name(
    room: Room,
    name: Name,
    at: Place,
    item: Item<'_>,
    place: Place,
    pending: &mut Vec<Pending>,
) -> Result<Outcome, NoMemory>
    ensures is { IfOk result (λ o.
        Moves o pending.old.items pending.new.items (token item.entry place) (λ next t.
        after_name_on room.row room.levels name at next t (step (next (named name at)) t))) }
    ensures kept { IfOk result (λ o. is_over o ≡ true →
        length pending.new.items ≡ length pending.old.items) }
{
    if is_mark(item, Mark::OpenBracket) {
        begin(room, Begun::Index(name), 0, Marks::Zero, at, pending)
    } else {
        tail(room, variable(name, at), item, place, pending)
    }
}

// A name by itself.
fn variable(var: Name, place: Place) -> Rated
    ensures { plain result.expr ≡ named var place }
{
    let expr = Expr::Named { var, place };
    Rated { expr, level: 1 }
}

// What follows the first number between braces.
fn after_high(
    alloc: Global,
    room: Room,
    part: Rated,
    high: u128,
    at: Place,
    item: Item<'_>,
) -> Result<Outcome, NoMemory>
    ensures { IfOk result (λ o. (k : Tree Word → State) (p : Place) →
        outcome o k (token item.entry p)
        ≡ after_high_on room.row room.levels (plain part.expr) high at k (token item.entry p)) }
{
    match item {
        Item::Mark(Mark::CloseBrace) => {
            let slice = Rated::slice(alloc, part, high, None, at)?;
            Ok(take(room, Piece::Tail(slice)))
        }
        Item::Mark(Mark::Colon) => Ok(take(room, Piece::Low(part, high, at))),
        _ => Ok(Outcome::Stuck),
    }
}

// An expression behind one more mark.
fn close_with(room: Room, mark: Mark, expr: Rated) -> Outcome
    ensures { (k : Tree Word → State) (t : Token) → outcome result k t
        ≡ Some (expect mark (behind_all room.row room.levels (plain expr.expr) k)) }
{
    Outcome::Taken(Next {
        marks: Marks::One(mark),
        room,
        piece: Piece::Tail(expr),
    })
}

/// Whether the expression may be over here, and then the expression.
pub fn whole(room: Room, piece: Piece) -> Option<Rated>
    ensures { (k : Tree Word → State) → MatchOption result (ended (operand room piece k)
        ≡ None) (λ e. ended (operand room piece k) ≡ ended (k (plain e.expr))) }
{
    match piece {
        Piece::AfterName(name, at) => Some(variable(name, at)),
        Piece::Tail(expr) => Some(expr),
        _ => None,
    }
}

/// What a token does to an expression of which this is to come.
pub fn offer(
    alloc: Global,
    room: Room,
    piece: Piece,
    item: Item<'_>,
    place: Place,
    pending: &mut Vec<Pending>,
) -> Result<Outcome, NoMemory>
    ensures is { IfOk result (λ o. Moves o pending.old.items pending.new.items
        (token item.entry place) (λ next t. step (operand room piece next) t)) }
    ensures kept { IfOk result (λ o. is_over o ≡ true →
        length pending.new.items ≡ length pending.old.items) }
{
    match piece {
        Piece::Whole => want(alloc, room, item, place, pending),
        Piece::AfterName(name, at) => after_name(room, name, at, item, place, pending),
        Piece::Tail(expr) => tail(room, expr, item, place, pending),
        Piece::AfterHigh(part, high, at) => after_high(alloc, room, part, high, at, item),
        Piece::High(part, at) => match item {
            Item::Number(high) => Ok(take(room, Piece::AfterHigh(part, high, at))),
            _ => Ok(Outcome::Stuck),
        },
        Piece::Low(part, high, at) => match item {
            Item::Number(low) => {
                let slice = Rated::slice(alloc, part, high, Some(low), at)?;
                Ok(close_with(room, Mark::CloseBrace, slice))
            }
            _ => Ok(Outcome::Stuck),
        },
        Piece::Width(part, at) => match item {
            Item::Number(width) => {
                let word = Rated::to_bv(alloc, part, width, place, at)?;
                Ok(close_with(room, Mark::Close, word))
            }
            _ => Ok(Outcome::Stuck),
        },
    }
}

// The second alternative of a choice comes.
fn alternative(
    room: Room,
    cond: Rated,
    yes: Rated,
    place: Place,
    pending: &mut Vec<Pending>,
) -> Result<Next, NoMemory>
    ensures is { IfOk result (λ x. (k : Tree Word → State) →
        next_state x (expr_next pending.new.items k) ≡ resumed (Begun.Yes cond)
        room.row room.levels place (expr_next pending.old.items k) (plain yes.expr)) }
    ensures colon { IfOk result (λ x. x.marks ≡ Marks.One Mark.Colon) }
{
    let begun = Begun::No(cond, yes);
    pending.push(Pending { begun, room, place })?;
    Ok(Next {
        marks: Marks::One(Mark::Colon),
        room: Room {
            row: 0,
            levels: room.levels.saturating_sub(1),
        },
        piece: Piece::Whole,
    })
}

/// What comes once an expression is read that another one waits for.
pub fn resume(
    alloc: Global,
    expr: Rated,
    waiting: Pending,
    pending: &mut Vec<Pending>,
) -> Result<Next, NoMemory>
    ensures is { IfOk result (λ x. (k : Tree Word → State) →
        next_state x (expr_next pending.new.items k) ≡ resumed waiting.begun waiting.room.row
        waiting.room.levels waiting.place (expr_next pending.old.items k) (plain expr.expr)) }
    ensures kept { IfOk result (λ x. WaitsAsBefore x.marks pending.old.items pending.new.items) }
{
    let room = waiting.room;
    let place = waiting.place;
    let (marks, piece) = match waiting.begun {
        Begun::One(op) => (
            Marks::Zero,
            Piece::Tail(Rated::one(alloc, op, expr, place)?),
        ),
        Begun::Right(op, left) => (
            Marks::Zero,
            Piece::Tail(Rated::two(alloc, op, left, expr, place)?),
        ),
        Begun::Yes(cond) => return alternative(room, cond, expr, place, pending),
        Begun::No(cond, yes) => (
            Marks::Zero,
            Piece::Tail(Rated::choice(alloc, cond, yes, expr, place)?),
        ),
        Begun::Paren => (
            Marks::One(Mark::Close),
            Piece::Tail(Rated::paren(alloc, expr, place)?),
        ),
        Begun::ToNat => (
            Marks::One(Mark::Close),
            Piece::Tail(Rated::to_nat(alloc, expr, place)?),
        ),
        Begun::ToBv => (Marks::One(Mark::Comma), Piece::Width(expr, place)),
        Begun::Index(var) => (
            Marks::One(Mark::CloseBracket),
            Piece::Tail(Rated::element(alloc, var, expr, place)?),
        ),
    };
    Ok(Next { marks, room, piece })
}
