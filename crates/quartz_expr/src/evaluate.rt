//! The value, the kind and the least fault of an expression.

ghost use Rattle.std.specs.Prelude.{◌≡◌, ◌<◌, ◌≤◌, ◌≤ℤ◌, pos};
ghost use Rattle.quartz_tree.specs.Least.{least_fault, lesser_fault};
ghost use Rattle.quartz_tree.specs.Tree.{tree};
ghost use Rattle.quartz_expr.specs.Value.{apply_one, apply_two, bits_of, joined, quotient, remainder, value, width_in};
ghost use Rattle.quartz_expr.specs.Kinds.{kind};
ghost use Rattle.quartz_expr.specs.Faults.{faults};
ghost use Rattle.quartz_expr.specs.Computable.{IsComputable, IsSmall, Suits};
ghost use Rattle.quartz_expr.specs.Intervals.{Lies, interval};
ghost use Rattle.quartz_expr.specs.Typed.{AreSound, Fits, IsTyped};

use crate::env::Env;
use crate::fault::{divisor_fault, index_fault, lesser_of};
use crate::kind::{
    ExprKind, counted_width, kind_of, kind_of_bits, kind_of_choice, kind_of_element, kind_of_name,
    kind_of_number, kind_of_one, kind_of_slice, kind_of_two,
};
use quartz_tree::{Binary, Expr, Fault, Unary, Var};

/// What is found of an expression: its value, its kind, and the least fault of what was evaluated.
#[derive(Clone, Copy, Debug)]
pub(crate) struct Found {
    pub value: i64,
    pub kind: Option<ExprKind>,
    pub fault: Option<Fault>,
}

/// Evaluates an expression whose parts are small, each evaluated part once.
#[tactic(auto, using(crate::proofs::LeastLemmas::least_append, crate::proofs::LeastLemmas::least_element, crate::proofs::LeastLemmas::least_two))]
pub(crate) fn evaluated(e: &Expr<u32>, vars: &[Var], env: &Env) -> Found
    requires { IsComputable vars.now env.now.values (tree e.now) }
    ensures value { result.value ≡ value vars.now env.now.values (tree e.now) }
    ensures kind { result.kind ≡ kind vars.now (tree e.now) }
    ensures fault { result.fault ≡ least_fault (faults vars.now env.now.values (tree e.now)) }
{
    match e {
        Expr::Truth { value, .. } => sound(*value as i64, Some(ExprKind::Boolean)),
        Expr::Number { value, .. } => sound(*value as i64, Some(ExprKind::Numeric)),
        Expr::Bits { width, value, .. } => sound(
            *value as i64,
            Some(ExprKind::Vector(counted_width(*width as u128))),
        ),
        Expr::Named { var, .. } => sound(env.element(*var, 0), kind_of_name(*var, vars)),
        Expr::Element { var, index, place } => {
            let index = evaluated(index, vars, env);
            Found {
                value: env.element(*var, index.value),
                kind: kind_of_element(*var, index.kind, vars),
                fault: lesser_of(index.fault, index_fault(*var, index.value, *place, vars)),
            }
        }
        Expr::One { op, part, .. } => {
            let part = evaluated(part, vars, env);
            Found {
                value: operate_on(*op, part.kind, part.value),
                kind: kind_of_one(*op, part.kind),
                fault: part.fault,
            }
        }
        Expr::Two {
            op,
            left,
            right,
            place,
        } => {
            let left = evaluated(left, vars, env);
            let right = evaluated(right, vars, env);
            let own = divisor_fault(*op, right.value, *place);
            Found {
                value: operate(*op, width_of_kind(right.kind), left.value, right.value),
                kind: kind_of_two(*op, left.kind, right.kind),
                fault: lesser_of(left.fault, lesser_of(right.fault, own)),
            }
        }
        Expr::Choice { cond, yes, no, .. } => {
            let cond = evaluated(cond, vars, env);
            if cond.value != 0 {
                let yes = evaluated(yes, vars, env);
                chosen(
                    cond,
                    yes,
                    kind_of_choice(cond.kind, yes.kind, kind_of(no, vars)),
                )
            } else {
                let no = evaluated(no, vars, env);
                chosen(
                    cond,
                    no,
                    kind_of_choice(cond.kind, kind_of(yes, vars), no.kind),
                )
            }
        }
        Expr::Slice {
            part,
            high,
            low,
            ..
        } => {
            let part = evaluated(part, vars, env);
            let lowest = low.unwrap_or(*high);
            Found {
                value: slice(part.value, *high as u32, lowest as u32),
                kind: kind_of_slice(*high, *low, part.kind),
                fault: part.fault,
            }
        }
        Expr::ToNat { part, .. } => {
            let part = evaluated(part, vars, env);
            Found {
                kind: kind_of_number(part.kind),
                ..part
            }
        }
        Expr::ToBv { part, width, .. } => {
            let part = evaluated(part, vars, env);
            Found {
                kind: kind_of_bits(part.kind, *width),
                ..part
            }
        }
        Expr::Paren { part, .. } => evaluated(part, vars, env),
    }
}

// A value that was found without a fault.
fn sound(value: i64, kind: Option<ExprKind>) -> Found
    ensures { result ≡ record { value = value; kind = kind; fault = None } }
{
    Found {
        value,
        kind,
        fault: None,
    }
}

// A choice of that kind whose side was evaluated behind its condition.
fn chosen(cond: Found, side: Found, kind: Option<ExprKind>) -> Found
    ensures { result ≡ record {
      value = side.value;
      kind = kind;
      fault = lesser_fault cond.fault side.fault;
    } }
{
    Found {
        value: side.value,
        kind,
        fault: lesser_of(cond.fault, side.fault),
    }
}

fn width_of_kind(kind: Option<ExprKind>) -> u32
    ensures { result ≡ width_in kind }
{
    match kind {
        Some(ExprKind::Vector(width)) => width,
        _ => 0,
    }
}

fn operate_on(op: Unary, kind: Option<ExprKind>, a: i64) -> i64
    requires small { IsSmall a }
    requires width { width_in kind ≤ 32 }
    ensures { result ≡ apply_one op kind a }
{
    match (op, kind) {
        (Unary::Neg, _) => -a,
        (Unary::Not, Some(ExprKind::Boolean)) => (a == 0) as i64,
        (Unary::Not, Some(ExprKind::Vector(width))) => (1 << width) - 1 - a,
        (Unary::Not, _) => 0,
    }
}

fn operate(op: Binary, width: u32, a: i64, b: i64) -> i64
    requires left { IsSmall a }
    requires right { IsSmall b }
    requires whole { IsSmall (apply_two op width a b) }
    requires suits { Suits op width a b }
    ensures { result ≡ apply_two op width a b }
{
    match op {
        Binary::Iff | Binary::Eq => (a == b) as i64,
        Binary::Implies => (a == 0 || b != 0) as i64,
        Binary::Or => a | b,
        Binary::Xor => a ^ b,
        Binary::And => a & b,
        Binary::Ne => (a != b) as i64,
        Binary::Lt => (a < b) as i64,
        Binary::Le => (a <= b) as i64,
        Binary::Gt => (a > b) as i64,
        Binary::Ge => (a >= b) as i64,
        Binary::Cat => join(width, a, b),
        Binary::Add => a + b,
        Binary::Sub => a - b,
        Binary::Mul => a * b,
        Binary::Div => divide(a, b),
        Binary::Rem => rest(a, b),
    }
}

fn join(width: u32, a: i64, b: i64) -> i64
    requires narrow { width ≤ 32 }
    requires left { pos 0 ≤ℤ a }
    requires right { pos 0 ≤ℤ b }
    requires whole { IsSmall (joined width a b) }
    ensures { result ≡ joined width a b }
{
    a * (1 << width) + b
}

fn divide(a: i64, b: i64) -> i64
    requires { IsSmall a }
    ensures { result ≡ quotient a b }
{
    if b == 0 { 0 } else { a / b }
}

fn rest(a: i64, b: i64) -> i64
    requires { IsSmall a }
    ensures { result ≡ remainder a b }
{
    if b == 0 { 0 } else { a % b }
}

fn slice(a: i64, high: u32, low: u32) -> i64
    requires sign { pos 0 ≤ℤ a }
    requires within { high < 32 }
    requires order { low ≤ high }
    ensures { result ≡ bits_of a high low }
{
    (a / (1 << low)) % (1 << (high - low + 1))
}

/// The value of an expression: a zero divisor and an index out of range give 0.
#[tactic(auto, using(crate::proofs::WithinLemmas::computable_of))]
pub fn eval(e: &Expr<u32>, vars: &[Var], env: &Env) -> i64
    requires sound { AreSound vars.now }
    requires typed { IsTyped vars.now (tree e.now) }
    requires fits { Fits vars.now env.now.values }
    ensures value { result ≡ value vars.now env.now.values (tree e.now) }
    ensures within { Lies (interval vars.now (tree e.now)) result }
{
    evaluated(e, vars, env).value
}

/// The least fault of the parts of an expression that are evaluated, and None where there is none.
#[tactic(auto, using(crate::proofs::WithinLemmas::computable_of))]
pub fn bad(e: &Expr<u32>, vars: &[Var], env: &Env) -> Option<Fault>
    requires sound { AreSound vars.now }
    requires typed { IsTyped vars.now (tree e.now) }
    requires fits { Fits vars.now env.now.values }
    ensures { result ≡ least_fault (faults vars.now env.now.values (tree e.now)) }
{
    evaluated(e, vars, env).fault
}
