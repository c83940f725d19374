//! Expressions with their levels, made of their parts.

ghost use Rattle.std.specs.Prelude.{◌≡◌, ◌≤◌, ◌-◌, ◌^◌, min, nat_lt, Some, None, IfOk};
ghost use Rattle.quartz_tree.specs.Tree as tree;
ghost use Rattle.quartz_tree.specs.Tree.{tree as plain};
ghost use Rattle.quartz_parser.specs.Grammar.{level as level_of, row as row_of};
ghost use Rattle.quartz_parser.specs.Machine.{tightest as tightest_of};

use quartz_tree::{Binary, Expr, Name, NoMemory, Place, Unary};
use std::alloc::Global;

/// An expression with its level.
#[derive(Drop)]
pub struct Rated {
    pub expr: Expr<Name>,
    /// Counted no further than a `u32` goes.
    pub level: u32,
    pub ghost exact: { level ≡ min (level_of (plain expr)) (2 ^ 32 - 1) },
}

impl Rated {
    pub fn is_below(&self, levels: u32) -> bool
        ensures { result ≡ nat_lt (level_of (plain self.now.expr)) levels }
    {
        self.level < levels
    }

    /// The expression behind an operator.
    pub fn one(alloc: Global, op: Unary, part: Rated, place: Place) -> Result<Rated, NoMemory>
        ensures { IfOk result (λ r. plain r.expr ≡ tree.one op (plain part.expr) place) }
    {
        let level = part.level.saturating_add(1);
        let part = Box::new(alloc, part.expr)?;
        Ok(Rated {
            expr: Expr::One { op, part, place },
            level,
        })
    }

    pub fn two(
        alloc: Global,
        op: Binary,
        left: Rated,
        right: Rated,
        place: Place,
    ) -> Result<Rated, NoMemory>
        ensures { IfOk result (λ r. plain r.expr
            ≡ tree.two op (plain left.expr) (plain right.expr) place) }
    {
        let level = left.level.max(right.level).saturating_add(1);
        let left = Box::new(alloc, left.expr)?;
        let right = Box::new(alloc, right.expr)?;
        Ok(Rated {
            expr: Expr::Two {
                op,
                left,
                right,
                place,
            },
            level,
        })
    }

    pub fn choice(
        alloc: Global,
        cond: Rated,
        yes: Rated,
        no: Rated,
        place: Place,
    ) -> Result<Rated, NoMemory>
        ensures { IfOk result (λ r. plain r.expr
            ≡ tree.choice (plain cond.expr) (plain yes.expr) (plain no.expr) place) }
    {
        let level = cond.level.max(yes.level.max(no.level)).saturating_add(1);
        let cond = Box::new(alloc, cond.expr)?;
        let yes = Box::new(alloc, yes.expr)?;
        let no = Box::new(alloc, no.expr)?;
        Ok(Rated {
            expr: Expr::Choice {
                cond,
                yes,
                no,
                place,
            },
            level,
        })
    }

    pub fn element(alloc: Global, var: Name, index: Rated, place: Place) -> Result<Rated, NoMemory>
        ensures { IfOk result (λ r. plain r.expr ≡ tree.element var (plain index.expr) place) }
    {
        let level = index.level.saturating_add(1);
        let index = Box::new(alloc, index.expr)?;
        Ok(Rated {
            expr: Expr::Element { var, index, place },
            level,
        })
    }

    pub fn slice(
        alloc: Global,
        part: Rated,
        high: u128,
        low: Option<u128>,
        place: Place,
    ) -> Result<Rated, NoMemory>
        ensures { IfOk result (λ r. plain r.expr ≡ tree.slice (plain part.expr) high low place) }
    {
        let level = part.level.saturating_add(1);
        let part = Box::new(alloc, part.expr)?;
        Ok(Rated {
            expr: Expr::Slice {
                part,
                high,
                low,
                place,
            },
            level,
        })
    }

    pub fn to_nat(alloc: Global, part: Rated, place: Place) -> Result<Rated, NoMemory>
        ensures { IfOk result (λ r. plain r.expr ≡ tree.to_nat (plain part.expr) place) }
    {
        let level = part.level.saturating_add(1);
        let part = Box::new(alloc, part.expr)?;
        Ok(Rated {
            expr: Expr::ToNat { part, place },
            level,
        })
    }

    pub fn to_bv(
        alloc: Global,
        part: Rated,
        width: u128,
        width_place: Place,
        place: Place,
    ) -> Result<Rated, NoMemory>
        ensures { IfOk result (λ r. plain r.expr
            ≡ tree.to_bv (plain part.expr) width width_place place) }
    {
        let level = part.level.saturating_add(1);
        let part = Box::new(alloc, part.expr)?;
        Ok(Rated {
            expr: Expr::ToBv {
                part,
                width,
                width_place,
                place,
            },
            level,
        })
    }

    pub fn paren(alloc: Global, part: Rated, place: Place) -> Result<Rated, NoMemory>
        ensures { IfOk result (λ r. plain r.expr ≡ tree.paren (plain part.expr) place) }
    {
        let level = part.level.saturating_add(1);
        let part = Box::new(alloc, part.expr)?;
        Ok(Rated {
            expr: Expr::Paren { part, place },
            level,
        })
    }

    /// The tightest row of operators that takes it as an operand.
    pub fn tightest(&self) -> u32
        ensures { result ≡ tightest_of (plain self.now.expr) }
    {
        match &self.expr {
            Expr::Two { op, .. } => row(*op),
            Expr::Choice { .. } => 0,
            Expr::One { .. } => 11,
            Expr::Slice { .. } => 12,
            Expr::Truth { .. }
            | Expr::Number { .. }
            | Expr::Bits { .. }
            | Expr::Named { .. }
            | Expr::Element { .. }
            | Expr::ToNat { .. }
            | Expr::ToBv { .. }
            | Expr::Paren { .. } => 13,
        }
    }
}

/// The operator's row, the loosest first.
pub fn row(op: Binary) -> u32
    ensures is { result ≡ row_of op }
    ensures bound { result ≤ 10 }
{
    match op {
        Binary::Iff => 1,
        Binary::Implies => 2,
        Binary::Or => 3,
        Binary::Xor => 4,
        Binary::And => 5,
        Binary::Eq | Binary::Ne => 6,
        Binary::Lt | Binary::Le | Binary::Gt | Binary::Ge => 7,
        Binary::Cat => 8,
        Binary::Add | Binary::Sub => 9,
        Binary::Mul | Binary::Div | Binary::Rem => 10,
    }
}
