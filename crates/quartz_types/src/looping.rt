//! The rule that no loop has a body that may be instant.

ghost use Rattle.std.specs.Prelude.{◌≡◌, ◌&&◌, ◌||◌, map};
ghost use Rattle.quartz_expr.specs.Terms.{are_instant, is_instant, term_of, terms_of};
ghost use Rattle.quartz_tree.specs.Kernel.{kernel, kernels};
ghost use Rattle.quartz_tree.specs.Least.{least_place, lesser_place};
ghost use Rattle.quartz_expr.specs.Kinds.{place_if};
ghost use Rattle.quartz_types.specs.Rules.{all_instant_loops, instant_loops};

use quartz_names::{lesser_place, place_if, unscoped};
use quartz_tree::{Place, Stmt};

/// Whether a statement may end in the macro step in which it starts, and the least of its loops
/// whose body may.
#[derive(Clone, Copy, Debug)]
struct Loops {
    instant: bool,
    broken: Option<Place>,
}

// Either of two statements.
fn either(a: Loops, b: Loops) -> Loops
    ensures instant { result.instant ≡ (a.instant || b.instant) }
    ensures broken { result.broken ≡ lesser_place a.broken b.broken }
{
    Loops {
        instant: a.instant || b.instant,
        broken: lesser_place(a.broken, b.broken),
    }
}

// Both of two statements.
fn both(a: Loops, b: Loops) -> Loops
    ensures instant { result.instant ≡ (a.instant && b.instant) }
    ensures broken { result.broken ≡ lesser_place a.broken b.broken }
{
    Loops {
        instant: a.instant && b.instant,
        broken: lesser_place(a.broken, b.broken),
    }
}

// A loop around the statement.
fn repeated(body: Loops, place: Place) -> Loops
    ensures instant { result.instant ≡ body.instant }
    ensures broken { result.broken
        ≡ lesser_place (least_place (place_if body.instant place)) body.broken }
{
    Loops {
        instant: body.instant,
        broken: lesser_place(place_if(body.instant, place), body.broken),
    }
}

#[cycle(looping)]
#[tactic(auto, using(crate::proofs::UnscopedLemmas::instant_unscoped, crate::proofs::UnscopedLemmas::loops_unscoped))]
fn looping(stmt: &Stmt) -> Loops
    ensures instant { result.instant ≡ is_instant (term_of (kernel stmt.now)) }
    ensures broken { result.broken ≡ least_place (instant_loops (kernel stmt.now)) }
{
    looping_inside(unscoped(stmt))
}

// The same of a statement without the scopes around it.
#[cycle(looping)]
#[tactic(auto, using(quartz_names::proofs::LeastLemmas::least_append))]
fn looping_inside(stmt: &Stmt) -> Loops
    ensures instant { result.instant ≡ is_instant (term_of (kernel stmt.now)) }
    ensures broken { result.broken ≡ least_place (instant_loops (kernel stmt.now)) }
{
    match stmt {
        Stmt::Nothing | Stmt::Write { .. } => Loops {
            instant: true,
            broken: None,
        },
        Stmt::Pause => Loops {
            instant: false,
            broken: None,
        },
        Stmt::Choose { yes, no, .. } => either(looping(yes), looping(no)),
        Stmt::Seq(parts) => all_looping(parts),
        Stmt::Par(parts) => all_looping(parts),
        Stmt::Loop { body, place, .. } => repeated(looping(body), *place),
        Stmt::Guard {
            abort,
            immediate,
            body,
            ..
        } => {
            let body = looping(body);
            Loops {
                instant: (*abort && *immediate) || body.instant,
                broken: body.broken,
            }
        }
        Stmt::Local { body, .. } => looping(body),
    }
}

#[cycle(looping)]
#[tactic(auto, using(quartz_names::proofs::LeastLemmas::least_append))]
fn all_looping(stmts: &[Stmt]) -> Loops
    ensures instant { result.instant ≡ are_instant (terms_of (kernels (map kernel stmts.now))) }
    ensures broken { result.broken
        ≡ least_place (all_instant_loops (kernels (map kernel stmts.now))) }
{
    let mut all = Loops {
        instant: true,
        broken: None,
    };
    for stmt in stmts {
        all = both(all, looping(stmt));
    }
    all
}

/// Whether a statement may end in the macro step in which it starts.
pub fn may_be_instant(stmt: &Stmt) -> bool
    ensures { result ≡ is_instant (term_of (kernel stmt.now)) }
{
    looping(stmt).instant
}

/// The least of the statement's loops whose body may end in the macro step in which it starts.
pub fn least_instant_loop(stmt: &Stmt) -> Option<Place>
    ensures { result ≡ least_place (instant_loops (kernel stmt.now)) }
{
    looping(stmt).broken
}
