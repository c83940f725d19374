//! Whether an environment fits the variables.

ghost use Rattle.std.specs.Prelude.{◌≡◌, length, true, unwrap_or};
ghost use Rattle.quartz_expr.specs.Intervals.{span, type_interval};
ghost use Rattle.quartz_expr.specs.Typed.{AllLie, Fits};
ghost use Rattle.quartz_expr.specs.Values.{elements_in};

use quartz_expr::{Env, type_range};
use quartz_tree::{Ty, Var};

fn all_lie(elements: &[i64], low: i64, high: i64) -> bool
    ensures lie { result ≡ true → AllLie (span low high) elements.now }
    ensures leave { AllLie (span low high) elements.now → result ≡ true }
{
    for element in elements {
        if *element < low || high < *element {
            return false;
        }
    }
    true
}

fn fits_type(elements: &[i64], ty: Ty) -> bool
    ensures lie { result ≡ true → AllLie (type_interval ty) elements.now }
    ensures count { result ≡ true → length elements.now ≡ unwrap_or ty.len 1 }
    ensures fit { AllLie (type_interval ty) elements.now
        → length elements.now ≡ unwrap_or ty.len 1 → result ≡ true }
{
    let range = type_range(ty);
    elements.len() as u128 == ty.len.unwrap_or(1) && all_lie(elements, range.low, range.high)
}

fn elements_at(env: &Env, at: usize) -> &[i64]
    ensures { result.now ≡ elements_in env.now.values at }
{
    match env.values.get(at) {
        Some(elements) => elements.as_slice(),
        None => &[],
    }
}

/// Whether the environment gives each variable its elements, each in its type's range.
#[tactic(auto, using(crate::proofs::FitLemmas::fits_none, crate::proofs::FitLemmas::fits_more, crate::proofs::FitLemmas::fits_all, crate::proofs::FitLemmas::fits_at))]
pub fn fits(vars: &[Var], env: &Env) -> bool
    ensures fits { result ≡ true → Fits vars.now env.now.values }
    ensures exactly { Fits vars.now env.now.values → result ≡ true }
{
    for (at, var) in vars.iter().enumerate() {
        if !fits_type(elements_at(env, at), var.decl.ty) {
            return false;
        }
    }
    true
}
