//! A text judged by the rules S1 to S7, one after another.

ghost use Rattle.std.specs.Prelude.{◌≡◌, ◌∷◌, [], map};
ghost use Rattle.quartz_tree.specs.Surfaces.{module_tree};
ghost use Rattle.quartz_names.specs.Numbered.{IsResolved};
ghost use Rattle.quartz_lexer.specs.Lexing.{AreTokensOf};
ghost use Rattle.quartz_build.specs.Parts.{CheckedAs, FrontAs, JudgedAs};

use crate::fault::{BuildFault, NOT_BUILT};
use quartz_lexer::{Tokens, lex};
use quartz_names::{Resolved, has_call as calls, resolve};
use quartz_parser::parse_text;
use quartz_tree::Module;
use quartz_types::{Typed, check};
use std::alloc::Global;

// A resolved module as a typed one, or the first of the rules S4 to S7 that it breaks.
fn check_resolved(alloc: Global, resolved: Resolved) -> Result<Typed, BuildFault>
    requires { IsResolved resolved }
    ensures { CheckedAs resolved result }
{
    match check(alloc, resolved) {
        Ok(typed) => Ok(typed),
        Err(fault) => Err(BuildFault::from(fault)),
    }
}

// A module without calls as a typed one, or the first rule that it breaks.
#[tactic(auto, using(crate::proofs::FrontLemmas::with_calls))]
fn judge(alloc: Global, only: &Module) -> Result<Typed, BuildFault>
    ensures { JudgedAs (module_tree only.now ∷ []) result }
{
    if calls(&only.body) {
        return Err(NOT_BUILT);
    }
    match resolve(alloc, only) {
        Ok(resolved) => check_resolved(alloc, resolved),
        Err(fault) => Err(BuildFault::from(fault)),
    }
}

// The only one of a text's modules, typed.
#[tactic(auto, using(crate::proofs::FrontLemmas::not_alone))]
fn judge_only(alloc: Global, modules: &[Module]) -> Result<Typed, BuildFault>
    ensures { JudgedAs (map module_tree modules.now) result }
{
    if modules.len() == 1 {
        judge(alloc, &modules[0])
    } else {
        Err(NOT_BUILT)
    }
}

// The only module of a text's tokens, typed.
fn judge_tokens(alloc: Global, tokens: &Tokens, text: &[u8]) -> Result<Typed, BuildFault>
    requires { AreTokensOf text.now tokens.now }
    ensures { FrontAs text.now result }
{
    match parse_text(alloc, tokens, text) {
        Ok(modules) => {
            let judged = judge_only(alloc, &modules);
            judged
        }
        Err(fault) => Err(BuildFault::from(fault)),
    }
}

/// Reads a text as a typed module, or answers the first of the rules S1 to S7 that it breaks.
/// Behind S1 and S2 a text of several modules or with a call is refused by rule 0, since calls are
/// not linked yet.
pub fn front(alloc: Global, text: &[u8]) -> Result<Typed, BuildFault>
    ensures { FrontAs text.now result }
{
    match lex(alloc, text) {
        Ok(tokens) => judge_tokens(alloc, &tokens, text),
        Err(fault) => Err(BuildFault::from(fault)),
    }
}
