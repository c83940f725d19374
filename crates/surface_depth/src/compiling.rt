//! Compiling a module, and the test of its size.

ghost use Rattle.std.specs.Prelude.{◌≡◌, ◌+◌, ◌<◌, false, length, nat_lt, true, IfOk, IsErrOf, OnOk};
ghost use Rattle.quartz_tree.specs.Kernel.{kernel};
ghost use Rattle.quartz_expr.specs.Steps.{outputs_of};
ghost use Rattle.quartz_expr.specs.Terms.{term_of};
ghost use Rattle.quartz_expr.specs.Typed.{AreSound};
ghost use Rattle.aif_cells.specs.Aif.{input_count};
ghost use Rattle.statement_cells.specs.Sound.{IsSound};
ghost use Rattle.statement_cells.specs.Whole.{compiled};
ghost use Rattle.statement_builder.specs.Built.{IsOver};
ghost use Rattle.surface_depth.specs.Compiling.{BuildsBody, HasSizes, IsBody, compiled_in, is_too_large};

use crate::beginning::{begin_outputs, fresh_builder};
use crate::counting::plus;
use crate::fault::CompileFault;
use crate::finishing::{Body, finish};
use crate::registers::outputs_of;
use crate::sizes::{Sizes, measure};
use aif_cells::{Aif, Ref};
use quartz_names::Resolved;
use quartz_tree::{NoMemory, Stmt, Var};
use quartz_types::Typed;
use statement_builder::{Builder, Numbers};
use std::alloc::Global;

/// The greatest number of cells, registers and elements of inputs together.
const GREATEST_SIZE: u128 = 65_536;

// Builds the body: its surface starts in the first macro step, and its depth goes on in all others.
fn build_statement(
    alloc: Global,
    vars: &[Var],
    builder: &mut Builder,
    body: &Stmt,
    first: Numbers,
) -> Result<(), NoMemory>
    requires types { AreSound vars.now }
    requires over { IsOver vars.now builder.old }
    requires sound { IsSound vars.now (term_of (kernel body.now)) }
    ensures { OnOk result
        (BuildsBody vars.now builder.old first (term_of (kernel body.now)) builder.new) }
{
    builder.surface(alloc, vars, body, first, Ref::Reg(0), Ref::Lit(1))?;
    builder.depth(
        alloc,
        vars,
        body,
        first,
        Ref::Lit(1),
        Ref::Lit(1),
        Ref::Lit(0),
    )?;
    Ok(())
}

// Builds the outputs' copies and the body.
fn build(
    alloc: Global,
    resolved: &Resolved,
    outputs: &[u32],
    sizes: Sizes,
) -> Result<Body, NoMemory>
    requires types { AreSound resolved.now.vars }
    requires sound { IsSound resolved.now.vars (term_of (kernel resolved.now.body)) }
    requires outputs { outputs.now ≡ outputs_of resolved.now.vars }
    requires sizes { HasSizes resolved.now.vars (term_of (kernel resolved.now.body)) sizes }
    requires inputs { sizes.inputs < 65537 }
    ensures over { IfOk result (λ b. IsOver resolved.now.vars b.builder) }
    ensures body { IfOk result
        (λ b. IsBody resolved.now.vars
        (term_of (kernel resolved.now.body)) b.builder b.outputs.items) }
{
    let vars = resolved.vars.as_slice();
    let mut builder = fresh_builder(alloc, &resolved.name, vars)?;
    let outputs = begin_outputs(alloc, vars, &mut builder, outputs)?;
    let label = 1;
    let register = plus(plus(1, sizes.labels)?, sizes.outputs)?;
    let first = Numbers { label, register };
    build_statement(alloc, vars, &mut builder, &resolved.body, first)?;
    Ok(Body { builder, outputs })
}

// There are too many cells, registers and elements of inputs.
fn is_too_large(aif: &Aif) -> bool
    ensures { result ≡ nat_lt 65536
        (length aif.now.cells + length aif.now.registers + aif.now.inputs) }
{
    let size = aif.cells.len() as u128 + aif.registers.len() as u128 + aif.inputs as u128;
    size > GREATEST_SIZE
}

/// Compiles a module to cells, registers, guarded actions and monitors: each new thing behind those
/// that are there. It answers S8 where cells, registers and elements of inputs are more than 65,536
/// together.
#[tactic(auto, using(crate::proofs::WholeLemmas::early_large, crate::proofs::WholeLemmas::large_is))]
pub fn compile(alloc: Global, typed: &Typed) -> Result<Aif, CompileFault>
    requires types { AreSound typed.now.resolved.vars }
    requires sound { IsSound typed.now.resolved.vars (term_of (kernel typed.now.resolved.body)) }
    ensures name { IfOk result (λ a. a.name ≡ typed.now.resolved.name) }
    ensures vars { IfOk result (λ a. a.vars ≡ typed.now.resolved.vars) }
    ensures inputs { IfOk result (λ a. a.inputs ≡ input_count typed.now.resolved.vars) }
    ensures compiled { IfOk result
        (λ a. compiled_in a ≡ compiled typed.now.resolved.vars
        (term_of (kernel typed.now.resolved.body))) }
    ensures fits { OnOk result
        (is_too_large typed.now.resolved.vars (term_of (kernel typed.now.resolved.body)) ≡ false) }
    ensures too_large { IsErrOf result CompileFault.S8
        → is_too_large typed.now.resolved.vars (term_of (kernel typed.now.resolved.body)) ≡ true }
{
    let resolved = typed.get();
    let vars = resolved.vars.as_slice();
    let outputs = outputs_of(alloc, vars)?;
    let sizes = measure(vars, &resolved.body, outputs.as_slice())?;
    if sizes.registers() as u128 + sizes.inputs as u128 > GREATEST_SIZE {
        return Err(CompileFault::S8);
    }
    let body = build(alloc, resolved, outputs.as_slice(), sizes)?;
    let aif = finish(alloc, resolved, body, outputs.as_slice(), sizes)?;
    if is_too_large(&aif) {
        return Err(CompileFault::S8);
    }
    Ok(aif)
}
