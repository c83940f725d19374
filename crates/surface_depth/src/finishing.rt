//! What comes behind the body: outputs are closed, and registers told what they take.

ghost use Rattle.std.specs.Prelude.{◌≡◌, ◌+◌, ◌<◌, ◌≤◌, ◌^◌, length, map, true, IfOk, OnOk};
ghost use Rattle.quartz_tree.specs.Kernel.{kernel};
ghost use Rattle.quartz_expr.specs.Steps.{outputs_of};
ghost use Rattle.quartz_expr.specs.Terms.{term_of};
ghost use Rattle.quartz_expr.specs.Typed.{have_sound_types};
ghost use Rattle.aif_cells.specs.Aif.{input_count};
ghost use Rattle.statement_cells.specs.Labels.{labels, registers};
ghost use Rattle.statement_cells.specs.Whole.{compiled, output_registers};
ghost use Rattle.statement_builder.specs.Built.{IsOver, depth_copy, entered_copy};
ghost use Rattle.surface_depth.specs.Lists.{depths_by, entered_by};
ghost use Rattle.surface_depth.specs.Compiling.{HasSizes, IsAssembled, IsBody, IsLabelled, compiled_in};

use crate::assembling::{assemble, label_paths, output_cells};
use crate::beginning::OutputCopy;
use crate::carrying::{ClosedOutput, ScopeCopies, copies_by_register, take_outputs, take_scopes};
use crate::counting::plus;
use crate::ending::close_outputs;
use crate::labelled::label_registers;
use crate::registers::first_registers;
use crate::sizes::Sizes;
use aif_cells::{Aif, Register};
use quartz_names::Resolved;
use quartz_tree::{Name, NoMemory, Var};
use sqlite_items::Items;
use statement_builder::Builder;
use std::alloc::Global;

/// The body of a module, built behind the outputs' copies.
#[derive(Debug, Drop)]
pub(crate) struct Body {
    pub builder: Builder,
    pub outputs: Vec<OutputCopy>,
}

/// The outputs, closed, and the registers, of which those of labels are told what they take.
#[derive(Debug, Drop)]
pub(crate) struct Labelled {
    pub closed: Vec<ClosedOutput>,
    pub registers: Items<Register>,
}

// Closes the outputs, and tells the registers of labels what they take.
fn close_and_label(
    alloc: Global,
    resolved: &Resolved,
    body: &mut Body,
    outputs: &[u32],
    sizes: Sizes,
) -> Result<Labelled, NoMemory>
    requires types { have_sound_types resolved.now.vars ≡ true }
    requires over { IsOver resolved.now.vars body.old.builder }
    requires body { IsBody resolved.now.vars
        (term_of (kernel resolved.now.body)) body.old.builder body.old.outputs.items }
    requires outputs { outputs.now ≡ outputs_of resolved.now.vars }
    requires sizes { HasSizes resolved.now.vars (term_of (kernel resolved.now.body)) sizes }
    requires few { 1 + (sizes.labels + (sizes.outputs + sizes.scopes)) < 2 ^ 32 }
    ensures over { OnOk result (IsOver resolved.now.vars body.new.builder) }
    ensures labelled { IfOk result
        (λ l. IsLabelled resolved.now.vars
        (term_of (kernel resolved.now.body)) body.new.builder l.closed.items l.registers) }
    ensures outputs { OnOk result (body.new.outputs ≡ body.old.outputs) }
    ensures count { IfOk result
        (λ l. length l.registers ≡ 1 + (sizes.labels + (sizes.outputs + sizes.scopes))) }
{
    let vars = resolved.vars.as_slice();
    let first = plus(1, sizes.labels)?;
    let closed = close_outputs(
        alloc,
        vars,
        &mut body.builder,
        body.outputs.as_slice(),
        first,
    )?;
    let mut registers = first_registers(alloc, vars, outputs, sizes.labels, sizes.scopes)?;
    label_registers(alloc, &mut body.builder, &mut registers, sizes.labels)?;
    Ok(Labelled { closed, registers })
}

/// The module before its registers of outputs and scopes are told what they take, and the copies of
/// its scopes.
#[derive(Debug, Drop)]
struct Assembled {
    aif: Aif,
    copies: ScopeCopies,
}

// Puts the module together from what was built.
#[tactic(auto, using(crate::proofs::WholeLemmas::assembled_is))]
fn put_together(
    alloc: Global,
    resolved: &Resolved,
    body: Body,
    registers: Items<Register>,
    inputs: u32,
) -> Result<Assembled, NoMemory>
    requires { IsOver resolved.now.vars body.builder }
    ensures aif { IfOk result
        (λ a. IsAssembled resolved.now.vars
        (term_of (kernel resolved.now.body)) body.builder body.outputs.items registers a.aif) }
    ensures entered { IfOk result
        (λ a. a.copies.entered.items
        ≡ entered_by 0 (length registers) (map entered_copy body.builder.entered)) }
    ensures depths { IfOk result
        (λ a. map (map depth_copy) a.copies.depths.items
        ≡ depths_by 0 (length registers) (map depth_copy body.builder.depths)) }
    ensures name { IfOk result (λ a. a.aif.name ≡ resolved.now.name) }
    ensures inputs { IfOk result (λ a. a.aif.inputs ≡ inputs) }
{
    let Body { builder, outputs } = body;
    let copies = copies_by_register(
        alloc,
        builder.entered.as_slice(),
        builder.depths.as_slice(),
        registers.len(),
    )?;
    let cells = output_cells(alloc, outputs.as_slice())?;
    let paths = label_paths(alloc, &resolved.body)?;
    let name = Name::new(alloc, resolved.name.text())?;
    let aif = assemble(builder, name, inputs, cells, paths, registers);
    Ok(Assembled { aif, copies })
}

/// Finishes a module whose body is built: closes the outputs, and tells the registers what they
/// take.
pub(crate) fn finish(
    alloc: Global,
    resolved: &Resolved,
    body: Body,
    outputs: &[u32],
    sizes: Sizes,
) -> Result<Aif, NoMemory>
    requires types { have_sound_types resolved.now.vars ≡ true }
    requires over { IsOver resolved.now.vars body.builder }
    requires body { IsBody resolved.now.vars
        (term_of (kernel resolved.now.body)) body.builder body.outputs.items }
    requires outputs { outputs.now ≡ outputs_of resolved.now.vars }
    requires sizes { HasSizes resolved.now.vars (term_of (kernel resolved.now.body)) sizes }
    requires few { 1 + (sizes.labels + (sizes.outputs + sizes.scopes)) < 2 ^ 32 }
    ensures name { IfOk result (λ a. a.name ≡ resolved.now.name) }
    ensures vars { IfOk result (λ a. a.vars ≡ resolved.now.vars) }
    ensures inputs { IfOk result (λ a. a.inputs ≡ input_count resolved.now.vars) }
    ensures compiled { IfOk result
        (λ a. compiled_in a ≡ compiled resolved.now.vars (term_of (kernel resolved.now.body))) }
{
    let mut body = body;
    let Labelled { closed, registers } = close_and_label(
        alloc, resolved, &mut body, outputs, sizes,
    )?;
    let first = plus(plus(1, sizes.labels)?, sizes.outputs)?;
    let Assembled { aif, copies } = put_together(alloc, resolved, body, registers, sizes.inputs)?;
    let mut aif = aif;
    take_outputs(alloc, &mut aif, closed.as_slice())?;
    take_scopes(alloc, &mut aif, &copies, &resolved.body, first)?;
    Ok(aif)
}
