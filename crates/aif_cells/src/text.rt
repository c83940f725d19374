//! The text of cells, line by line.

ghost use Rattle.std.specs.Prelude.{◌≡◌, ◌+◌, ◌<◌, ◌^◌, ◌++◌, codes, decimal, drop, length, min, take};
ghost use Rattle.outside.specs.Puts.{Puts};
ghost use Rattle.outside.specs.Report.{kind_text};
ghost use Rattle.aif_cells.specs.Aif.{elements_of, input_count, input_elements};
ghost use Rattle.aif_cells.specs.Text.{action_line, aif_text, base_text, cell_line, copy_text, counted_from, index_text, input_line, input_lines, input_text, length_text, lines_text, local_line, monitor_line, named_text, number_text, output_line, output_lines, output_text, ref_text, register_line, storage_text, target_text, texts, tree_text, typed_text, vars_text};

use crate::aif::{Aif, count_elements, count_input_elements, count_output_elements};
use crate::cells::{Action, Cell, Monitor, Register};
use crate::piece::{Piece, put, put_count, put_pieces};
use crate::reference::Ref;
use crate::tree_text::put_tree;
use outside::{Failed, Sink};
use quartz_tree::{Base, Flow, Kind, Storage, Var};

/// Puts the text of cells, registers, actions and monitors, line by line, one put after another.
pub fn write_text<O: Sink>(aif: &Aif, out: &mut O) -> Result<(), Failed>
    requires { input_count aif.now.vars < 2 ^ 31 }
    ensures { Puts O.stands O.faults result out.old out.new (aif_text aif.now) }
{
    put_module(out, aif)?;
    put_vars(out, aif)?;
    put_lines(out, aif)?;
    Ok(())
}

fn put_module<O: Sink>(out: &mut O, aif: &Aif) -> Result<(), Failed>
    ensures { Puts O.stands O.faults result out.old out.new
        (codes "module " ++ (aif.now.name ++ codes "\n")) }
{
    let name = Piece::Bytes(aif.name.text().as_bytes());
    put_pieces(out, &[Piece::Bytes(b"module "), name, Piece::Bytes(b"\n")])
}

// The lines of variables.
fn put_vars<O: Sink>(out: &mut O, aif: &Aif) -> Result<(), Failed>
    requires { input_count aif.now.vars < 2 ^ 31 }
    ensures { Puts O.stands O.faults result out.old out.new (vars_text aif.now) }
{
    put_input_lines(out, aif)?;
    put_output_lines(out, aif)?;
    put_local_lines(out, aif)?;
    Ok(())
}

fn put_input_lines<O: Sink>(out: &mut O, aif: &Aif) -> Result<(), Failed>
    requires { input_count aif.now.vars < 2 ^ 31 }
    ensures { Puts O.stands O.faults result out.old out.new (input_lines 0 0 aif.now.vars) }
{
    put_inputs(out, aif.vars.as_slice())
}

fn put_output_lines<O: Sink>(out: &mut O, aif: &Aif) -> Result<(), Failed>
    ensures { Puts O.stands O.faults result out.old out.new
        (output_lines 0 aif.now.outputs aif.now.vars) }
{
    put_outputs(out, aif.vars.as_slice(), aif.outputs.as_slice())
}

fn put_local_lines<O: Sink>(out: &mut O, aif: &Aif) -> Result<(), Failed>
    ensures { Puts O.stands O.faults result out.old out.new (texts local_line 0 aif.now.vars) }
{
    put_locals(out, aif.vars.as_slice())
}

// The lines of registers, cells, actions and monitors.
fn put_lines<O: Sink>(out: &mut O, aif: &Aif) -> Result<(), Failed>
    ensures { Puts O.stands O.faults result out.old out.new (lines_text aif.now) }
{
    put_register_lines(out, aif)?;
    put_cell_lines(out, aif)?;
    put_action_lines(out, aif)?;
    put_monitor_lines(out, aif)?;
    Ok(())
}

fn put_register_lines<O: Sink>(out: &mut O, aif: &Aif) -> Result<(), Failed>
    ensures { Puts O.stands O.faults result out.old out.new
        (texts register_line 0 aif.now.registers) }
{
    put_registers(out, aif.registers.as_slice())
}

fn put_cell_lines<O: Sink>(out: &mut O, aif: &Aif) -> Result<(), Failed>
    ensures { Puts O.stands O.faults result out.old out.new (texts cell_line 0 aif.now.cells) }
{
    put_cells(out, aif.cells.as_slice())
}

fn put_action_lines<O: Sink>(out: &mut O, aif: &Aif) -> Result<(), Failed>
    ensures { Puts O.stands O.faults result out.old out.new (texts action_line 0 aif.now.actions) }
{
    put_actions(out, aif.actions.as_slice())
}

fn put_monitor_lines<O: Sink>(out: &mut O, aif: &Aif) -> Result<(), Failed>
    ensures { Puts O.stands O.faults result out.old out.new
        (texts monitor_line 0 aif.now.monitors) }
{
    put_monitors(out, aif.monitors.as_slice())
}

fn put_inputs<O: Sink>(out: &mut O, vars: &[Var]) -> Result<(), Failed>
    requires { input_count vars.now < 2 ^ 31 }
    ensures { Puts O.stands O.faults result out.old out.new (input_lines 0 0 vars.now) }
{
    let mut first = 0;
    for (number, var) in vars.iter().enumerate() {
        put_if_input(out, number, first, var)?;
        first += count_input_elements(var) as u32;
    }
    Ok(())
}

fn put_if_input<O: Sink>(out: &mut O, number: usize, first: u32, var: &Var) -> Result<(), Failed>
    requires { first + input_elements var.now < 2 ^ 32 }
    ensures { Puts O.stands O.faults result out.old out.new (input_text number first var.now) }
{
    if var.decl.flow == Flow::Input {
        put_input(out, number, first, var)
    } else {
        Ok(())
    }
}

fn put_input<O: Sink>(out: &mut O, number: usize, first: u32, var: &Var) -> Result<(), Failed>
    requires { first + elements_of var.now < 2 ^ 32 }
    ensures { Puts O.stands O.faults result out.old out.new (input_line number first var.now) }
{
    put_named(out, b"input ", var)?;
    put_typed(out, number, var)?;
    put_elements(out, first, var)?;
    put(out, b"\n")?;
    Ok(())
}

fn put_elements<O: Sink>(out: &mut O, first: u32, var: &Var) -> Result<(), Failed>
    requires { first + elements_of var.now < 2 ^ 32 }
    ensures { Puts O.stands O.faults result out.old out.new
        (texts (number_text (codes " i")) 0 (counted_from first (elements_of var.now))) }
{
    put_counted(out, first, count_elements(var) as u32)
}

// So many input elements from the first on.
fn put_counted<O: Sink>(out: &mut O, first: u32, count: u32) -> Result<(), Failed>
    requires { first + count < 2 ^ 32 }
    ensures { Puts O.stands O.faults result out.old out.new
        (texts (number_text (codes " i")) 0 (counted_from first count)) }
{
    for at in 0..count {
        put_numbered(out, b" i", first + at)?;
    }
    Ok(())
}

fn put_numbered<O: Sink>(out: &mut O, letter: &[u8], number: u32) -> Result<(), Failed>
    ensures { Puts O.stands O.faults result out.old out.new (number_text letter.now 0 number) }
{
    put(out, letter)?;
    put_count(out, number as u128)?;
    Ok(())
}

fn put_outputs<O: Sink>(out: &mut O, vars: &[Var], outputs: &[u32]) -> Result<(), Failed>
    ensures { Puts O.stands O.faults result out.old out.new (output_lines 0 outputs.now vars.now) }
{
    let mut left = outputs;
    for (number, var) in vars.iter().enumerate() {
        put_if_output(out, number, left, var)?;
        left = behind(left, count_output_elements(var));
    }
    Ok(())
}

fn put_if_output<O: Sink>(out: &mut O, number: usize, left: &[u32], var: &Var) -> Result<(), Failed>
    ensures { Puts O.stands O.faults result out.old out.new (output_text number left.now var.now) }
{
    if var.decl.flow == Flow::Output {
        put_output(out, number, first_of(left, count_elements(var)), var)
    } else {
        Ok(())
    }
}

// How many of the numbers the first so many are.
fn as_many(numbers: &[u32], count: u128) -> usize
    ensures { result ≡ min count (length numbers.now) }
{
    if count < numbers.len() as u128 {
        count as usize
    } else {
        numbers.len()
    }
}

// The first so many of the numbers.
fn first_of(numbers: &[u32], count: u128) -> &[u32]
    ensures { result.now ≡ take count numbers.now }
{
    &numbers[..as_many(numbers, count)]
}

// The numbers behind the first so many.
fn behind(numbers: &[u32], count: u128) -> &[u32]
    ensures { result.now ≡ drop count numbers.now }
{
    &numbers[as_many(numbers, count)..]
}

fn put_output<O: Sink>(out: &mut O, number: usize, cells: &[u32], var: &Var) -> Result<(), Failed>
    ensures { Puts O.stands O.faults result out.old out.new (output_line number cells.now var.now) }
{
    put_named(out, b"output ", var)?;
    put_storage(out, var.decl.storage)?;
    put_typed_cells(out, number, cells, var)?;
    Ok(())
}

fn put_typed_cells<O: Sink>(
    out: &mut O,
    number: usize,
    cells: &[u32],
    var: &Var,
) -> Result<(), Failed>
    ensures { Puts O.stands O.faults result out.old out.new
        (typed_text number var.now
        ++ (texts (number_text (codes " c")) 0 cells.now ++ codes "\n")) }
{
    put_typed(out, number, var)?;
    put_value_cells(out, cells)?;
    put(out, b"\n")?;
    Ok(())
}

fn put_value_cells<O: Sink>(out: &mut O, cells: &[u32]) -> Result<(), Failed>
    ensures { Puts O.stands O.faults result out.old out.new
        (texts (number_text (codes " c")) 0 cells.now) }
{
    for cell in cells {
        put_numbered(out, b" c", *cell)?;
    }
    Ok(())
}

fn put_locals<O: Sink>(out: &mut O, vars: &[Var]) -> Result<(), Failed>
    ensures { Puts O.stands O.faults result out.old out.new (texts local_line 0 vars.now) }
{
    for (number, var) in vars.iter().enumerate() {
        put_local(out, number, var)?;
    }
    Ok(())
}

fn put_local<O: Sink>(out: &mut O, number: usize, var: &Var) -> Result<(), Failed>
    ensures { Puts O.stands O.faults result out.old out.new (local_line number var.now) }
{
    if var.decl.flow == Flow::Inner {
        put_inner(out, number, var)
    } else {
        Ok(())
    }
}

fn put_inner<O: Sink>(out: &mut O, number: usize, var: &Var) -> Result<(), Failed>
    ensures { Puts O.stands O.faults result out.old out.new
        (named_text (codes "local ") var.now
        ++ (storage_text var.now.decl.storage ++ (typed_text number var.now ++ codes "\n"))) }
{
    put_named(out, b"local ", var)?;
    put_storage(out, var.decl.storage)?;
    put_typed(out, number, var)?;
    put(out, b"\n")?;
    Ok(())
}

// A word, and the variable's name.
fn put_named<O: Sink>(out: &mut O, word: &[u8], var: &Var) -> Result<(), Failed>
    ensures { Puts O.stands O.faults result out.old out.new (named_text word.now var.now) }
{
    put(out, word)?;
    put_name(out, var)?;
    put(out, b" ")?;
    Ok(())
}

// The type and the variable's number.
fn put_typed<O: Sink>(out: &mut O, number: usize, var: &Var) -> Result<(), Failed>
    ensures { Puts O.stands O.faults result out.old out.new (typed_text number var.now) }
{
    put_length(out, var.decl.ty.len)?;
    put_base(out, var.decl.ty.base)?;
    put(out, b" v")?;
    put_count(out, number as u128)?;
    Ok(())
}

fn put_length<O: Sink>(out: &mut O, len: Option<u128>) -> Result<(), Failed>
    ensures { Puts O.stands O.faults result out.old out.new (length_text len) }
{
    match len {
        None => Ok(()),
        Some(len) => put_pieces(
            out,
            &[Piece::Bytes(b"["), Piece::Count(len), Piece::Bytes(b"]")],
        ),
    }
}

fn put_base<O: Sink>(out: &mut O, base: Base) -> Result<(), Failed>
    ensures { Puts O.stands O.faults result out.old out.new (base_text base) }
{
    let close = Piece::Bytes(b"}");
    match base {
        Base::Bool => put(out, b"bool"),
        Base::Nat(n) => put_pieces(out, &[Piece::Bytes(b"nat{"), Piece::Count(n), close]),
        Base::Int(n) => put_pieces(out, &[Piece::Bytes(b"int{"), Piece::Count(n), close]),
        Base::Bv(n) => put_pieces(out, &[Piece::Bytes(b"bv{"), Piece::Count(n), close]),
    }
}

fn put_storage<O: Sink>(out: &mut O, storage: Storage) -> Result<(), Failed>
    ensures { Puts O.stands O.faults result out.old out.new (storage_text storage) }
{
    match storage {
        Storage::Mem => put(out, b"mem "),
        Storage::Event => put(out, b"event "),
    }
}

fn put_name<O: Sink>(out: &mut O, var: &Var) -> Result<(), Failed>
    ensures { Puts O.stands O.faults result out.old out.new var.now.decl.name }
{
    put(out, var.decl.name.text().as_bytes())
}

fn put_registers<O: Sink>(out: &mut O, registers: &[Register]) -> Result<(), Failed>
    ensures { Puts O.stands O.faults result out.old out.new (texts register_line 0 registers.now) }
{
    for (number, register) in registers.iter().enumerate() {
        put_register(out, number, register)?;
    }
    Ok(())
}

fn put_register<O: Sink>(out: &mut O, number: usize, register: &Register) -> Result<(), Failed>
    ensures { Puts O.stands O.faults result out.old out.new (register_line number register.now) }
{
    put_pieces(
        out,
        &[
            Piece::Bytes(b"register r"),
            Piece::Count(number as u128),
            Piece::Bytes(b" = "),
            Piece::Number(register.initial),
            Piece::Bytes(b" -> "),
            Piece::Of(register.next),
            Piece::Bytes(b"\n"),
        ],
    )
}

fn put_cells<O: Sink>(out: &mut O, cells: &[Cell]) -> Result<(), Failed>
    ensures { Puts O.stands O.faults result out.old out.new (texts cell_line 0 cells.now) }
{
    for (number, cell) in cells.iter().enumerate() {
        put_cell(out, number, cell)?;
    }
    Ok(())
}

fn put_cell<O: Sink>(out: &mut O, number: usize, cell: &Cell) -> Result<(), Failed>
    ensures { Puts O.stands O.faults result out.old out.new (cell_line number cell.now) }
{
    put_head(out, number)?;
    put_tree(out, &cell.tree)?;
    put(out, b"\n")?;
    Ok(())
}

fn put_head<O: Sink>(out: &mut O, number: usize) -> Result<(), Failed>
    ensures { Puts O.stands O.faults result out.old out.new
        (codes "cell c" ++ (decimal number ++ codes " = ")) }
{
    let number = Piece::Count(number as u128);
    put_pieces(
        out,
        &[Piece::Bytes(b"cell c"), number, Piece::Bytes(b" = ")],
    )
}

fn put_actions<O: Sink>(out: &mut O, actions: &[Action]) -> Result<(), Failed>
    ensures { Puts O.stands O.faults result out.old out.new (texts action_line 0 actions.now) }
{
    for action in actions {
        put_action(out, action)?;
    }
    Ok(())
}

fn put_action<O: Sink>(out: &mut O, action: &Action) -> Result<(), Failed>
    ensures { Puts O.stands O.faults result out.old out.new (action_line 0 action.now) }
{
    put_guard(out, action.guard)?;
    put_target(out, action)?;
    put_value(out, action.value)?;
    Ok(())
}

fn put_guard<O: Sink>(out: &mut O, guard: Ref) -> Result<(), Failed>
    ensures { Puts O.stands O.faults result out.old out.new
        (codes "action " ++ (ref_text guard ++ codes " => ")) }
{
    put_pieces(
        out,
        &[
            Piece::Bytes(b"action "),
            Piece::Of(guard),
            Piece::Bytes(b" => "),
        ],
    )
}

fn put_value<O: Sink>(out: &mut O, value: Ref) -> Result<(), Failed>
    ensures { Puts O.stands O.faults result out.old out.new
        (codes " = " ++ (ref_text value ++ codes "\n")) }
{
    put_pieces(
        out,
        &[Piece::Bytes(b" = "), Piece::Of(value), Piece::Bytes(b"\n")],
    )
}

fn put_target<O: Sink>(out: &mut O, action: &Action) -> Result<(), Failed>
    ensures { Puts O.stands O.faults result out.old out.new
        (target_text action.now.delayed action.now) }
{
    if action.delayed {
        put_next(out, action)
    } else {
        put_copy(out, action)
    }
}

fn put_next<O: Sink>(out: &mut O, action: &Action) -> Result<(), Failed>
    ensures { Puts O.stands O.faults result out.old out.new
        (codes "next(" ++ (copy_text action.now ++ codes ")")) }
{
    put(out, b"next(")?;
    put_copy(out, action)?;
    put(out, b")")?;
    Ok(())
}

// The variable's copy, and the element that is written.
fn put_copy<O: Sink>(out: &mut O, action: &Action) -> Result<(), Failed>
    ensures { Puts O.stands O.faults result out.old out.new (copy_text action.now) }
{
    put_var(out, action.var)?;
    put_count(out, action.copy as u128)?;
    put_index(out, action.index)?;
    Ok(())
}

fn put_var<O: Sink>(out: &mut O, var: u32) -> Result<(), Failed>
    ensures { Puts O.stands O.faults result out.old out.new
        (codes "v" ++ (decimal var ++ codes ".")) }
{
    let number = Piece::Count(var as u128);
    put_pieces(out, &[Piece::Bytes(b"v"), number, Piece::Bytes(b".")])
}

fn put_index<O: Sink>(out: &mut O, index: Option<Ref>) -> Result<(), Failed>
    ensures { Puts O.stands O.faults result out.old out.new (index_text index) }
{
    match index {
        None => Ok(()),
        Some(index) => put_pieces(
            out,
            &[Piece::Bytes(b"["), Piece::Of(index), Piece::Bytes(b"]")],
        ),
    }
}

fn put_monitors<O: Sink>(out: &mut O, monitors: &[Monitor]) -> Result<(), Failed>
    ensures { Puts O.stands O.faults result out.old out.new (texts monitor_line 0 monitors.now) }
{
    for monitor in monitors {
        put_monitor(out, monitor)?;
    }
    Ok(())
}

fn put_monitor<O: Sink>(out: &mut O, monitor: &Monitor) -> Result<(), Failed>
    ensures { Puts O.stands O.faults result out.old out.new (monitor_line 0 monitor.now) }
{
    put_pieces(
        out,
        &[
            Piece::Bytes(b"monitor c"),
            Piece::Count(monitor.cell as u128),
            Piece::Bytes(b" "),
            Piece::Count(monitor.place.line as u128),
            Piece::Bytes(b":"),
            Piece::Count(monitor.place.col as u128),
            Piece::Bytes(b" "),
            Piece::Bytes(kind_name(monitor.kind)),
            Piece::Bytes(b"\n"),
        ],
    )
}

fn kind_name(kind: Kind) -> &'static [u8]
    ensures { result.now ≡ kind_text kind }
{
    match kind {
        Kind::Range => b"range",
        Kind::Index => b"index",
        Kind::Divisor => b"divisor",
        Kind::Conflict => b"conflict",
    }
}
