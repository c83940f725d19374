//! The header of a trace that names its inputs.

ghost use Rattle.std.specs.Prelude.{◌≡◌, ◌≤◌, ◌<◌, ◌+◌, ℕ, true, false, [], length, All, IfOk, IfSome, slice_set, vec_capacity, option_and_then, if◌then◌else◌, None, Some, ◌++◌};
ghost use Rattle.quartz_expr.specs.Intervals.{is_sound_type};
ghost use Rattle.quartz_expr.specs.Typed.{have_sound_types};
ghost use Rattle.trace_io.specs.Lines.{words, text_in};
ghost use Rattle.trace_io.specs.Inputs.{count_in, scalars, fields_from};
ghost use Rattle.trace_io.specs.Reading.{is_header as begins_header, behind_first};
ghost use Rattle.trace_io.specs.Header.{Named, inputs_from, number_named, fields_at, is_marked, names_by, unmarked_count, Listed, Adds};
ghost use Rattle.trace_io.specs.Scan.{AreFields};

use crate::field::Field;
use crate::line::{trim_front, word_length};
use crate::types::{count_of, same_flow};
use quartz_tree::{Flow, Name, NoMemory, Var};
use std::alloc::Global;
use std::marker::Model;

/// An input of a module: its name and its elements.
#[derive(Debug, Drop)]
pub(crate) struct Input {
    name: Name,
    fields: Vec<Field>,
}

impl Model for Input {
    ghost use Rattle.trace_io.specs.Header.{Named};

    ghost Value = { Named };

    ghost view = { λ i. record { name = i.name; fields = i.fields.items } };
}

impl Input {
    // The input that a variable is, with elements from that place up to the other.
    fn new(alloc: Global, var: &Var, place: usize, behind: usize) -> Result<Input, NoMemory>
        requires sound { is_sound_type var.now.decl.ty ≡ true }
        requires behind { behind ≡ place + count_in var.now }
        ensures { IfOk result
            (λ i. i ≡ record {
              name = var.now.decl.name;
              fields = fields_from place
                  (scalars var.now);
            }) }
    {
        let base = var.decl.ty.base;
        let mut fields = Vec::with_capacity(alloc, behind - place)?;
        for at in place..behind {
            fields.push(Field { place: at, base })?;
        }
        let name = Name::new(alloc, var.decl.name.text())?;
        Ok(Input { name, fields })
    }
}

/// The inputs among these variables, in declared order.
pub(crate) fn inputs_of(alloc: Global, vars: &[Var]) -> Result<Vec<Input>, NoMemory>
    requires { have_sound_types vars.now ≡ true }
    ensures { IfOk result (λ inputs. inputs.items ≡ inputs_from 0 vars.now) }
{
    let mut inputs = Vec::new(alloc);
    let mut place = 0usize;
    for var in vars {
        if same_flow(Flow::Input, var.decl.flow) {
            let behind = place.checked_add(count_of(var)).ok_or(NoMemory)?;
            inputs.push(Input::new(alloc, var, place, behind)?)?;
            place = behind;
        }
    }
    Ok(inputs)
}

/// Whether a line begins as a header does.
pub(crate) fn is_header(line: &[u8]) -> bool
    ensures { result ≡ begins_header line.now }
{
    matches!(line, [b'#', ..])
}

/// What stands behind the first byte.
pub(crate) fn behind(text: &[u8]) -> &[u8]
    ensures { result.now ≡ behind_first text.now }
{
    match text {
        [] => text,
        [_, rest @ ..] => rest,
    }
}

// The number of the first input with that name.
fn find_input(inputs: &[Input], name: &[u8]) -> Option<usize>
    ensures number { result ≡ number_named inputs.now name.now }
    ensures within { IfSome result (λ n. n < length inputs.now) }
{
    for (number, input) in inputs.iter().enumerate() {
        if input.name.text().as_bytes() == name {
            return Some(number);
        }
    }
    None
}

// Adds the elements of the input with that name, and marks it. It answers whether there is such an
// input, and it had no mark.
fn add_named(inputs: &[Input], name: &[u8], marks: &mut [bool], fields: &mut Vec<Field>) -> bool
    requires long { length inputs.now ≡ length marks.old }
    requires room { length fields.old.items + unmarked_count inputs.now marks.old
        ≤ vec_capacity fields.old }
    ensures named { Adds (number_named inputs.now name.now) inputs.now marks.old fields.old.items
        result marks.new fields.new.items }
    ensures long { length marks.new ≡ length marks.old }
    ensures room { length fields.new.items + unmarked_count inputs.now marks.new
        ≤ vec_capacity fields.new }
    ensures sound { (n : ℕ) → All (λ i. AreFields n i.fields) inputs.now
        → AreFields n fields.old.items → AreFields n fields.new.items }
{
    let Some(number) = find_input(inputs, name) else {
        return false;
    };
    if marks[number] {
        return false;
    }
    marks[number] = true;
    let input = &inputs[number];
    fields.extend_from_slice(&input.fields).unwrap();
    true
}

/// Reads the names of a header: the elements of the inputs with these names, each of which is
/// marked. It answers whether each name is an input's, and none stands twice.
pub(crate) fn read_names(
    inputs: &[Input],
    text: &[u8],
    marks: &mut [bool],
    fields: &mut Vec<Field>,
) -> bool
    requires long { length inputs.now ≡ length marks.old }
    requires room { unmarked_count inputs.now marks.old ≤ vec_capacity fields.old }
    ensures named { Listed
        (names_by inputs.now marks.old [] (words text.now)) result fields.new.items }
    ensures long { length marks.new ≡ length marks.old }
    ensures room { unmarked_count inputs.now marks.new ≤ vec_capacity fields.new }
    ensures sound { (n : ℕ) → All (λ i. AreFields n i.fields) inputs.now
        → AreFields n fields.new.items }
{
    fields.clear();
    let mut rest = trim_front(text);
    while !rest.is_empty() {
        let end = word_length(rest);
        if !add_named(inputs, &rest[..end], marks, fields) {
            return false;
        }
        rest = trim_front(&rest[end..]);
    }
    true
}
