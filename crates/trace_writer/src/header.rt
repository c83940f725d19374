//! The header that names the inputs.

ghost use Rattle.std.specs.Prelude.{◌≡◌, ◌≤◌, ◌++◌, ◌∷◌, OnOk, vec_capacity};
ghost use Rattle.trace_writer.specs.Anew.{input_names, spaced_words, new_header};

use crate::format::Format;
use quartz_tree::{Flow, NoMemory, Var};
use trace_io::same_flow;

// Adds a blank and a word.
fn push_spaced(line: &mut Vec<u8>, word: &[u8]) -> Result<(), NoMemory>
    ensures text { OnOk result (line.new.items ≡ line.old.items ++ (32 ∷ word.now)) }
    ensures room { vec_capacity line.old ≤ vec_capacity line.new }
{
    line.push(b' ')?;
    line.extend_from_slice(word)?;
    Ok(())
}

// Adds a blank and the name of each input among these variables.
fn push_names(line: &mut Vec<u8>, vars: &[Var]) -> Result<(), NoMemory>
    ensures text { OnOk result
        (line.new.items ≡ line.old.items ++ spaced_words (input_names vars.now)) }
    ensures room { vec_capacity line.old ≤ vec_capacity line.new }
{
    for var in vars {
        if same_flow(Flow::Input, var.decl.flow) {
            push_spaced(line, var.decl.name.text().as_bytes())?;
        }
    }
    Ok(())
}

/// Adds the header of a trace in that format to a line.
pub(crate) fn push_header(line: &mut Vec<u8>, format: Format, vars: &[Var]) -> Result<(), NoMemory>
    ensures text { OnOk result (line.new.items ≡ line.old.items ++ new_header format vars.now) }
    ensures room { vec_capacity line.old ≤ vec_capacity line.new }
{
    match format {
        Format::Plain => Ok(()),
        Format::Headed => {
            line.push(b'#')?;
            push_names(line, vars)?;
            line.push(b'\n')?;
            Ok(())
        }
    }
}
