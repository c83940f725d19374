//! The text of a tree.

ghost use Rattle.std.specs.Prelude.{◌≡◌, ◌++◌, codes, decimal, map};
ghost use Rattle.outside.specs.Puts.{Puts};
ghost use Rattle.aif_cells.specs.Tree.{tree, trees};
ghost use Rattle.aif_cells.specs.Text.{one_name, ref_text, texts, tree_text, trees_text, two_name};
ghost use Rattle.aif_cells.specs.Put.{alternative_text, arm_text, closes, item_text};

use crate::piece::{Piece, put, put_pieces, put_reference};
use crate::reference::Ref;
use crate::tree::{Tree, TreeOne, TreeTwo};
use outside::{Failed, Sink};

fn name_of_one(op: TreeOne) -> &'static [u8]
    ensures { result.now ≡ one_name op }
{
    match op {
        TreeOne::Not => b"not(",
        TreeOne::Neg => b"neg(",
    }
}

fn name_of_two(op: TreeTwo) -> &'static [u8]
    ensures { result.now ≡ two_name op }
{
    match op {
        TreeTwo::And => b"and(",
        TreeTwo::Or => b"or(",
        TreeTwo::Xor => b"xor(",
        TreeTwo::Eq => b"eq(",
        TreeTwo::Ne => b"ne(",
        TreeTwo::Lt => b"lt(",
        TreeTwo::Le => b"le(",
        TreeTwo::Gt => b"gt(",
        TreeTwo::Ge => b"ge(",
        TreeTwo::Add => b"add(",
        TreeTwo::Sub => b"sub(",
        TreeTwo::Mul => b"mul(",
        TreeTwo::Div => b"div(",
        TreeTwo::Rem => b"rem(",
        TreeTwo::Band => b"band(",
        TreeTwo::Bor => b"bor(",
        TreeTwo::Bxor => b"bxor(",
    }
}

/// Puts a tree.
#[cycle(put_tree)]
pub(crate) fn put_tree<O: Sink>(out: &mut O, t: &Tree) -> Result<(), Failed>
    ensures { Puts O.stands O.faults result out.old out.new (tree_text (tree t.now)) }
{
    match t {
        Tree::Value(reference) => put_reference(out, *reference),
        Tree::One(op, part) => put_one(out, *op, part),
        Tree::Two(op, left, right) => {
            put_left(out, *op, left)?;
            put_right(out, right)?;
            Ok(())
        }
        Tree::Ite(cond, yes, no) => {
            put_cond(out, cond)?;
            put_yes(out, yes)?;
            put_no(out, no)?;
            Ok(())
        }
        Tree::Sel(index, items) => {
            put_index(out, index)?;
            put_list(out, items)?;
            Ok(())
        }
        Tree::Fit(part, low, high) => {
            put_with_numbers(out, b"fit(", part, Ref::Lit(*low), Ref::Lit(*high))
        }
        Tree::Bnot(part, width) => put_with_width(out, b"bnot(", part, *width),
        Tree::Cat(high, low, width) => {
            put_high(out, high)?;
            put_low(out, low, *width)?;
            Ok(())
        }
        Tree::Bits(part, high, low) => put_slice(out, part, *high, *low),
        Tree::Cases(arms, last) => {
            put_arms(out, arms)?;
            put_otherwise(out, last, arms.len())?;
            Ok(())
        }
        Tree::Any(items, last) => {
            put_firsts(out, items)?;
            put_last(out, last, items.len())?;
            Ok(())
        }
    }
}

#[cycle(put_tree)]
fn put_one<O: Sink>(out: &mut O, op: TreeOne, part: &Tree) -> Result<(), Failed>
    ensures { Puts O.stands O.faults result out.old out.new
        (one_name op ++ (tree_text (tree part.now) ++ codes ")")) }
{
    put_one_name(out, op)?;
    put_behind(out, part, b")")?;
    Ok(())
}

#[cycle(put_tree)]
fn put_left<O: Sink>(out: &mut O, op: TreeTwo, left: &Tree) -> Result<(), Failed>
    ensures { Puts O.stands O.faults result out.old out.new
        (two_name op ++ (tree_text (tree left.now) ++ codes ",")) }
{
    put_two_name(out, op)?;
    put_behind(out, left, b",")?;
    Ok(())
}

#[cycle(put_tree)]
fn put_right<O: Sink>(out: &mut O, right: &Tree) -> Result<(), Failed>
    ensures { Puts O.stands O.faults result out.old out.new
        (tree_text (tree right.now) ++ codes ")") }
{
    put_behind(out, right, b")")
}

#[cycle(put_tree)]
fn put_cond<O: Sink>(out: &mut O, cond: &Tree) -> Result<(), Failed>
    ensures { Puts O.stands O.faults result out.old out.new
        (codes "ite(" ++ (tree_text (tree cond.now) ++ codes ",")) }
{
    put(out, b"ite(")?;
    put_behind(out, cond, b",")?;
    Ok(())
}

#[cycle(put_tree)]
fn put_yes<O: Sink>(out: &mut O, yes: &Tree) -> Result<(), Failed>
    ensures { Puts O.stands O.faults result out.old out.new
        (tree_text (tree yes.now) ++ codes ",") }
{
    put_behind(out, yes, b",")
}

#[cycle(put_tree)]
fn put_no<O: Sink>(out: &mut O, no: &Tree) -> Result<(), Failed>
    ensures { Puts O.stands O.faults result out.old out.new (tree_text (tree no.now) ++ codes ")") }
{
    put_behind(out, no, b")")
}

#[cycle(put_tree)]
fn put_index<O: Sink>(out: &mut O, index: &Tree) -> Result<(), Failed>
    ensures { Puts O.stands O.faults result out.old out.new
        (codes "sel(" ++ tree_text (tree index.now)) }
{
    put(out, b"sel(")?;
    put_tree(out, index)?;
    Ok(())
}

#[cycle(put_tree)]
fn put_high<O: Sink>(out: &mut O, high: &Tree) -> Result<(), Failed>
    ensures { Puts O.stands O.faults result out.old out.new
        (codes "cat(" ++ (tree_text (tree high.now) ++ codes ",")) }
{
    put(out, b"cat(")?;
    put_behind(out, high, b",")?;
    Ok(())
}

#[cycle(put_tree)]
fn put_low<O: Sink>(out: &mut O, low: &Tree, width: u32) -> Result<(), Failed>
    ensures { Puts O.stands O.faults result out.old out.new
        (tree_text (tree low.now) ++ (codes "," ++ (decimal width ++ codes ")"))) }
{
    put_tree(out, low)?;
    put_width(out, width)?;
    Ok(())
}

#[cycle(put_tree)]
fn put_otherwise<O: Sink>(out: &mut O, last: &Tree, count: usize) -> Result<(), Failed>
    ensures { Puts O.stands O.faults result out.old out.new
        (tree_text (tree last.now) ++ closes count) }
{
    put_tree(out, last)?;
    put_closes(out, count)?;
    Ok(())
}

#[cycle(put_tree)]
fn put_last<O: Sink>(out: &mut O, last: &Tree, count: usize) -> Result<(), Failed>
    ensures { Puts O.stands O.faults result out.old out.new
        (tree_text (tree last.now) ++ closes count) }
{
    put_otherwise(out, last, count)
}

#[cycle(put_tree)]
fn put_with_numbers<O: Sink>(
    out: &mut O,
    name: &[u8],
    part: &Tree,
    first: Ref,
    second: Ref,
) -> Result<(), Failed>
    ensures { Puts O.stands O.faults result out.old out.new
        (name.now ++ (tree_text (tree part.now)
        ++ (codes "," ++ (ref_text first ++ (codes "," ++ (ref_text second ++ codes ")")))))) }
{
    put(out, name)?;
    put_tree(out, part)?;
    put_two_numbers(out, first, second)?;
    Ok(())
}

#[cycle(put_tree)]
fn put_slice<O: Sink>(out: &mut O, part: &Tree, first: u32, second: u32) -> Result<(), Failed>
    ensures { Puts O.stands O.faults result out.old out.new
        (codes "bits(" ++ (tree_text (tree part.now)
        ++ (codes "," ++ (decimal first ++ (codes "," ++ (decimal second ++ codes ")")))))) }
{
    put(out, b"bits(")?;
    put_tree(out, part)?;
    put_two_counts(out, first, second)?;
    Ok(())
}

#[cycle(put_tree)]
fn put_with_width<O: Sink>(out: &mut O, name: &[u8], part: &Tree, width: u32) -> Result<(), Failed>
    ensures { Puts O.stands O.faults result out.old out.new
        (name.now ++ (tree_text (tree part.now) ++ (codes "," ++ (decimal width ++ codes ")")))) }
{
    put(out, name)?;
    put_tree(out, part)?;
    put_width(out, width)?;
    Ok(())
}

// A tree, and bytes behind it.
#[cycle(put_tree)]
fn put_behind<O: Sink>(out: &mut O, t: &Tree, bytes: &[u8]) -> Result<(), Failed>
    ensures { Puts O.stands O.faults result out.old out.new (tree_text (tree t.now) ++ bytes.now) }
{
    put_tree(out, t)?;
    put(out, bytes)?;
    Ok(())
}

#[cycle(put_tree)]
fn put_list<O: Sink>(out: &mut O, items: &[Tree]) -> Result<(), Failed>
    ensures { Puts O.stands O.faults result out.old out.new
        (trees_text (trees (map tree items.now)) ++ codes ")") }
{
    put_listed(out, items)?;
    put(out, b")")?;
    Ok(())
}

#[cycle(put_tree)]
fn put_listed<O: Sink>(out: &mut O, items: &[Tree]) -> Result<(), Failed>
    ensures { Puts O.stands O.faults result out.old out.new
        (trees_text (trees (map tree items.now))) }
{
    put_items(out, items)?;
    Ok(())
}

// Trees, each behind a comma.
#[cycle(put_tree)]
fn put_items<O: Sink>(out: &mut O, items: &[Tree]) -> Result<(), Failed>
    ensures { Puts O.stands O.faults result out.old out.new (texts item_text 0 items.now) }
{
    for item in items {
        put_next(out, item)?;
    }
    Ok(())
}

#[cycle(put_tree)]
fn put_next<O: Sink>(out: &mut O, t: &Tree) -> Result<(), Failed>
    ensures { Puts O.stands O.faults result out.old out.new (codes "," ++ tree_text (tree t.now)) }
{
    put(out, b",")?;
    put_tree(out, t)?;
    Ok(())
}

// What stands before the last tree of a chain of choices.
#[cycle(put_tree)]
fn put_arms<O: Sink>(out: &mut O, arms: &[(Tree, Tree)]) -> Result<(), Failed>
    ensures { Puts O.stands O.faults result out.old out.new (texts arm_text 0 arms.now) }
{
    for (cond, value) in arms {
        put_cond(out, cond)?;
        put_yes(out, value)?;
    }
    Ok(())
}

// What stands before the last tree of a chain of alternatives.
#[cycle(put_tree)]
fn put_firsts<O: Sink>(out: &mut O, items: &[Tree]) -> Result<(), Failed>
    ensures { Puts O.stands O.faults result out.old out.new (texts alternative_text 0 items.now) }
{
    for item in items {
        put_first(out, item)?;
    }
    Ok(())
}

#[cycle(put_tree)]
fn put_first<O: Sink>(out: &mut O, t: &Tree) -> Result<(), Failed>
    ensures { Puts O.stands O.faults result out.old out.new
        (codes "or(" ++ (tree_text (tree t.now) ++ codes ",")) }
{
    put(out, b"or(")?;
    put_behind(out, t, b",")?;
    Ok(())
}

fn put_one_name<O: Sink>(out: &mut O, op: TreeOne) -> Result<(), Failed>
    ensures { Puts O.stands O.faults result out.old out.new (one_name op) }
{
    put(out, name_of_one(op))
}

fn put_two_name<O: Sink>(out: &mut O, op: TreeTwo) -> Result<(), Failed>
    ensures { Puts O.stands O.faults result out.old out.new (two_name op) }
{
    put(out, name_of_two(op))
}

fn put_width<O: Sink>(out: &mut O, width: u32) -> Result<(), Failed>
    ensures { Puts O.stands O.faults result out.old out.new
        (codes "," ++ (decimal width ++ codes ")")) }
{
    let width = Piece::Count(width as u128);
    put_pieces(out, &[Piece::Bytes(b","), width, Piece::Bytes(b")")])
}

fn put_two_counts<O: Sink>(out: &mut O, first: u32, second: u32) -> Result<(), Failed>
    ensures { Puts O.stands O.faults result out.old out.new
        (codes "," ++ (decimal first ++ (codes "," ++ (decimal second ++ codes ")")))) }
{
    let comma = Piece::Bytes(b",");
    let first = Piece::Count(first as u128);
    let second = Piece::Count(second as u128);
    put_pieces(out, &[comma, first, comma, second, Piece::Bytes(b")")])
}

fn put_two_numbers<O: Sink>(out: &mut O, first: Ref, second: Ref) -> Result<(), Failed>
    ensures { Puts O.stands O.faults result out.old out.new
        (codes "," ++ (ref_text first ++ (codes "," ++ (ref_text second ++ codes ")")))) }
{
    let comma = Piece::Bytes(b",");
    let first = Piece::Of(first);
    let second = Piece::Of(second);
    put_pieces(out, &[comma, first, comma, second, Piece::Bytes(b")")])
}

// So many closing parentheses.
fn put_closes<O: Sink>(out: &mut O, count: usize) -> Result<(), Failed>
    ensures { Puts O.stands O.faults result out.old out.new (closes count) }
{
    for _at in 0..count {
        put(out, b")")?;
    }
    Ok(())
}
