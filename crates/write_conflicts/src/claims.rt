//! What the guard of each action says.

ghost use Rattle.std.specs.Prelude.{◌≡◌, ◌↔◌, ◌+◌, ◌*◌, ◌<◌, ◌⊎◌, ℕ, Contains, IfOk, OnOk, Some, length, slice_get, slice_index_or};
ghost use Rattle.aif_cells.specs.declared.cells.Action.{Action};
ghost use Rattle.aif_cells.specs.Built.{all_defined};
ghost use Rattle.aif_cells.specs.Order.{IsOrder};
ghost use Rattle.write_conflicts.specs.Loose.{is_stored};
ghost use Rattle.write_conflicts.specs.Pairs.{scene};
ghost use Rattle.write_conflicts.specs.Tables.{AreColumns, AreCovered, said_at};
ghost use Rattle.write_conflicts.specs.Claims.{AreClaimsFrom, AreClaimsOf, IsClaimButYes, IsDenied, IsDeniedAt, IsNumberAt, IsRegisterOf, SaysRegister};

use crate::block::{Block, Group, Said};
use crate::reach::blocks_of;
use crate::table::columns;
use aif_cells::{Aif, Made, Order};
use quartz_tree::NoMemory;
use sqlite_items::Items;
use std::alloc::Global;

/// What is kept of an action.
///
/// The references that its guard says are in words by block: `yes` has for each block the word of
/// those that aren't 0, and `no` has the places of the blocks and the words, where they aren't 0,
/// of those that are 0.
#[derive(Drop)]
pub(crate) struct Claims {
    pub yes: Items<u64>,
    pub no: Items<(usize, u64)>,
    /// The registers that its guard says aren't 0.
    pub registers: Items<u64>,
    /// Whether the copy that it writes has a store.
    pub stored: bool,
}

/// What an action's guard says of a block's references.
fn said_at(columns: &[Items<Said>], place: usize, action: usize) -> Said
    ensures { result ≡ said_at columns.now place action }
{
    let silent = Said { yes: 0, no: 0 };
    if place >= columns.len() {
        return silent;
    }
    let column = columns[place].as_slice();
    column.get(action).copied().unwrap_or(silent)
}

fn yes_of(alloc: Global, columns: &[Items<Said>], action: usize) -> Result<Items<u64>, NoMemory>
    ensures size { IfOk result (λ y. length y ≡ length columns.now) }
    ensures words { IfOk result
        (λ y. (p : ℕ) → p < length columns.now
        → slice_index_or y p 0 ≡ (said_at columns.now p action).yes) }
{
    let mut words = Items::new(alloc);
    for place in 0..columns.len() {
        words.push(said_at(columns, place, action).yes)?;
    }
    Ok(words)
}

// Adds a word with its block's place, where it isn't 0.
fn push_denied(words: &mut Items<(usize, u64)>, place: usize, word: u64) -> Result<(), NoMemory>
    ensures { OnOk result
        ((p w : ℕ) → Contains words.new (p, w)
        ↔ (Contains words.old (p, w) ⊎ IsDeniedAt place word p w)) }
{
    if word == 0 {
        return Ok(());
    }
    words.push((place, word))?;
    Ok(())
}

fn no_of(
    alloc: Global,
    columns: &[Items<Said>],
    action: usize,
) -> Result<Items<(usize, u64)>, NoMemory>
    ensures { IfOk result
        (λ n. (p w : ℕ) → Contains n (p, w)
        ↔ IsDenied columns.now action (length columns.now) p w) }
{
    let mut words = Items::new(alloc);
    for place in 0..columns.len() {
        push_denied(&mut words, place, said_at(columns, place, action).no)?;
    }
    Ok(words)
}

// Adds the number of a bit of a block's word, where it is set.
fn push_number(numbers: &mut Items<u64>, word: u64, at: u32, bit: u64) -> Result<(), NoMemory>
    requires { bit < 64 }
    ensures { OnOk result
        ((l : ℕ) → Contains numbers.new l ↔ (Contains numbers.old l ⊎ IsNumberAt word at bit l)) }
{
    if (word >> bit) & 1 == 0 {
        return Ok(());
    }
    numbers.push(64 * at as u64 + bit)?;
    Ok(())
}

// Adds the numbers of a block's word, where the block is one of registers.
fn push_registers(numbers: &mut Items<u64>, block: Block, word: u64) -> Result<(), NoMemory>
    ensures { OnOk result
        ((l : ℕ) → Contains numbers.new l ↔ (Contains numbers.old l ⊎ IsRegisterOf block word l)) }
{
    if block.group != Group::Registers {
        return Ok(());
    }
    if word == 0 {
        return Ok(());
    }
    for bit in 0..64u64 {
        push_number(numbers, word, block.at, bit)?;
    }
    Ok(())
}

fn registers_of(
    alloc: Global,
    blocks: &[Block],
    columns: &[Items<Said>],
    action: usize,
) -> Result<Items<u64>, NoMemory>
    ensures { IfOk result
        (λ r. (l : ℕ) → Contains r l
        ↔ SaysRegister blocks.now columns.now action (length blocks.now) l) }
{
    let mut registers = Items::new(alloc);
    for place in 0..blocks.len() {
        push_registers(
            &mut registers,
            blocks[place],
            said_at(columns, place, action).yes,
        )?;
    }
    Ok(registers)
}

// Whether a variable's copy has a store.
fn is_stored(made: &[Made], var: u32, copy: u32) -> bool
    ensures { result ≡ is_stored made.now var copy }
{
    let mut before = copy;
    for other in made {
        if other.var == var {
            if before == 0 {
                return other.stored;
            }
            before -= 1;
        }
    }
    false
}

// What is kept of one action, but for the references with plus.
fn claims_of_action(
    alloc: Global,
    aif: &Aif,
    blocks: &[Block],
    columns: &[Items<Said>],
    at: usize,
) -> Result<Claims, NoMemory>
    requires within { at < length aif.now.actions }
    requires covered { AreCovered (all_defined aif.now.cells) blocks.now aif.now.actions }
    requires columns { AreColumns
        (all_defined aif.now.cells) blocks.now aif.now.actions columns.now }
    ensures { IfOk result
        (λ c. (a : Action) → slice_get aif.now.actions at ≡ Some a
        → IsClaimButYes (scene aif.now) blocks.now columns.now at a c) }
{
    let action = aif.actions.as_slice()[at];
    Ok(Claims {
        yes: Items::new(alloc),
        no: no_of(alloc, columns, at)?,
        registers: registers_of(alloc, blocks, columns, at)?,
        stored: is_stored(aif.made.as_slice(), action.var, action.copy),
    })
}

// What is kept of each action, but for the references with plus.
fn claims_but_yes(
    alloc: Global,
    aif: &Aif,
    blocks: &[Block],
    columns: &[Items<Said>],
) -> Result<Vec<Claims>, NoMemory>
    requires covered { AreCovered (all_defined aif.now.cells) blocks.now aif.now.actions }
    requires columns { AreColumns
        (all_defined aif.now.cells) blocks.now aif.now.actions columns.now }
    ensures { IfOk result
        (λ c. AreClaimsFrom 0 (scene aif.now) blocks.now columns.now aif.now.actions c.items) }
{
    let mut claims = Vec::new(alloc);
    for at in 0..aif.actions.len() {
        claims.push(claims_of_action(alloc, aif, blocks, columns, at)?)?;
    }
    Ok(claims)
}

/// What is kept of each action. The short lists of all actions are made before the long ones, so
/// that they lie side by side.
pub(crate) fn claims_of(alloc: Global, aif: &Aif, order: &Order) -> Result<Vec<Claims>, NoMemory>
    requires { IsOrder (all_defined aif.now.cells) order.now.cells }
    ensures { IfOk result (λ c. AreClaimsOf (scene aif.now) aif.now.actions c.items) }
{
    let actions = aif.actions.as_slice();
    let blocks = blocks_of(alloc, aif.cells.as_slice(), actions)?;
    let columns = columns(
        alloc,
        blocks.as_slice(),
        aif.cells.as_slice(),
        order.cells.as_slice(),
        actions,
    )?;
    let mut claims = claims_but_yes(alloc, aif, blocks.as_slice(), columns.as_slice())?;
    for at in 0..actions.len() {
        claims[at].yes = yes_of(alloc, columns.as_slice(), at)?;
    }
    Ok(claims)
}
