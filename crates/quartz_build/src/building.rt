//! The whole build of a text: its cells, their order and its loose pairs.

ghost use Rattle.std.specs.Prelude.{◌≡◌, true, IfOk};
ghost use Rattle.aif_cells.specs.Built.{all_defined};
ghost use Rattle.aif_cells.specs.Order.{IsOrder};
ghost use Rattle.quartz_build.specs.Broken.{Cells, scrutiny_of};
ghost use Rattle.quartz_build.specs.Parts.{AreWanted, AllowedAs, BuildsAs, CellsAs, refused_pair};

use crate::fault::BuildFault;
use crate::judging::front;
use aif_cells::{Aif, Order};
use causality_check::order;
use quartz_tree::{NoMemory, Place};
use quartz_types::Typed;
use std::alloc::Global;
use surface_depth::compile;
use write_conflicts::{Pairs, loose_pairs};

/// The parts of a module that was built.
#[derive(Debug, Drop)]
pub struct Built {
    pub aif: Aif,
    pub order: Order,
    /// Which writes may conflict, where this was asked for.
    pub pairs: Option<Pairs>,
}

// The loose pairs of the cells, where they are wanted.
fn tell_pairs(
    alloc: Global,
    aif: &Aif,
    order: &Order,
    wants_pairs: bool,
) -> Result<Option<Pairs>, NoMemory>
    requires { IsOrder (all_defined aif.now.cells) order.now.cells }
    ensures { IfOk result (λ told. AreWanted wants_pairs aif.now told) }
{
    if !wants_pairs {
        return Ok(None);
    }
    let pairs = loose_pairs(alloc, aif, order)?;
    Ok(Some(pairs))
}

// The cells of a typed module, their order and their loose pairs.
fn build_typed(alloc: Global, typed: &Typed, wants_pairs: bool) -> Result<Built, BuildFault>
    ensures { CellsAs Cells wants_pairs typed.now result }
{
    let aif = match compile(alloc, typed) {
        Ok(aif) => aif,
        Err(fault) => return Err(BuildFault::from(fault)),
    };
    let order = match order(alloc, &aif) {
        Ok(order) => order,
        Err(fault) => return Err(BuildFault::from(fault)),
    };
    match tell_pairs(alloc, &aif, &order, wants_pairs) {
        Ok(pairs) => Ok(Built { aif, order, pairs }),
        Err(fault) => Err(BuildFault::from(fault)),
    }
}

// The place at which loose pairs are refused, where they are.
fn find_refused(pairs: &Option<Pairs>, is_strict: bool) -> Option<Place>
    ensures { result ≡ refused_pair (scrutiny_of is_strict) pairs.now }
{
    match pairs {
        Some(pairs) if is_strict => pairs.least,
        _ => None,
    }
}

// The module that was built, unless it has loose pairs and they are refused.
fn allow(built: Built, is_strict: bool) -> Result<Built, BuildFault>
    ensures { AllowedAs (scrutiny_of is_strict) built result }
{
    match find_refused(&built.pairs, is_strict) {
        Some(place) => Err(BuildFault::Refused { rule: 10, place }),
        None => Ok(built),
    }
}

// Builds a typed module, whose loose pairs are refused with `is_strict`.
fn build_strictly(
    alloc: Global,
    typed: &Typed,
    wants_pairs: bool,
    is_strict: bool,
) -> Result<Built, BuildFault>
    requires { is_strict ≡ true → wants_pairs ≡ true }
    ensures { CellsAs (scrutiny_of is_strict) wants_pairs typed.now result }
{
    match build_typed(alloc, typed, wants_pairs) {
        Ok(built) => allow(built, is_strict),
        Err(fault) => Err(fault),
    }
}

/// Builds the only module of a text, or answers the first of the rules S1 to S9 that it breaks.
/// With `is_strict` a loose pair of writes breaks S10. Behind S1 and S2 a text of several modules
/// or with a call is refused by rule 0, since calls are not linked yet.
pub fn build(
    alloc: Global,
    text: &[u8],
    wants_pairs: bool,
    is_strict: bool,
) -> Result<Built, BuildFault>
    requires { is_strict ≡ true → wants_pairs ≡ true }
    ensures { BuildsAs (scrutiny_of is_strict) wants_pairs text.now result }
{
    match front(alloc, text) {
        Ok(typed) => build_strictly(alloc, &typed, wants_pairs, is_strict),
        Err(fault) => Err(fault),
    }
}
