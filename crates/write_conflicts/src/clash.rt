//! Whether two actions clash, and whether they are loose.

ghost use Rattle.std.specs.Prelude.{◌≡◌, [], ◌∷◌, MatchBool, map};
ghost use Rattle.write_conflicts.specs.Clash.{Clash, are_apart, indexes_differ, same_step, way_to};
ghost use Rattle.write_conflicts.specs.Claims.{AreBothClaimed, AreOpposed, HaveCommon, MayMeet, Meets, SomeExclude, is_way, registers_exclude, ways_part};
ghost use Rattle.write_conflicts.specs.Loose.{AreLoose};
ghost use Rattle.write_conflicts.specs.Pairs.{scene, steps_of};

use crate::claims::Claims;
use aif_cells::{Action, Aif, Path, Ref};

fn have_common(v: u64, w: u64) -> bool
    ensures { MatchBool result (HaveCommon v w) (HaveCommon v w → ⊥) }
{
    if v & w == 0 {
        return false;
    }
    true
}

// Whether one says a reference with minus that the other says with plus.
fn meets(no: &[(usize, u64)], yes: &[u64]) -> bool
    ensures { MatchBool result (Meets no.now yes.now) (Meets no.now yes.now → ⊥) }
{
    for (place, word) in no {
        let other = yes.get(*place).copied().unwrap_or(0);
        if have_common(*word, other) {
            return true;
        }
    }
    false
}

fn same_step(step: (bool, u32), other: (bool, u32)) -> bool
    ensures { result ≡ same_step step other }
{
    step.0 == other.0 && step.1 == other.1
}

// Whether two ways first differ at a step that isn't a parallel's.
fn are_apart(way: &[(bool, u32)], other: &[(bool, u32)]) -> bool
    ensures { result ≡ are_apart way.now other.now }
{
    for at in 0..way.len() {
        if at >= other.len() {
            return false;
        }
        if !same_step(way[at], other[at]) {
            return !way[at].0 && !other[at].0;
        }
    }
    false
}

// Whether a register is that of a label.
fn is_label(paths: &[Path], register: u64) -> bool
    ensures { result ≡ is_way (way_to (map steps_of paths.now) register) }
{
    register != 0 && register <= paths.len() as u64
}

// Whether two registers are those of labels whose ways are apart.
fn are_labels_apart(paths: &[Path], register: u64, other: u64) -> bool
    ensures { result ≡ ways_part (way_to (map steps_of paths.now) register)
        (way_to (map steps_of paths.now) other) }
{
    if !is_label(paths, register) || !is_label(paths, other) {
        return false;
    }
    let way = &paths[(register - 1) as usize].steps;
    let other = &paths[(other - 1) as usize].steps;
    are_apart(way.as_slice(), other.as_slice())
}

// Whether two registers with plus exclude one another.
fn registers_exclude(paths: &[Path], register: u64, other: u64) -> bool
    ensures { result ≡ registers_exclude (map steps_of paths.now) register other }
{
    if register == 0 {
        is_label(paths, other)
    } else if other == 0 {
        is_label(paths, register)
    } else {
        are_labels_apart(paths, register, other)
    }
}

fn excludes_some(paths: &[Path], register: u64, others: &[u64]) -> bool
    ensures { MatchBool result (SomeExclude (map steps_of paths.now) (register ∷ []) others.now)
        (SomeExclude (map steps_of paths.now) (register ∷ []) others.now → ⊥) }
{
    for other in others {
        if registers_exclude(paths, register, *other) {
            return true;
        }
    }
    false
}

// Whether a register of the one list excludes one of the other.
fn some_exclude(paths: &[Path], registers: &[u64], others: &[u64]) -> bool
    ensures { MatchBool result (SomeExclude (map steps_of paths.now) registers.now others.now)
        (SomeExclude (map steps_of paths.now) registers.now others.now → ⊥) }
{
    for register in registers {
        if excludes_some(paths, *register, others) {
            return true;
        }
    }
    false
}

// Whether both indexes are literals that differ.
fn indexes_differ(index: Option<Ref>, other: Option<Ref>) -> bool
    ensures { result ≡ indexes_differ index other }
{
    match (index, other) {
        (Some(Ref::Lit(index)), Some(Ref::Lit(other))) => index != other,
        _ => false,
    }
}

// Whether what one guard says excludes what the other says.
fn guards_clash(paths: &[Path], first: &Claims, second: &Claims) -> bool
    ensures { MatchBool result (AreOpposed (map steps_of paths.now) first.now second.now)
        (AreOpposed (map steps_of paths.now) first.now second.now → ⊥) }
{
    meets(first.no.as_slice(), second.yes.as_slice())
        || meets(second.no.as_slice(), first.yes.as_slice())
        || some_exclude(
            paths,
            first.registers.as_slice(),
            second.registers.as_slice(),
        )
}

fn clash(aif: &Aif, a: &Action, claims: &Claims, b: &Action, others: &Claims) -> bool
    requires { AreBothClaimed (scene aif.now) a.now b.now claims.now others.now }
    ensures { MatchBool result (Clash (scene aif.now).cells (scene aif.now).ways a.now b.now)
        (Clash (scene aif.now).cells (scene aif.now).ways a.now b.now → ⊥) }
{
    indexes_differ(a.index, b.index) || guards_clash(aif.paths.as_slice(), claims, others)
}

// Whether two actions write one copy and don't clash.
fn may_meet(aif: &Aif, a: &Action, claims: &Claims, b: &Action, others: &Claims) -> bool
    requires { AreBothClaimed (scene aif.now) a.now b.now claims.now others.now }
    ensures { MatchBool result (MayMeet (scene aif.now) a.now b.now)
        (MayMeet (scene aif.now) a.now b.now → ⊥) }
{
    if a.copy != b.copy {
        return false;
    }
    !clash(aif, a, claims, b, others)
}

/// Whether two actions are loose, by what is kept of them.
pub(crate) fn are_loose(aif: &Aif, a: &Action, claims: &Claims, b: &Action, others: &Claims) -> bool
    requires { AreBothClaimed (scene aif.now) a.now b.now claims.now others.now }
    ensures { MatchBool result (AreLoose (scene aif.now) a.now b.now)
        (AreLoose (scene aif.now) a.now b.now → ⊥) }
{
    if a.var != b.var {
        return false;
    }
    if a.delayed == b.delayed {
        return may_meet(aif, a, claims, b, others);
    }
    if a.delayed {
        others.stored
    } else {
        claims.stored
    }
}
