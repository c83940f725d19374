//! References, variables and words of rows.

ghost use Rattle.std.specs.Prelude.{◌≡◌, IfOk};

use aif_cells::Ref;
use quartz_tree::{Base, Decl, Flow, Name, NoMemory, Place, Storage, Ty, Var};
use std::alloc::Global;

/// Whether a word stands among words with blanks between.
pub(crate) fn has_word(words: &str, wanted: &str) -> bool {
    for word in words.split_whitespace() {
        if word == wanted {
            return true;
        }
    }
    false
}

/// The number behind the mark in the word that begins with it, or 0.
pub(crate) fn number_behind(words: &str, mark: char) -> u32 {
    for word in words.split_whitespace() {
        if let Some(number) = word.strip_prefix(mark) {
            return number.parse::<u32>().unwrap_or(0);
        }
    }
    0
}

/// A reference as `i0`, `r1`, `c2` or a number.
pub(crate) fn ref_of(word: &str) -> Ref {
    if let Some(number) = word.strip_prefix('i') {
        return Ref::Input(number.parse::<u32>().unwrap_or(0));
    }
    if let Some(number) = word.strip_prefix('r') {
        return Ref::Reg(number.parse::<u32>().unwrap_or(0));
    }
    if let Some(number) = word.strip_prefix('c') {
        return Ref::Cell(number.parse::<u32>().unwrap_or(0));
    }
    Ref::Lit(word.parse::<i64>().unwrap_or(0))
}

/// An inner variable as its storage, its type, `=` and its start value, `@` and its column, and
/// `delayed` if it is.
pub(crate) fn variable_of(alloc: Global, words: &str) -> Result<Var, NoMemory>
    ensures { IfOk result (λ v. v.decl.flow ≡ Flow.Inner) }
{
    let is_event = has_word(words, "event");
    let base = if has_word(words, "bool") {
        Base::Bool
    } else {
        Base::Nat(8)
    };
    let len = if has_word(words, "[2]") {
        Some(2)
    } else {
        None
    };
    let place = Place {
        line: 1,
        col: number_behind(words, '@'),
    };
    let decl = Decl {
        name: Name::new(alloc, "x")?,
        ty: Ty { base, len },
        storage: if is_event {
            Storage::Event
        } else {
            Storage::Mem
        },
        flow: Flow::Inner,
        place,
        base_place: place,
        len_place: place,
        init: None,
    };
    Ok(Var {
        decl,
        delayed: has_word(words, "delayed"),
        start: i64::from(number_behind(words, '=')),
    })
}
