//! A shelf in memory.

ghost use Rattle.std.specs.Prelude.{◌≡◌, ◌≤◌, ◌↔◌, ◌⊎◌, [], Some, None, length, IfOk, OnOk, OnErr, IsErr, Contains, if◌then◌else◌, ◌==◌};
ghost use Rattle.std.specs.Option.{option_copied};
ghost use Rattle.std.specs.List.{list_any};
ghost use Rattle.outside.specs.Bytes.{Fetched, Unfetched};
ghost use Rattle.outside.specs.Memory.{text_of, with_text, looked_up, unread};

use crate::shelf::Shelf;
use crate::source::Failed;
use quartz_tree::{Name, NoMemory};
use std::alloc::Global;
use std::marker::Model;

// A named text.
#[derive(Debug, Drop)]
struct Text {
    name: Name,
    bytes: Vec<u8>,
}

/// Texts in memory, of which some fetches fail. It tells its texts.
#[derive(Debug, Drop)]
pub struct MemShelf {
    texts: Vec<Text>,
    fails: Vec<u64>,
    calls: u64,
    faults: u64,
}

impl Model for MemShelf {
    ghost use Rattle.std.specs.Prelude.{map};
    ghost use Rattle.outside.specs.Memory.{Books};

    ghost Value = { Books };

    ghost view = { λ s. record { texts = map (λ t. record { name = t.name; bytes = t.bytes.items }) s.texts.items; fails = s.fails.items; calls = s.calls; faults = s.faults } };
}

impl MemShelf {
    /// A shelf without texts. Call j of `fetch`, counted from 0, fails exactly where j is in
    /// `fails` or the name has no text; the second is no fault.
    pub fn new(alloc: Global, fails: &[u64]) -> Result<MemShelf, NoMemory>
        ensures { IfOk result
            (λ s. s ≡ record { texts = []; fails = fails.now; calls = 0; faults = 0 }) }
    {
        Ok(MemShelf {
            texts: Vec::new(alloc),
            fails: fails.to_vec(alloc)?,
            calls: 0,
            faults: 0,
        })
    }

    /// Sets the text of a name.
    pub fn add(&mut self, alloc: Global, name: &Name, text: &[u8]) -> Result<(), NoMemory>
        ensures ok { OnOk result (self.new ≡ with_text self.old name.now text.now) }
        ensures err { OnErr result (self.new ≡ self.old) }
    {
        let named = Text {
            name: Name::new(alloc, name.text())?,
            bytes: text.to_vec(alloc)?,
        };
        self.texts.insert(0, named)?;
        Ok(())
    }

    // The newest text of a name.
    fn named(&self, name: &str) -> Option<&[u8]>
        ensures { option_copied result ≡ text_of self.now.texts name.now }
    {
        for text in &self.texts {
            if text.name.text() == name {
                return Some(&text.bytes);
            }
        }
        None
    }
}

impl Shelf for MemShelf {
    ghost texts = { λ s. Some (text_of s.texts) };

    ghost faults = { λ s. s.faults };

    fn fetch(&mut self, name: &str, buf: &mut [u8]) -> Result<usize, Failed>
        ensures never_falls { self.old.faults ≤ self.new.faults }
        ensures same_texts { Some (text_of self.new.texts) ≡ Some (text_of self.old.texts) }
        ensures within { IfOk result (λ n. n ≤ length buf.old) }
        ensures fetched { IfOk result
            (λ n. Fetched (Some (text_of self.old.texts)) name.now n buf.new) }
        ensures unfetched { OnErr result
            (Unfetched (Some (text_of self.old.texts)) name.now self.old.faults self.new.faults) }
        ensures fails { IsErr result
            ↔ (Contains self.old.fails self.old.calls ⊎ (text_of self.old.texts name.now ≡ None)) }
        ensures after { self.new
            ≡ (if list_any (λ j. j == self.old.calls) self.old.fails
            then unread self.old else looked_up self.old) }
    {
        let fails = self.fails.contains(&self.calls);
        self.calls = self.calls.saturating_add(1);
        if fails {
            self.faults = self.faults.saturating_add(1);
            return Err(Failed);
        }
        let text = self.named(name).ok_or(Failed)?;
        let most = text.len().min(buf.len());
        buf[..most].copy_from_slice(&text[..most]);
        Ok(most)
    }
}
