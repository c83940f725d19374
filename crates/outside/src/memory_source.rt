//! Sources in memory.

ghost use Rattle.std.specs.Prelude.{◌≡◌, ◌<◌, ◌≤◌, ◌↔◌, Some, None, drop, length, IfOk, OnErr, IsErr, IfSome, Contains, All};
ghost use Rattle.outside.specs.Bytes.{Rose, Moved, Counted};
ghost use Rattle.outside.specs.Memory.{piece_bound, portion, supplied, missed};

use crate::source::{Failed, Source};
use quartz_tree::NoMemory;
use std::alloc::Global;
use std::marker::Model;

/// Bytes in memory that are given in pieces, and of which some calls fail.
#[derive(Debug, Drop)]
pub struct MemSource {
    bytes: Vec<u8>,
    at: usize,
    pieces: Vec<u32>,
    fails: Vec<u64>,
    calls: u64,
    faults: u64,
}

impl Model for MemSource {
    ghost use Rattle.std.specs.Prelude.{drop, length, All, ◌≤◌};
    ghost use Rattle.outside.specs.Memory.{Supply};

    ghost Value = { Supply };

    ghost view = { λ s. record { left = drop s.at s.bytes.items; pieces = s.pieces.items; fails = s.fails.items; calls = s.calls; faults = s.faults } };

    ghost invariant = { λ s. (s.at ≤ length s.bytes.items) × All (λ n. 1 ≤ n) s.pieces.items };
}

impl MemSource {
    /// A source of these bytes. Call j of `take`, counted from 0, fails exactly where j is in
    /// `fails`. Else it gives at most `pieces[j]` bytes; the last size holds for all later calls,
    /// and an empty list sets no bound.
    pub fn new(
        alloc: Global,
        bytes: &[u8],
        pieces: &[u32],
        fails: &[u64],
    ) -> Result<MemSource, NoMemory>
        requires { All (λ n. 1 ≤ n) pieces.now }
        ensures { IfOk result
            (λ s. s ≡ record {
              left = bytes.now;
              pieces = pieces.now;
              fails = fails.now;
              calls = 0;
              faults = 0;
            }) }
    {
        Ok(MemSource {
            bytes: bytes.to_vec(alloc)?,
            at: 0,
            pieces: pieces.to_vec(alloc)?,
            fails: fails.to_vec(alloc)?,
            calls: 0,
            faults: 0,
        })
    }

    /// The bytes left.
    pub fn left(&self) -> &[u8]
        ensures { result.now ≡ self.now.left }
    {
        &self.bytes[self.at..]
    }
}

/// Bytes in memory that are given as they are asked for, with no fault.
#[derive(Debug, Drop)]
pub struct SureSource {
    bytes: Vec<u8>,
    at: usize,
}

impl Model for SureSource {
    ghost use Rattle.std.specs.Prelude.{List, ℕ, drop, length, ◌≤◌};

    ghost Value = { List ℕ };

    ghost view = { λ s. drop s.at s.bytes.items };

    ghost invariant = { λ s. s.at ≤ length s.bytes.items };
}

impl SureSource {
    /// A source of these bytes.
    pub fn new(alloc: Global, bytes: &[u8]) -> Result<SureSource, NoMemory>
        ensures { IfOk result (λ s. s ≡ bytes.now) }
    {
        Ok(SureSource {
            bytes: bytes.to_vec(alloc)?,
            at: 0,
        })
    }
}

impl Source for SureSource {
    ghost left = { λ s. Some s };

    ghost faults = { λ _. 0 };

    ghost calls = { λ _. None };

    fn take(&mut self, buf: &mut [u8]) -> Result<usize, Failed> {
        let most = buf.len().min(self.bytes.len() - self.at);
        buf[..most].copy_from_slice(&self.bytes[self.at..self.at + most]);
        self.at += most;
        Ok(most)
    }
}

impl MemSource {
    // The bound on the next call's piece, if there is one.
    fn bound(&self) -> Option<u32>
        ensures exact { result ≡ piece_bound self.now.pieces self.now.calls }
        ensures positive { IfSome result (λ n. 1 ≤ n) }
    {
        let last = self.pieces.len().checked_sub(1)?;
        match usize::try_from(self.calls) {
            Ok(call) => self.pieces.get(call.min(last)).copied(),
            Err(_) => self.pieces.get(last).copied(),
        }
    }

    // How many bytes the next call gives to a buffer of this size.
    fn portion(&self, room: usize) -> usize
        requires { 0 < room }
        ensures exact { result ≡ portion self.now room }
        ensures fits { (result ≤ room) × (result ≤ length self.now.left) }
        ensures none { (result ≡ 0) ↔ (length self.now.left ≡ 0) }
    {
        let bound = match self.bound() {
            Some(size) => size as usize,
            None => room,
        };
        bound.min(room).min(self.bytes.len() - self.at)
    }
}

impl Source for MemSource {
    ghost left = { λ s. Some s.left };

    ghost faults = { λ s. s.faults };

    ghost calls = { λ s. Some s.calls };

    fn take(&mut self, buf: &mut [u8]) -> Result<usize, Failed>
        requires { 0 < length buf.old }
        ensures never_falls { self.old.faults ≤ self.new.faults }
        ensures counted { Counted (Some self.old.calls) (Some self.new.calls) }
        ensures within { IfOk result (λ n. n ≤ length buf.old) }
        ensures moved { IfOk result
            (λ n. Moved (Some self.old.left) (Some self.new.left) n buf.new) }
        ensures rose { OnErr result (Rose self.old.faults self.new.faults) }
        ensures kept { OnErr result (Some self.new.left ≡ Some self.old.left) }
        ensures fails { IsErr result ↔ Contains self.old.fails self.old.calls }
        ensures ok { IfOk result
            (λ n. (n ≡ portion self.old (length buf.old)) × (self.new ≡ supplied self.old n)) }
        ensures err { OnErr result (self.new ≡ missed self.old) }
    {
        let most = self.portion(buf.len());
        let fails = self.fails.contains(&self.calls);
        self.calls = self.calls.saturating_add(1);
        if fails {
            self.faults = self.faults.saturating_add(1);
            return Err(Failed);
        }
        buf[..most].copy_from_slice(&self.bytes[self.at..self.at + most]);
        self.at += most;
        Ok(most)
    }
}
