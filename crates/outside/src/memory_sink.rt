//! A sink in memory.

ghost use Rattle.std.specs.Prelude.{◌≡◌, ◌<◌, ◌≤◌, ◌+◌, ◌-◌, ◌↔◌, ◌⊎◌, [], length, take, min, IfOk, OnErr, IsErr, Contains};
ghost use Rattle.outside.specs.Bytes.{Rose, Gains, StillStands};
ghost use Rattle.outside.specs.Memory.{filled, refused};

use crate::sink::Sink;
use crate::source::Failed;
use quartz_tree::NoMemory;
use std::alloc::Global;
use std::marker::Model;

/// A sink in memory with room for a number of bytes, of which some calls fail. It stands for the
/// one list of the bytes that it holds.
#[derive(Debug, Drop)]
pub struct MemSink {
    bytes: Vec<u8>,
    room: usize,
    fails: Vec<u64>,
    calls: u64,
    faults: u64,
}

impl Model for MemSink {
    ghost use Rattle.std.specs.Prelude.{length, vec_capacity, ◌≤◌};
    ghost use Rattle.outside.specs.Memory.{Cellar};

    ghost Value = { Cellar };

    ghost view = { λ s. record { bytes = s.bytes.items; room = s.room; fails = s.fails.items; calls = s.calls; faults = s.faults } };

    ghost invariant = { λ s. (length s.bytes.items ≤ s.room) × (s.room ≤ vec_capacity s.bytes) };
}

impl MemSink {
    /// An empty sink. Call j of `put`, counted from 0, fails exactly where j is in `fails` or the
    /// sink already holds `room` bytes. The room's memory is taken here.
    pub fn new(alloc: Global, room: u64, fails: &[u64]) -> Result<MemSink, NoMemory>
        ensures { IfOk result
            (λ s. s ≡ record {
              bytes = [];
              room = room;
              fails = fails.now;
              calls = 0;
              faults = 0;
            }) }
    {
        let room = room as usize;
        Ok(MemSink {
            bytes: Vec::with_capacity(alloc, room)?,
            room,
            fails: fails.to_vec(alloc)?,
            calls: 0,
            faults: 0,
        })
    }

    /// The bytes that the sink holds.
    pub fn bytes(&self) -> &[u8]
        ensures { result.now ≡ self.now.bytes }
    {
        &self.bytes
    }
}

impl Sink for MemSink {
    ghost stands = { λ s bs. bs ≡ s.bytes };

    ghost faults = { λ s. s.faults };

    fn put(&mut self, piece: &[u8]) -> Result<usize, Failed>
        requires { 0 < length piece.now }
        ensures never_falls { self.old.faults ≤ self.new.faults }
        ensures within { IfOk result (λ n. (0 < n) × (n ≤ length piece.now)) }
        ensures gained { IfOk result
            (λ n. Gains (λ bs. bs ≡ self.old.bytes) (λ bs. bs ≡ self.new.bytes)
            (take n piece.now)) }
        ensures rose { OnErr result (Rose self.old.faults self.new.faults) }
        ensures kept { OnErr result
            (StillStands (λ bs. bs ≡ self.old.bytes) (λ bs. bs ≡ self.new.bytes)) }
        ensures fails { IsErr result
            ↔ (Contains self.old.fails self.old.calls ⊎ (self.old.room ≤ length self.old.bytes)) }
        ensures ok { IfOk result
            (λ n. (n ≡ min (length piece.now) (self.old.room - length self.old.bytes))
            × (self.new ≡ filled self.old (take n piece.now))) }
        ensures err { OnErr result (self.new ≡ refused self.old) }
    {
        let fails = self.fails.contains(&self.calls);
        self.calls = self.calls.saturating_add(1);
        let most = piece.len().min(self.room - self.bytes.len());
        if fails || most == 0 {
            self.faults = self.faults.saturating_add(1);
            return Err(Failed);
        }
        self.bytes.extend_from_slice(&piece[..most]).unwrap();
        Ok(most)
    }
}
