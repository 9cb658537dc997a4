ghost use Rattle.std.specs.Prelude.{◌≡◌, ℕ, ◌-◌, ◌<◌, ◌≤◌, ◌↔◌, ◌⊎◌, [], length, min, Contains, IfOk, OnErr, IsErr, vec_capacity};
ghost use Rattle.std.specs.declared.option.Option.TheVariants.{Some};
ghost use Rattle.std.specs.Io.{WritesAtMost};
ghost use Rattle.std.specs.Io.KnownBytes.{WriteAppends};
ghost use Rattle.spec_outside.specs.Causes.{HasCause};
ghost use Rattle.spec_outside.specs.Ends.{FailingSink, next_count};

use crate::fault::{Failed, NoMemory, counted_fault};
use crate::sink::Sink;
use std::alloc::{AllocError, Global};
use std::marker::Model;

/// A sink in memory with room for so many bytes that takes a few bytes at a time, and fails at the
/// calls that it was told and where it is full. It tells the bytes that it holds. Calls are numbered
/// from 1, and those from number 2^64 - 1 on all have that number. For tests.
#[derive(Drop)]
pub struct FailSink {
    bytes: Vec<u8>,
    room: usize,
    most: usize,
    fail_at: Vec<u64>,
    calls: u64,
    faults: u64,
}

impl Model for FailSink {
    ghost Value = { FailingSink };

    ghost view = { λ s. record {
      held = s.bytes.items;
      room = s.room;
      most = s.most;
      fail_at = s.fail_at.items;
      calls = s.calls;
      faults = s.faults;
    } };

    ghost invariant = { λ s. (length s.bytes.items ≤ s.room) × (s.room ≤ vec_capacity s.bytes) × (0 < s.most) };
}

impl FailSink {
    /// An empty sink with room for `room` bytes, which are taken from memory now. It takes at most
    /// `most` bytes in each call, and fails at each call whose number stands in `fail_at`.
    ///
    /// # Errors
    ///
    /// Want of memory.
    pub fn new(
        alloc: Global,
        room: usize,
        most: usize,
        fail_at: Vec<u64>,
    ) -> Result<FailSink, NoMemory>
        requires { 0 < most }
        ensures { IfOk result (λ s. s ≡ record { held = []; room = room; most = most; fail_at = fail_at.items; calls = 0; faults = 0 }) }
    {
        let bytes = Vec::with_capacity(alloc, room)?;
        Ok(FailSink {
            bytes,
            room,
            most,
            fail_at,
            calls: 0,
            faults: 0,
        })
    }

    /// The bytes that it holds.
    pub fn held(&self) -> &[u8]
        ensures { result.now ≡ self.now.held }
    {
        self.bytes.as_slice()
    }
}

impl Sink for FailSink {
    ghost held = { λ s. Some s.held };

    ghost faults = { λ s. s.faults };

    fn put(&mut self, piece: &[u8]) -> Result<usize, Failed>
        ensures bound { WritesAtMost result piece.now }
        ensures bytes { WriteAppends (Some self.old.held) (Some self.new.held) result piece.now }
        ensures progress { IfOk result (λ n. n ≡ 0 → piece.now ≡ []) }
        ensures cause { HasCause self.old.faults self.new.faults result }
        // It fails exactly at the calls that it was told, and where it is full.
        ensures fails { IsErr result ↔ (Contains self.old.fail_at (next_count self.old.calls)
            ⊎ ((0 < length piece.now) × (self.old.room ≤ length self.old.held))) }
        ensures rises { OnErr result (self.new.faults ≡ next_count self.old.faults) }
        ensures calls { self.new.calls ≡ next_count self.old.calls }
        ensures told { (self.new.most ≡ self.old.most) × (self.new.fail_at ≡ self.old.fail_at) × (self.new.room ≡ self.old.room) }
        // As much as the room leaves and a call may take.
        ensures takes { IfOk result (λ n. n ≡ min (min (length piece.now) self.old.most) (self.old.room - length self.old.held)) }
    {
        self.calls = self.calls.saturating_add(1);
        if self.fail_at.contains(&self.calls) {
            return Err(counted_fault(&mut self.faults));
        }
        let count = piece.len().min(self.most).min(self.room - self.bytes.len());
        if count == 0 && !piece.is_empty() {
            return Err(counted_fault(&mut self.faults));
        }
        match self.bytes.extend_from_slice(&piece[..count]) {
            Ok(()) => Ok(count),
            Err(AllocError) => unreachable!(),
        }
    }
}
