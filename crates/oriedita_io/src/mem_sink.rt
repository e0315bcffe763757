//! A sink in memory, which takes as little at a time and fails as often as it is made to.
ghost use Rattle.std.specs.Prelude.{◌≡◌, ◌-◌, ◌<◌, ◌≤◌, ◌↔◌, ◌⊎◌, ◌==◌, ◌++◌, [], Some, true, false, length, min, take, Contains, IsErr, IsOk, IfOk, OnOk, OnErr, MatchResult, if◌then◌else◌};
ghost use Rattle.std.specs.Io.KnownBytes.{Keeps, WriteAppends};
ghost use Rattle.oriedita_io.specs.Faults.{Rose, one_more};
ghost use Rattle.oriedita_io.specs.Told.{FinishedAfter, Tells};

use super::{Failed, Sink};
use std::alloc::{AllocError, Global};
use std::marker::Model;

/// A sink that holds what it took. A write to it fails where its number is listed or no room is left, and a
/// finish only where its number is listed.
#[derive(Debug, Drop)]
pub struct MemSink {
    taken: Vec<u8>,
    finished: bool,
    room: usize,
    most: usize,
    failing: Vec<u64>,
    calls: u64,
    faults: u64,
}

impl Model for MemSink {
    ghost use Rattle.std.specs.Prelude.{◌≤◌, vec_len};
    ghost use Rattle.std.specs.Vec.{vec_capacity};
    ghost use Rattle.oriedita_io.specs.InMemory.{SinkState};

    ghost Value = { SinkState };

    ghost view = { λ s. record {
      taken = s.taken.items;
      finished = s.finished;
      room = s.room;
      most = s.most;
      failing = s.failing.items;
      calls = s.calls;
      faults = s.faults;
    } };

    ghost invariant = { λ s. record {
      within : vec_len s.taken ≤ s.room;
      reserved : s.room ≤ vec_capacity s.taken;
      takes : 1 ≤ s.most;
    } };
}

impl MemSink {
    /// A sink that takes `room` bytes in all, and at most `most` of them at a write. The calls of `write` and
    /// `finish` whose numbers are in `failing` fail, counted together from 1. Its room is taken now, so that
    /// no later call wants memory.
    pub fn new(
        alloc: Global,
        most: usize,
        room: usize,
        failing: Vec<u64>,
    ) -> Result<MemSink, AllocError>
        requires { 1 ≤ most }
        ensures { IfOk result (λ sink. sink ≡ record {
          taken = [];
          finished = false;
          room = room;
          most = most;
          failing = failing.items;
          calls = 0;
          faults = 0;
        }) }
    {
        Ok(MemSink {
            taken: Vec::with_capacity(alloc, room)?,
            finished: false,
            room,
            most,
            failing,
            calls: 0,
            faults: 0,
        })
    }

    /// The bytes taken so far.
    pub fn bytes(&self) -> &[u8]
        ensures { result.now ≡ self.now.taken }
    {
        self.taken.as_slice()
    }

    /// Whether a `finish` went well and no byte was taken since.
    pub fn finished(&self) -> bool
        ensures { result ≡ self.now.finished }
    {
        self.finished
    }
}

impl Sink for MemSink {
    ghost faults = { λ s. s.faults };

    ghost taken = { λ s. Some s.taken };

    ghost finished = { λ s. Some s.finished };

    fn write(&mut self, bytes: &[u8]) -> Result<usize, Failed>
        ensures bound { IfOk result (λ n. n ≤ length bytes.now) }
        ensures some { IfOk result (λ n. 0 < length bytes.now → 0 < n) }
        ensures bytes { WriteAppends (Some self.old.taken) (Some self.new.taken) result bytes.now }
        ensures finished { MatchResult result
            (λ n. FinishedAfter (Some self.old.finished) (Some self.new.finished) n)
            (λ _. Some self.new.finished ≡ Some self.old.finished) }
        ensures faults_stay { OnOk result (self.new.faults ≡ self.old.faults) }
        ensures faults_rise { self.old.faults ≤ self.new.faults }
        ensures cause { OnErr result (Rose self.old.faults self.new.faults) }

        // A write fails exactly where its number is listed, or where there is a byte and no room.
        ensures listed { IsErr result ↔ (Contains self.old.failing (one_more self.old.calls)
            ⊎ ((0 < length bytes.now) × (length self.old.taken ≡ self.old.room))) }

        // It takes as many bytes as it can.
        ensures count { IfOk result (λ n. n ≡ min self.old.most
            (min (length bytes.now) (self.old.room - length self.old.taken))) }
        ensures after { MatchResult result
            (λ n. self.new ≡ record self.old {
              taken = self.old.taken ++ take n bytes.now;
              finished = (if n == 0 then self.old.finished else false);
              calls = one_more self.old.calls;
            })
            (λ _. self.new ≡ record self.old {
              calls = one_more self.old.calls;
              faults = one_more self.old.faults;
            }) }
    {
        self.calls = self.calls.saturating_add(1);
        let room = self.room - self.taken.len();
        if self.failing.contains(&self.calls) || (room == 0 && !bytes.is_empty()) {
            self.faults = self.faults.saturating_add(1);
            return Err(Failed);
        }
        let count = self.most.min(bytes.len()).min(room);
        // The room was taken when the sink was made.
        self.taken.extend_from_slice(&bytes[..count]).unwrap();
        self.finished = self.finished && count == 0;
        Ok(count)
    }

    fn finish(&mut self) -> Result<(), Failed>
        ensures bytes { Keeps (Some self.old.taken) (Some self.new.taken) }
        ensures ok { OnOk result (Tells (Some self.new.finished) true) }
        ensures err { OnErr result (Some self.new.finished ≡ Some self.old.finished) }
        ensures faults_stay { OnOk result (self.new.faults ≡ self.old.faults) }
        ensures faults_rise { self.old.faults ≤ self.new.faults }
        ensures cause { OnErr result (Rose self.old.faults self.new.faults) }

        // A finish fails exactly where its number is listed.
        ensures listed { IsErr result ↔ Contains self.old.failing (one_more self.old.calls) }
        ensures none_listed { self.old.failing ≡ [] → IsOk result }
        ensures after { MatchResult result
            (λ _. self.new ≡ record self.old { finished = true; calls = one_more self.old.calls })
            (λ _. self.new ≡ record self.old {
              calls = one_more self.old.calls;
              faults = one_more self.old.faults;
            }) }
    {
        self.calls = self.calls.saturating_add(1);
        if self.failing.contains(&self.calls) {
            self.faults = self.faults.saturating_add(1);
            return Err(Failed);
        }
        self.finished = true;
        Ok(())
    }
}
