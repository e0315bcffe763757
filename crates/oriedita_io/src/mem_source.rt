//! A source in memory, which gives as little at a time and fails as often as it is made to.
ghost use Rattle.std.specs.Prelude.{◌≡◌, ◌≤◌, ◌↔◌, [], Some, length, min, drop, Contains, IsErr, IsOk, IfOk, OnErr, OnOk, MatchResult};
ghost use Rattle.std.specs.Io.KnownBytes.{ReadConsumes};
ghost use Rattle.oriedita_io.specs.Faults.{Rose, one_more};

use super::{Failed, Source};
use std::marker::Model;

/// A source that holds its bytes. A read of it fails only where its number is listed.
#[derive(Debug, Drop)]
pub struct MemSource {
    bytes: Vec<u8>,
    given: usize,
    most: usize,
    failing: Vec<u64>,
    calls: u64,
    faults: u64,
}

impl Model for MemSource {
    ghost use Rattle.std.specs.Prelude.{◌≤◌, drop, vec_len};
    ghost use Rattle.oriedita_io.specs.InMemory.{SourceState};

    ghost Value = { SourceState };

    ghost view = { λ s. record {
      left = drop s.given s.bytes.items;
      most = s.most;
      failing = s.failing.items;
      calls = s.calls;
      faults = s.faults;
    } };

    ghost invariant = { λ s. (s.given ≤ vec_len s.bytes) × (1 ≤ s.most) };
}

impl MemSource {
    /// A source of `bytes`, of which a read gives at most `most`. The reads whose numbers are in `failing`
    /// fail, counted from 1.
    pub fn new(bytes: Vec<u8>, most: usize, failing: Vec<u64>) -> MemSource
        requires { 1 ≤ most }
        ensures { result ≡ record {
          left = bytes.items;
          most = most;
          failing = failing.items;
          calls = 0;
          faults = 0;
        } }
    {
        MemSource {
            bytes,
            given: 0,
            most,
            failing,
            calls: 0,
            faults: 0,
        }
    }
}

impl Source for MemSource {
    ghost faults = { λ s. s.faults };

    ghost left = { λ s. Some s.left };

    fn read(&mut self, into: &mut [u8]) -> Result<usize, Failed>
        ensures bound { IfOk result (λ n. n ≤ length into.new) }
        ensures bytes { ReadConsumes (Some self.old.left) (Some self.new.left) result into.new }
        ensures faults_stay { OnOk result (self.new.faults ≡ self.old.faults) }
        ensures faults_rise { self.old.faults ≤ self.new.faults }
        ensures cause { OnErr result (Rose self.old.faults self.new.faults) }

        // A read fails exactly where its number is listed.
        ensures listed { IsErr result ↔ Contains self.old.failing (one_more self.old.calls) }
        ensures none_listed { self.old.failing ≡ [] → IsOk result }

        // It gives as many bytes as it can.
        ensures count { IfOk result
            (λ n. n ≡ min self.old.most (min (length into.new) (length self.old.left))) }
        ensures after { MatchResult result
            (λ n. self.new ≡ record self.old {
              left = drop n self.old.left;
              calls = one_more self.old.calls;
            })
            (λ _. self.new ≡ record self.old {
              calls = one_more self.old.calls;
              faults = one_more self.old.faults;
            }) }
    {
        self.calls = self.calls.saturating_add(1);
        if self.failing.contains(&self.calls) {
            self.faults = self.faults.saturating_add(1);
            return Err(Failed);
        }
        let rest = &self.bytes[self.given..];
        let count = self.most.min(into.len()).min(rest.len());
        into[..count].copy_from_slice(&rest[..count]);
        self.given += count;
        Ok(count)
    }
}
