//! Reading from a source, to its end or up to a number of bytes.
ghost use Rattle.std.specs.Prelude.{◌≡◌, ◌≢◌, ℕ, ◌+◌, ◌≤◌, ◌↔◌, List, length, vec_len, Err, IfOk, OnErr, OnOk, MatchResult, Option};
ghost use Rattle.std.specs.Io.KnownBytes.{Consumes, IsAtEnd, ReadConsumes};
ghost use Rattle.oriedita_io.specs.Faults.{Rose};
ghost use Rattle.oriedita_io.specs.Told.{ReadsUpTo};

use super::{Failed, OpenFault};
use std::alloc::{AllocError, Global};

/// The most bytes that [`read_all`] may be asked for: 4 MiB, the longest script.
pub const LONGEST_INPUT: usize = 4_194_304;

/// The bytes that one read of [`read_all`] asks for at most.
const CHUNK: usize = 4096;

/// Where bytes come from.
pub trait Source {
    // The faults so far. The count rises at a fault alone, and stands still at the last `u64`.
    ghost faults: { Self → ℕ };

    // The bytes still to come, where the source tells them.
    ghost left: { Self → Option (List ℕ) };

    /// Reads bytes into the front of `into`, and answers how many. It reads none of them only into an
    /// empty slice or at the end.
    fn read(&mut self, into: &mut [u8]) -> Result<usize, Failed>
        ensures bound { IfOk result (λ n. n ≤ length into.new) }
        ensures bytes { ReadConsumes (left self.old) (left self.new) result into.new }
        ensures faults_stay { OnOk result (faults self.new ≡ faults self.old) }
        ensures faults_rise { faults self.old ≤ faults self.new }
        ensures cause { OnErr result (Rose (faults self.old) (faults self.new)) };
}

/// Why [`read_all`] stopped.
#[derive(Clone, Copy, Debug, PartialEq, Eq)]
pub enum InputEnd {
    /// The source had no more bytes.
    Ended,
    /// A read failed.
    Failed,
    /// More bytes came than were asked for.
    More,
}

/// What was read from a source, and why the reading stopped.
#[derive(Debug, Drop)]
pub struct Input {
    pub bytes: Vec<u8>,
    pub end: InputEnd,
}

/// Reads `source` to its end, or until more than `most` bytes came or a read failed. Each turn reads a byte
/// or more, and never more than `most` + 1 in all. It fails only where there is no memory for the bytes.
pub fn read_all<S: Source>(alloc: Global, source: &mut S, most: usize) -> Result<Input, AllocError>
    requires { most ≤ LONGEST_INPUT }

    // The source lost exactly the bytes that are answered; without memory those that came are lost.
    ensures bytes { IfOk result (λ input.
        Consumes (S.left source.old) (S.left source.new) input.bytes.items) }
    ensures lost { OnErr result ((bytes : List ℕ) × (length bytes ≤ most + 1)
        × Consumes (S.left source.old) (S.left source.new) bytes) }

    // More is answered exactly where more than `most` bytes came, and then for the first `most` + 1.
    ensures size { IfOk result (λ input. vec_len input.bytes ≤ most + 1) }
    ensures more { IfOk result (λ input.
        (input.end ≡ InputEnd.More) ↔ (vec_len input.bytes ≡ most + 1)) }

    // Ended is answered only at the end, and Failed only at a fault.
    ensures ended { IfOk result (λ input. input.end ≡ InputEnd.Ended → IsAtEnd (S.left source.new)) }
    ensures cause { IfOk result (λ input.
        input.end ≡ InputEnd.Failed → Rose (S.faults source.old) (S.faults source.new)) }
    ensures faults_stay { MatchResult result
        (λ input. input.end ≢ InputEnd.Failed → S.faults source.new ≡ S.faults source.old)
        (λ _. S.faults source.new ≡ S.faults source.old) }
    ensures faults_rise { S.faults source.old ≤ S.faults source.new }
{
    let mut bytes = Vec::new(alloc);
    let mut chunk = [0u8; CHUNK];
    while bytes.len() <= most {
        let wanted = CHUNK.min(most + 1 - bytes.len());
        match source.read(&mut chunk[..wanted]) {
            Ok(0) => {
                return Ok(Input {
                    bytes,
                    end: InputEnd::Ended,
                });
            }
            Ok(count) => bytes.extend_from_slice(&chunk[..count])?,
            Err(Failed) => {
                return Ok(Input {
                    bytes,
                    end: InputEnd::Failed,
                });
            }
        }
    }
    Ok(Input {
        bytes,
        end: InputEnd::More,
    })
}

/// Reads `source` to its end, or its first `most` bytes where more come: so a source that breaks before is
/// never taken for a short one.
pub(crate) fn read_front<S: Source>(
    alloc: Global,
    source: &mut S,
    most: usize,
) -> Result<Vec<u8>, OpenFault>
    requires { most ≤ LONGEST_INPUT + 1 }
    ensures bytes { IfOk result (λ bytes. ReadsUpTo (S.left source.old) most bytes.items) }
    ensures size { IfOk result (λ bytes. vec_len bytes ≤ most) }
    ensures cause { result ≡ Err OpenFault.Failed → Rose (S.faults source.old) (S.faults source.new) }
    ensures faults_stay { result ≢ Err OpenFault.Failed → S.faults source.new ≡ S.faults source.old }
{
    let Input { mut bytes, end } = read_all(alloc, source, most.saturating_sub(1))?;
    if end == InputEnd::Failed {
        return Err(OpenFault::Failed);
    }
    bytes.truncate(most);
    Ok(bytes)
}
