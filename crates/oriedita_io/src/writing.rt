//! Writing to a sink.
ghost use Rattle.std.specs.Prelude.{◌≡◌, ℕ, ◌<◌, ◌≤◌, List, length, Bool, true, IsOk, IfOk, OnOk, OnErr, MatchResult, Option};
ghost use Rattle.std.specs.Io.KnownBytes.{Appends, Keeps, WriteAppends};
ghost use Rattle.oriedita_io.specs.Faults.{Rose};
ghost use Rattle.oriedita_io.specs.Told.{FinishedAfter, Tells, WritesPart};

use super::Failed;

/// Where bytes go.
pub trait Sink {
    // The faults so far. The count rises at a fault alone, and stands still at the last `u64`.
    ghost faults: { Self → ℕ };

    // The bytes taken so far, where the sink tells them.
    ghost taken: { Self → Option (List ℕ) };

    // Whether a `finish` went well and no byte was taken since, where the sink tells it.
    ghost finished: { Self → Option Bool };

    /// Takes the front of `bytes`, at least one byte where there is one, and answers how many. Where it
    /// fails it took none.
    fn write(&mut self, bytes: &[u8]) -> Result<usize, Failed>
        ensures bound { IfOk result (λ n. n ≤ length bytes.now) }
        ensures some { IfOk result (λ n. 0 < length bytes.now → 0 < n) }
        ensures bytes { WriteAppends (taken self.old) (taken self.new) result bytes.now }
        ensures finished { MatchResult result
            (λ n. FinishedAfter (finished self.old) (finished self.new) n)
            (λ _. finished self.new ≡ finished self.old) }
        ensures faults_stay { OnOk result (faults self.new ≡ faults self.old) }
        ensures faults_rise { faults self.old ≤ faults self.new }
        ensures cause { OnErr result (Rose (faults self.old) (faults self.new)) };

    /// Passes on all that was taken. It is called once, after the last byte.
    fn finish(&mut self) -> Result<(), Failed>
        ensures bytes { Keeps (taken self.old) (taken self.new) }
        ensures ok { OnOk result (Tells (finished self.new) true) }
        ensures err { OnErr result (finished self.new ≡ finished self.old) }
        ensures faults_stay { OnOk result (faults self.new ≡ faults self.old) }
        ensures faults_rise { faults self.old ≤ faults self.new }
        ensures cause { OnErr result (Rose (faults self.old) (faults self.new)) };
}

/// Writes all of `bytes`, or only some of them where a write fails. It writes nothing at all where there
/// are none.
pub fn write_all<K: Sink>(sink: &mut K, bytes: &[u8]) -> Result<(), Failed>
    ensures ok { OnOk result (Appends (K.taken sink.old) (K.taken sink.new) bytes.now) }
    ensures err { OnErr result (WritesPart (K.taken sink.old) (K.taken sink.new)
        (K.finished sink.old) (K.finished sink.new) bytes.now) }
    ensures finished { OnOk result
        (FinishedAfter (K.finished sink.old) (K.finished sink.new) (length bytes.now)) }
    ensures faults_stay { OnOk result (K.faults sink.new ≡ K.faults sink.old) }
    ensures faults_rise { K.faults sink.old ≤ K.faults sink.new }
    ensures cause { OnErr result (Rose (K.faults sink.old) (K.faults sink.new)) }
    ensures nothing { length bytes.now ≡ 0 → IsOk result × (sink.new ≡ sink.old) }
{
    let mut written = 0;
    while written < bytes.len() {
        written += sink.write(&bytes[written..])?;
    }
    Ok(())
}
