//! Reading files by their paths.
ghost use Rattle.std.specs.Prelude.{◌≡◌, ◌≢◌, ℕ, ◌+◌, ◌≤◌, List, vec_len, IfOk, Option};
ghost use Rattle.oriedita_io.specs.Faults.{Rose};
ghost use Rattle.oriedita_io.specs.Told.{ReadsUpTo};

use super::{LONGEST_INPUT, OpenFault};
use std::alloc::Global;

/// Where files come from.
pub trait Opener {
    // The faults so far. The count rises at a fault alone, and stands still at the last `u64`.
    ghost faults: { Self → ℕ };

    // The bytes of the file at a path, where the opener tells them.
    ghost file: { Self → List ℕ → Option (List ℕ) };

    /// The whole file at `path`, or its first `most` bytes where it has more. No file is changed by it.
    fn read_up_to(&mut self, alloc: Global, path: &str, most: usize) -> Result<Vec<u8>, OpenFault>
        requires { most ≤ LONGEST_INPUT + 1 }
        ensures bytes { IfOk result (λ bytes. ReadsUpTo (file self.old path.now) most bytes.items) }
        ensures size { IfOk result (λ bytes. vec_len bytes ≤ most) }
        ensures files { file self.new ≡ file self.old }
        ensures faults_stay { result ≢ Err OpenFault.Failed → faults self.new ≡ faults self.old }
        ensures faults_rise { faults self.old ≤ faults self.new }
        ensures cause { result ≡ Err OpenFault.Failed → Rose (faults self.old) (faults self.new) };
}
