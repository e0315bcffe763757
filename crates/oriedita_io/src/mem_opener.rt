//! Files in memory, of which a read fails as often as it is made to.
ghost use Rattle.std.specs.Prelude.{◌≡◌, ◌+◌, ◌≤◌, ◌↔◌, ◌⊎◌, None, vec_len, option_map, Contains, IfOk, ◌≢◌};
ghost use Rattle.oriedita_io.specs.Faults.{Rose, one_more};
ghost use Rattle.oriedita_io.specs.Files.{file_at};
ghost use Rattle.oriedita_io.specs.Told.{ReadsUpTo};

use super::{LONGEST_INPUT, OpenFault, Opener};
use std::alloc::Global;
use std::marker::Model;

/// A file in memory.
#[derive(Debug, Drop)]
pub struct MemFile {
    pub path: String,
    pub bytes: Vec<u8>,
}

/// An opener that holds its files. A read fails only where its number is listed, or where no file has the
/// path.
#[derive(Debug, Drop)]
pub struct MemOpener {
    files: Vec<MemFile>,
    failing: Vec<u64>,
    calls: u64,
    faults: u64,
}

impl Model for MemOpener {
    ghost use Rattle.oriedita_io.specs.Files.{OpenerState};

    ghost Value = { OpenerState };

    ghost view = { λ s. record {
      files = s.files.items;
      failing = s.failing.items;
      calls = s.calls;
      faults = s.faults;
    } };
}

// The bytes of the first file with this path.
fn find<'a>(files: &'a [MemFile], path: &str) -> Option<&'a [u8]>
    ensures { option_map (λ bytes. bytes.now) result ≡ file_at files.now path.now }
{
    for file in files {
        if file.path.as_str() == path {
            return Some(file.bytes.as_slice());
        }
    }
    None
}

impl MemOpener {
    /// An opener of `files`; where several have one path the first of them is the file. The reads whose
    /// numbers are in `failing` fail, counted from 1.
    pub fn new(files: Vec<MemFile>, failing: Vec<u64>) -> MemOpener
        ensures { result ≡ record {
          files = files.items;
          failing = failing.items;
          calls = 0;
          faults = 0;
        } }
    {
        MemOpener {
            files,
            failing,
            calls: 0,
            faults: 0,
        }
    }
}

impl Opener for MemOpener {
    ghost faults = { λ s. s.faults };

    ghost file = { λ s path. file_at s.files path };

    fn read_up_to(&mut self, alloc: Global, path: &str, most: usize) -> Result<Vec<u8>, OpenFault>
        requires { most ≤ LONGEST_INPUT + 1 }
        ensures bytes { IfOk result (λ bytes. ReadsUpTo (file_at self.old.files path.now) most bytes.items) }
        ensures size { IfOk result (λ bytes. vec_len bytes ≤ most) }
        ensures files { self.new.files ≡ self.old.files }
        ensures faults_stay { result ≢ Err OpenFault.Failed → self.new.faults ≡ self.old.faults }
        ensures faults_rise { self.old.faults ≤ self.new.faults }
        ensures cause { result ≡ Err OpenFault.Failed → Rose self.old.faults self.new.faults }

        // A read fails exactly where its number is listed or no file has the path.
        ensures listed { (result ≡ Err OpenFault.Failed)
            ↔ (Contains self.old.failing (one_more self.old.calls)
            ⊎ (file_at self.old.files path.now ≡ None)) }
        ensures failed { result ≡ Err OpenFault.Failed → self.new ≡ record self.old {
          calls = one_more self.old.calls;
          faults = one_more self.old.faults;
        } }
        ensures read { result ≢ Err OpenFault.Failed → self.new ≡ record self.old {
          calls = one_more self.old.calls;
        } }
    {
        self.calls = self.calls.saturating_add(1);
        if self.failing.contains(&self.calls) {
            self.faults = self.faults.saturating_add(1);
            return Err(OpenFault::Failed);
        }
        let Some(bytes) = find(self.files.as_slice(), path) else {
            self.faults = self.faults.saturating_add(1);
            return Err(OpenFault::Failed);
        };
        let count = most.min(bytes.len());
        let front = bytes[..count].to_vec(alloc)?;
        Ok(front)
    }
}
