//! Files of the system as an opener. It tells nothing of them. A call that a signal interrupts is made again.
ghost use Rattle.std.specs.Prelude.{◌≡◌, ◌+◌, ◌≤◌, IfOk, vec_len};
ghost use Rattle.oriedita_io.specs.Faults.{Rose};

use super::reading::read_front;
use super::standard::{TRIES, is_interrupted};
use super::{LONGEST_INPUT, OpenFault, Opener, StdinSource};
use std::alloc::Global;
use std::marker::Model;
use std::rt::Files;
use std::{fs, io};

fn open_retrying<F: Files>(files: &F, path: &str) -> io::Result<F::File> {
    for _ in 1..TRIES {
        let opened = fs::open(files, path);
        if !is_interrupted(&opened) {
            return opened;
        }
    }
    fs::open(files, path)
}

// The file at a path, whole, or its first `most` bytes where it has more.
fn read_file<F: Files>(
    alloc: Global,
    files: &F,
    path: &str,
    most: usize,
) -> Result<Vec<u8>, OpenFault>
    requires { most ≤ LONGEST_INPUT + 1 }
    ensures { IfOk result (λ bytes. vec_len bytes ≤ most) }
{
    let file = open_retrying(files, path)?;
    read_front(alloc, &mut StdinSource::new(file), most)
}

/// The files that a runtime opens, as `&rt`. An error of opening or reading one is a fault, an interruption
/// only where a hundred thousand tries of one call were interrupted. A directory can't be read.
#[derive(Drop)]
pub struct FileOpener<F> {
    files: F,
    faults: u64,
}

// Clauses see the runtime and the faults so far.
impl<F> Model for FileOpener<F> {
    ghost use Rattle.oriedita_io.specs.Standard.{WithFaults};

    ghost Value = { WithFaults F };

    ghost view = { λ s. record { io = s.files; faults = s.faults } };
}

impl<F: Files> FileOpener<F> {
    /// The opener of what `files` opens, with no fault so far.
    pub fn new(files: F) -> FileOpener<F>
        ensures { result ≡ record { io = files; faults = 0 } }
    {
        FileOpener { files, faults: 0 }
    }

    // A fault is counted.
    fn fail(&mut self) -> OpenFault
        ensures fault { result ≡ OpenFault.Failed }
        ensures rose { Rose self.old.faults self.new.faults }
        ensures faults_rise { self.old.faults ≤ self.new.faults }
    {
        self.faults = self.faults.saturating_add(1);
        OpenFault::Failed
    }
}

impl<F: Files> Opener for FileOpener<F> {
    ghost use Rattle.std.specs.Prelude.{None};

    ghost faults = { λ s. s.faults };

    ghost file = { λ _ _. None };

    fn read_up_to(&mut self, alloc: Global, path: &str, most: usize) -> Result<Vec<u8>, OpenFault> {
        match read_file(alloc, &self.files, path, most) {
            Err(OpenFault::Failed) => Err(self.fail()),
            read => read,
        }
    }
}
