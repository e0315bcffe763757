//! A system whose opens and reads fail as a test says.

use oriedita_io::{FileOpener, OpenFault, Opener};
use std::alloc::Allocator;
use std::cell::Cell;
use std::fs::{Metadata, OpenFile, OpenOptions};
use std::io;
use std::io::{ErrorKind, Read, Seek, SeekFrom, Write};
use std::rt::Files;
use std::test::Fail;

fn unsupported() -> io::Error {
    io::Error::from(ErrorKind::Unsupported)
}

// A file that gives `left` bytes, one a read, and then breaks or ends.
#[derive(Drop)]
struct Bytes {
    left: usize,
    breaks: bool,
}

impl Read for Bytes {
    fn read(&mut self, buf: &mut [u8]) -> io::Result<usize> {
        if self.left == 0 && self.breaks {
            return Err(io::Error::from(ErrorKind::Other));
        }
        let count = buf.len().min(self.left).min(1);
        self.left = self.left.saturating_sub(count);
        Ok(count)
    }
}

impl Write for Bytes {
    fn write(&mut self, _buf: &[u8]) -> io::Result<usize> {
        Err(unsupported())
    }

    fn flush(&mut self) -> io::Result<()> {
        Err(unsupported())
    }
}

impl Seek for Bytes {
    fn seek(&mut self, _to: SeekFrom) -> io::Result<u64> {
        Err(unsupported())
    }
}

impl OpenFile for Bytes {
    fn metadata(&self) -> io::Result<Metadata> {
        Err(unsupported())
    }

    fn set_len(&self, _size: u64) -> io::Result<()> {
        Err(unsupported())
    }

    fn sync_all(&self) -> io::Result<()> {
        Err(unsupported())
    }

    fn sync_data(&self) -> io::Result<()> {
        Err(unsupported())
    }
}

// The first opens, so many, fail with this kind of fault. Each file has three bytes.
#[derive(Drop)]
struct System {
    kind: ErrorKind,
    faults: u32,
    breaks: bool,
    opens: Cell<u32>,
}

impl Files for System {
    type File = Bytes;

    type Dir = Bytes;

    fn open_file(&self, _how: &OpenOptions, _path: &str) -> io::Result<Bytes> {
        let before = self.opens.get();
        self.opens.set(before.saturating_add(1));
        if before < self.faults {
            return Err(io::Error::from(self.kind));
        }
        Ok(Bytes {
            left: 3,
            breaks: self.breaks,
        })
    }

    fn open_dir(&self, _path: &str) -> io::Result<Bytes> {
        Err(unsupported())
    }

    fn metadata(&self, _path: &str) -> io::Result<Metadata> {
        Err(unsupported())
    }

    fn symlink_metadata(&self, _path: &str) -> io::Result<Metadata> {
        Err(unsupported())
    }

    fn copy(&self, _from: &str, _to: &str) -> io::Result<u64> {
        Err(unsupported())
    }

    fn rename(&self, _from: &str, _to: &str) -> io::Result<()> {
        Err(unsupported())
    }

    fn remove_file(&self, _path: &str) -> io::Result<()> {
        Err(unsupported())
    }

    fn create_dir(&self, _path: &str) -> io::Result<()> {
        Err(unsupported())
    }

    fn remove_dir(&self, _path: &str) -> io::Result<()> {
        Err(unsupported())
    }

    fn remove_dir_all<B: Allocator>(&self, _alloc: B, _path: &str) -> io::Result<()> {
        Err(unsupported())
    }
}

// The kind of fault of the first opens, how many fail, whether the file breaks, and how many bytes are asked for; then
// how many are read, and how often the file is opened.
type Opening = (ErrorKind, u32, bool, usize, Result<usize, OpenFault>, u32);

const OPENINGS: [Opening; 10] = [
    (ErrorKind::Other, 0, false, 9, Ok(3), 1),
    (ErrorKind::NotFound, 1, false, 9, Err(OpenFault::Failed), 1),
    (
        ErrorKind::PermissionDenied,
        1,
        false,
        9,
        Err(OpenFault::Failed),
        1,
    ),
    (
        ErrorKind::WouldBlock,
        1,
        false,
        9,
        Err(OpenFault::Failed),
        1,
    ),
    (
        ErrorKind::OutOfMemory,
        1,
        false,
        9,
        Err(OpenFault::Memory),
        1,
    ),
    (ErrorKind::Interrupted, 1, false, 9, Ok(3), 2),
    (
        ErrorKind::Interrupted,
        u32::MAX,
        false,
        9,
        Err(OpenFault::Failed),
        100_000,
    ),
    (ErrorKind::Other, 0, true, 3, Ok(3), 1),
    (ErrorKind::Other, 0, true, 4, Err(OpenFault::Failed), 1),
    (ErrorKind::Other, 0, true, 9, Err(OpenFault::Failed), 1),
];

// A file that breaks in the middle is no short one, and only an interrupted open is made again.
#[test]
fn opens_a_file_once_or_till_it_is_not_interrupted(rt: HostRuntime) -> Result<(), Fail> {
    for (kind, faults, breaks, most, count, opens) in OPENINGS {
        assert!(rt; most <= 9);
        let system = System {
            kind,
            faults,
            breaks,
            opens: Cell::new(0),
        };
        let mut opener = FileOpener::new(&system);
        let read = opener.read_up_to(rt.alloc(), "a.cp", most);
        assert_eq!(rt;
            read.as_ref()
                .map(|bytes: &Vec<u8>| bytes.len())
                .map_err(|fault: &OpenFault| *fault),
            count,
            "{kind}"
        );
        assert_eq!(rt; system.opens.get(), opens, "{kind}");
    }
    Ok(())
}
