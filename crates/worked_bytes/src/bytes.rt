ghost use Rattle.std.specs.Prelude.{◌≤◌};

use oriedita_io::{
    Failed, FileOpener, InputEnd, MemFile, MemOpener, MemSink, MemSource, OpenFault, Opener, Sink,
    StdinSource, StdoutSink, read_all, write_all,
};
use std::alloc::{AllocError, Global};
use std::io;
use std::io::{ErrorKind, Read, Write};
use std::test::Fail;

// The bytes of a source, the most that a read of it gives, the reads that fail, and how many bytes are asked
// for; then the bytes that are read, and why the reading stops.
type Reading = (
    &'static [u8],
    usize,
    &'static [u64],
    usize,
    &'static [u8],
    InputEnd,
);

const READINGS: [Reading; 7] = [
    (b"abc", 1, &[2], 9, b"a", InputEnd::Failed),
    (b"abc", 9, &[1], 9, b"", InputEnd::Failed),
    (b"abc", 1, &[5], 9, b"abc", InputEnd::Ended),
    (b"abc", 2, &[], 3, b"abc", InputEnd::Ended),
    (b"abc", 2, &[], 2, b"abc", InputEnd::More),
    (b"abcde", 2, &[], 2, b"abc", InputEnd::More),
    (b"", 1, &[], 0, b"", InputEnd::Ended),
];

fn source(
    alloc: Global,
    bytes: &[u8],
    most: usize,
    failing: &[u64],
) -> Result<MemSource, AllocError>
    requires { 1 ≤ most }
{
    let bytes = bytes.to_vec(alloc)?;
    Ok(MemSource::new(bytes, most, failing.to_vec(alloc)?))
}

#[test]
fn reads_to_the_end_the_limit_or_a_fault(rt: HostRuntime) -> Result<(), Fail> {
    for (bytes, most_a_read, failing, most, read, end) in READINGS {
        assert!(rt; most_a_read >= 1 && most <= 9);
        let mut source = source(rt.alloc(), bytes, most_a_read, failing)?;
        let input = read_all(rt.alloc(), &mut source, most)?;
        assert_eq!(rt; input.end, end);
        assert_eq!(rt; input.bytes.as_slice(), read);
    }
    Ok(())
}

// The most that a write takes, the room of the sink, the calls that fail, and the bytes to write; then whether
// all are written, the bytes that the sink took, and whether it is finished by the finish that follows.
type Writing = (
    usize,
    usize,
    &'static [u64],
    &'static [u8],
    Result<(), Failed>,
    &'static [u8],
    bool,
);

const WRITINGS: [Writing; 6] = [
    (2, 9, &[], b"abcde", Ok(()), b"abcde", true),
    (2, 3, &[], b"abcd", Err(Failed), b"abc", true),
    (2, 9, &[2], b"abcde", Err(Failed), b"ab", true),
    (2, 9, &[3], b"abc", Ok(()), b"abc", false),
    (9, 0, &[1], b"", Ok(()), b"", false),
    (1, 0, &[], b"a", Err(Failed), b"", true),
];

// Writes the bytes, whatever comes of it, and then finishes.
#[test]
fn writes_all_or_a_part_and_finishes(rt: HostRuntime) -> Result<(), Fail> {
    for (most_a_write, room, failing, bytes, written, taken, finished) in WRITINGS {
        assert!(rt; most_a_write >= 1);
        let failing = failing.to_vec(rt.alloc())?;
        let mut sink = MemSink::new(rt.alloc(), most_a_write, room, failing)?;
        assert_eq!(rt; write_all(&mut sink, bytes), written);
        assert_eq!(rt; sink.bytes(), taken);
        assert!(rt; !sink.finished());
        assert_eq!(rt; sink.finish().is_ok(), finished);
        assert_eq!(rt; sink.finished(), finished);
    }
    Ok(())
}

#[test]
fn a_write_after_the_finish_takes_it_back(rt: HostRuntime) -> Result<(), Fail> {
    let mut sink = MemSink::new(rt.alloc(), 1, 1, Vec::new(rt.alloc()))?;
    assert!(rt; sink.finish().is_ok() && sink.finished());
    assert_eq!(rt; sink.write(b""), Ok(0));
    assert!(rt; sink.finished());
    assert_eq!(rt; sink.write(b"a"), Ok(1));
    assert!(rt; !sink.finished());
    Ok(())
}

#[test]
fn readers_and_writers_pass_bytes_on(rt: HostRuntime) -> Result<(), Fail> {
    let mut source = StdinSource::new(&b"abc"[..]);
    let input = read_all(rt.alloc(), &mut source, 3)?;
    assert_eq!(rt; input.end, InputEnd::Ended);
    let mut written = [0; 3];
    let mut sink = StdoutSink::new(&mut written[..]);
    assert_eq!(rt; write_all(&mut sink, input.bytes.as_slice()), Ok(()));
    assert_eq!(rt; sink.write(b"d"), Err(Failed), "no byte is written of one");
    assert_eq!(rt; sink.finish(), Ok(()));
    assert_eq!(rt; written, [b'a', b'b', b'c']);
    Ok(())
}

fn file(alloc: Global, path: &str, bytes: &[u8]) -> Result<MemFile, AllocError> {
    Ok(MemFile {
        path: String::from_str(alloc, path)?,
        bytes: bytes.to_vec(alloc)?,
    })
}

// The path of each read, and how many bytes are asked for; then what is read. The third read fails.
const OPENINGS: [(&str, usize, Result<&[u8], OpenFault>); 7] = [
    ("a.cp", 9, Ok(b"abc")),
    ("a.cp", 3, Ok(b"abc")),
    ("a.cp", 2, Err(OpenFault::Failed)),
    ("a.cp", 2, Ok(b"ab")),
    ("b.cp", 9, Ok(b"")),
    ("none.cp", 9, Err(OpenFault::Failed)),
    ("", 0, Err(OpenFault::Failed)),
];

// Of two files with one path the first is read.
#[test]
fn opens_files_in_memory(rt: HostRuntime) -> Result<(), Fail> {
    let alloc = rt.alloc();
    let mut files = Vec::new(alloc);
    files.push(file(alloc, "a.cp", b"abc")?)?;
    files.push(file(alloc, "b.cp", b"")?)?;
    files.push(file(alloc, "a.cp", b"xyz")?)?;
    let mut opener = MemOpener::new(files, vec![in alloc; 3]?);
    for (path, most, expected) in OPENINGS {
        assert!(rt; most <= 9);
        let read = opener.read_up_to(alloc, path, most);
        assert_eq!(rt;
            read.as_ref()
                .map(|bytes: &Vec<u8>| bytes.as_slice())
                .map_err(|fault: &OpenFault| *fault),
            expected,
            "{path}"
        );
    }
    Ok(())
}

// The path of each read of the system's files, and how many bytes are asked for; then how many are read.
const SYSTEM_FILES: [(&str, usize, Option<usize>); 7] = [
    ("/dev/zero", 0, Some(0)),
    ("/dev/zero", 1, Some(1)),
    ("/dev/zero", 5000, Some(5000)),
    ("/dev/null", 5000, Some(0)),
    ("/dev/null/none.cp", 5000, None),
    ("/", 5000, None),
    ("/dev/zero\0", 1, None),
];

#[test]
fn opens_files_of_the_system(rt: HostRuntime) -> Result<(), Fail> {
    let mut opener = FileOpener::new(&rt);
    for (path, most, count) in SYSTEM_FILES {
        assert!(rt; most <= 5000);
        match opener.read_up_to(rt.alloc(), path, most) {
            Ok(bytes) => {
                assert_eq!(rt; Some(bytes.len()), count, "{path}");
                assert!(rt; bytes.iter().all(|b: &u8| *b == 0), "{path}");
            }
            Err(fault) => {
                assert_eq!(rt; count, None, "{path}");
                assert_eq!(rt; fault, OpenFault::Failed, "{path}");
            }
        }
    }
    Ok(())
}

// Gives `left` bytes and takes any number, one a call, and counts the calls and the flushes that are done. A call is
// done only after so many others failed with this kind of fault.
#[derive(Drop)]
struct Failing {
    kind: ErrorKind,
    faults: u32,
    failed: u32,
    calls: u32,
    left: usize,
    taken: usize,
    flushes: u32,
}

impl Failing {
    fn fails(&mut self) -> bool {
        self.calls = self.calls.saturating_add(1);
        let fails = self.failed < self.faults;
        self.failed = if fails {
            self.failed.saturating_add(1)
        } else {
            0
        };
        fails
    }
}

impl Read for Failing {
    fn read(&mut self, buf: &mut [u8]) -> io::Result<usize> {
        if self.fails() {
            return Err(io::Error::from(self.kind));
        }
        let count = buf.len().min(self.left).min(1);
        self.left = self.left.saturating_sub(count);
        Ok(count)
    }
}

impl Write for Failing {
    fn write(&mut self, buf: &[u8]) -> io::Result<usize> {
        if self.fails() {
            return Err(io::Error::from(self.kind));
        }
        let count = buf.len().min(1);
        self.taken = self.taken.saturating_add(count);
        Ok(count)
    }

    fn flush(&mut self) -> io::Result<()> {
        if self.fails() {
            return Err(io::Error::from(self.kind));
        }
        self.flushes = self.flushes.saturating_add(1);
        Ok(())
    }
}

// The kind of fault and how often it comes before each call is done; then why the reading stops, how many bytes are read
// and written, how often the writer is flushed, and the calls of reader and writer in all.
type Trying = (ErrorKind, u32, InputEnd, usize, u32, u32);

const TRYINGS: [Trying; 7] = [
    (ErrorKind::Interrupted, 0, InputEnd::Ended, 3, 1, 8),
    (ErrorKind::Interrupted, 1, InputEnd::Ended, 3, 1, 16),
    (
        ErrorKind::Interrupted,
        99_999,
        InputEnd::Ended,
        3,
        1,
        800_000,
    ),
    (
        ErrorKind::Interrupted,
        u32::MAX,
        InputEnd::Failed,
        0,
        0,
        300_000,
    ),
    (ErrorKind::WouldBlock, u32::MAX, InputEnd::Failed, 0, 0, 3),
    (ErrorKind::OutOfMemory, u32::MAX, InputEnd::Failed, 0, 0, 3),
    (ErrorKind::Other, u32::MAX, InputEnd::Failed, 0, 0, 3),
];

// An interrupted call is made again, and no other one that failed.
#[test]
fn interrupted_calls_alone_are_made_again(rt: HostRuntime) -> Result<(), Fail> {
    for (kind, faults, end, count, flushes, calls) in TRYINGS {
        let mut stream = Failing {
            kind,
            faults,
            failed: 0,
            calls: 0,
            left: 3,
            taken: 0,
            flushes: 0,
        };
        let input = read_all(rt.alloc(), &mut StdinSource::new(&mut stream), 9)?;
        assert_eq!(rt; input.end, end, "{kind} {faults}");
        assert_eq!(rt; input.bytes.len(), count, "{kind} {faults}");
        let mut sink = StdoutSink::new(&mut stream);
        assert_eq!(rt;
            write_all(&mut sink, b"abc").is_ok(),
            count == 3,
            "{kind} {faults}"
        );
        assert_eq!(rt; sink.finish().is_ok(), flushes == 1, "{kind} {faults}");
        assert_eq!(rt; stream.taken, count, "{kind} {faults}");
        assert_eq!(rt; stream.flushes, flushes, "{kind} {faults}");
        assert_eq!(rt; stream.calls, calls, "{kind} {faults}");
    }
    Ok(())
}

#[test]
fn faults_have_their_text(rt: HostRuntime) -> Result<(), Fail> {
    let alloc = rt.alloc();
    let failed = Failed.to_string(alloc)?;
    assert_eq!(rt; failed.as_str(), "the object failed");
    let unopened = OpenFault::Failed.to_string(alloc)?;
    assert_eq!(rt; unopened.as_str(), "the file could not be read");
    let memory = OpenFault::Memory.to_string(alloc)?;
    assert_eq!(rt; memory.as_str(), "out of memory");
    Ok(())
}
