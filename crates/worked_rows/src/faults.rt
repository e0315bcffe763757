//! Runs whose reads or writes fail, whose sink is full, or whose words are refused.

ghost use Rattle.std.specs.Prelude.{◌≤◌};

use crate::runs::{CountedSink, ROOM, answer, has_text};
use oriedita_cli::{run, run_arguments};
use oriedita_io::{MemOpener, MemSink, MemSource};
use std::alloc::{AllocError, Global};
use std::io;
use std::io::ErrorKind;
use std::process::Abort;
use std::sync::Wait;
use std::test::Fail;
use std::thread::Threads;
use task_board::NoGate;

const SCRIPT: &[u8] = b"2 0 -200 0 200\nredo\nundo\n";

const REPLIES: &[u8] = b"version 1 pieces 1\nrefused nothingtoredo\nversion 0 pieces 0\n";

// How many bytes of the replies are written where this read of a byte fails.
fn replied(read: u64) -> usize {
    match read {
        0..=15 => 0,
        16..=20 => 19,
        21..=25 => 41,
        _ => REPLIES.len(),
    }
}

// Runs the script with at most so many bytes a call and so much room in the sink, where the listed reads and writes fail.
// Compares the status, how many bytes of the replies were written, and how often the sink was finished.
fn ends<R: Abort + Threads + Wait + Sync>(
    rt: &R,
    alloc: Global,
    most: usize,
    room: usize,
    reads: &[u64],
    writes: &[u64],
    wanted: (u8, usize, u32),
) -> Result<(), AllocError>
    requires { 1 ≤ most }
{
    let (status, sink) = answer(rt, alloc, SCRIPT, most, room, reads, writes)?;
    let ended = (status, sink.bytes().len(), sink.finishes());
    assert_eq!(rt; ended, wanted, "{reads:?} {writes:?} {room}");
    assert!(rt;
        REPLIES.starts_with(sink.bytes()),
        "{reads:?} {writes:?} {room}"
    );
    Ok(())
}

// Reads and writes of one byte: one read more than there are bytes tells the end, and one call more than there are
// bytes to write finishes the output. After a failed read the whole lines before it are answered, and the output is
// finished; after a failed write it is not.
#[test]
fn a_fault_ends_the_run(rt: HostRuntime) -> Result<(), Fail> {
    let alloc = rt.alloc();
    let whole = REPLIES.len();
    for read in 1..=26 {
        ends(&rt, alloc, 1, ROOM, &[read], &[], (3, replied(read), 1))?;
    }
    ends(&rt, alloc, 1, ROOM, &[27], &[], (1, whole, 1))?;
    let mut call = 0_u64;
    for written in 0..whole {
        call = call.saturating_add(1);
        ends(&rt, alloc, 1, ROOM, &[], &[call], (4, written, 0))?;
        ends(&rt, alloc, 7, written, &[], &[], (4, written, 0))?;
    }
    ends(&rt, alloc, 7, whole, &[], &[], (1, whole, 1))?;
    let finish = call.saturating_add(1);
    let later = finish.saturating_add(1);
    ends(&rt, alloc, 1, ROOM, &[], &[finish], (4, whole, 1))?;
    ends(&rt, alloc, 1, ROOM, &[], &[later], (1, whole, 1))?;
    // A read fault and a fault of a write, or of the finish, after it: the last one decides.
    ends(&rt, alloc, 1, ROOM, &[2], &[1], (4, 0, 1))?;
    ends(&rt, alloc, 1, ROOM, &[16], &[3], (4, 2, 0))?;
    Ok(())
}

// What a source gives byte by byte before its read of this number fails, and the replies: a front of a line, none but
// that, just a whole line, a front of a block, and a block but for the end of its last line.
const CUT: [(&str, u64, &str); 6] = [
    ("undo\nli", 8, "refused nothingtoundo\n"),
    ("undo", 5, ""),
    ("undo\n", 6, "refused nothingtoundo\n"),
    ("load\n2 0 -200 0 200\n2 0 0", 26, "refused load unended\n"),
    ("load\n2 0 -200 0 200\nend", 24, "refused load unended\n"),
    ("undo\nload", 10, "refused nothingtoundo\n"),
];

#[test]
fn a_read_fault_runs_the_whole_lines_before_it(rt: HostRuntime) -> Result<(), Fail> {
    let alloc = rt.alloc();
    for (script, failing, replies) in CUT {
        let (status, sink) = answer(&rt, alloc, script.as_bytes(), 1, ROOM, &[failing], &[])?;
        has_text(&rt, &sink, replies, script);
        assert_eq!(rt; status, 3, "{script}");
        assert!(rt; sink.finished_once(), "{script}");
    }
    Ok(())
}

// How many arguments there are, the program's name among them, or why they are not told; and the status.
const ARGUMENTS: [(Result<usize, ErrorKind>, u8); 5] = [
    (Ok(0), 1),
    (Ok(1), 1),
    (Ok(2), 2),
    (Err(ErrorKind::InvalidData), 2),
    (Err(ErrorKind::OutOfMemory), 6),
];

// A run that takes no words afterwards finds the source and the sink as they were.
#[test]
fn words_are_refused_before_anything_is_read(rt: HostRuntime) -> Result<(), Fail> {
    let alloc = rt.alloc();
    for (told, status) in ARGUMENTS {
        let mut source = MemSource::new(SCRIPT.to_vec(alloc)?, 7, Vec::new(alloc));
        let mut sink = CountedSink::new(MemSink::new(alloc, 7, ROOM, Vec::new(alloc))?);
        let arguments = match told {
            Ok(count) => {
                let mut arguments = Vec::new(alloc);
                for _ in 0..count {
                    arguments.push(String::new(alloc))?;
                }
                Ok(arguments.into_iter())
            }
            Err(kind) => Err(io::Error::from(kind)),
        };
        let mut files = MemOpener::new(Vec::new(alloc), Vec::new(alloc));
        let ended = run_arguments(
            &rt,
            alloc,
            arguments,
            &mut source,
            &mut files,
            &mut sink,
            &NoGate,
        );
        assert_eq!(rt; ended.status, status, "{told:?}");
        if status > 1 {
            assert_eq!(rt; (sink.bytes().len(), sink.finishes()), (0, 0), "{told:?}");
            let ended = run(&rt, alloc, &[], &mut source, &mut files, &mut sink, &NoGate);
            assert_eq!(rt; ended.status, 1, "{told:?}");
        }
        assert_eq!(rt; sink.bytes(), REPLIES, "{told:?}");
        assert!(rt; sink.finished_once(), "{told:?}");
    }
    Ok(())
}
