//! Runs with worker threads.

use crate::folding::FOLDINGS;
use crate::runs::{ROOM, Row, answer_with, has_text, words_of};
use crate::unassigned::UNASSIGNED;
use oriedita_cli::run;
use oriedita_io::{Failed, MemOpener, MemSink, MemSource, Sink};
use std::alloc::{AllocError, Global};
use std::process::Abort;
use std::str;
use std::sync::Wait;
use std::sync::atomic::{AtomicU64, Ordering};
use std::test::*;
use std::thread::{Threads, yield_now};
use task_board::Gate;

/// How often a flag is read before a thread gives up.
const TURNS: u32 = 200_000_000;

/// What the sink and the gate of one run tell each other.
#[derive(Drop)]
struct Flags {
    /// How often the gate was entered.
    entries: AtomicU64,
    /// 1 once the sink has the reply that the gate waits for.
    has_reply: AtomicU64,
    /// How many of the two gave up.
    gave_up: AtomicU64,
}

impl Flags {
    /// Reads a flag until it is raised, and notes it where that takes too many turns.
    fn wait_for(&self, flag: &AtomicU64) {
        for turn in 0..TURNS {
            if flag.load(Ordering::SeqCst) > 0 {
                return;
            }
            if turn % 1024 == 0 {
                yield_now();
            }
        }
        self.gave_up.fetch_add(1, Ordering::SeqCst);
    }
}

/// A sink that holds up the session behind the reply to the first ask until a worker is at the gate.
#[derive(Drop)]
struct HeldSink<'a> {
    sink: MemSink,
    flags: &'a Flags,
}

impl<'a> HeldSink<'a> {
    fn look(&self) {
        let bytes = self.sink.bytes();
        if bytes.ends_with(b"\nasked 1\n") {
            self.flags.wait_for(&self.flags.entries);
        }
        let text = str::from_utf8(bytes).unwrap_or("no text");
        if text
            .lines()
            .any(|line| line.starts_with("job 2 version 2 order 1"))
        {
            self.flags.has_reply.store(1, Ordering::SeqCst);
        }
    }
}

impl<'a> Sink for HeldSink<'a> {
    ghost use Rattle.std.specs.Prelude.{Some};

    ghost faults = { λ s. s.sink.faults };

    ghost taken = { λ s. Some s.sink.taken };

    ghost finished = { λ s. Some s.sink.finished };

    fn write(&mut self, bytes: &[u8]) -> Result<usize, Failed> {
        let written = self.sink.write(bytes)?;
        self.look();
        Ok(written)
    }

    fn finish(&mut self) -> Result<(), Failed> {
        self.sink.finish()
    }
}

/// A gate that holds up the worker that enters it first until the second job has answered.
#[derive(Drop)]
struct HeldGate<'a> {
    flags: &'a Flags,
}

impl<'a> Gate for HeldGate<'a> {
    fn before(&self, _ticket: u32) {
        if self.flags.entries.fetch_add(1, Ordering::SeqCst) == 0 {
            self.flags.wait_for(&self.flags.has_reply);
        }
    }
}

/// Two jobs: while a worker is held at the task of the first one, the second one answers.
const HELD: Row = (
    "2 0 -200 0 200\n\
     fold\n\
     another 1\n\
     3 -100 -200 -100 200\n\
     fold\n\
     another 2\n\
     wait 2\n\
     wait 1\n",
    "version 1 pieces 1\n\
     job 1 version 1 faces 2 pairs 1\n\
     asked 1\n\
     version 2 pieces 2\n\
     job 2 version 2 faces 3 pairs 3\n\
     asked 2\n\
     job 2 version 2 order 1 ---\n\
     job 1 version 1 order 1 +\n",
    0,
);

// No run on one thread, under the lock of the board or past the gate passes this test.
#[test]
fn a_job_answers_while_another_is_searched(rt: HostRuntime) -> Result<(), Fail> {
    let alloc = rt.alloc();
    let (script, replies, status) = HELD;
    let flags = Flags {
        entries: AtomicU64::new(0),
        has_reply: AtomicU64::new(0),
        gave_up: AtomicU64::new(0),
    };
    let words = words_of(alloc, &["--workers", "2"])?;
    let mut source = MemSource::new(script.as_bytes().to_vec(alloc)?, ROOM, Vec::new(alloc));
    let mut sink = HeldSink {
        sink: MemSink::new(alloc, ROOM, ROOM, Vec::new(alloc))?,
        flags: &flags,
    };
    let gate = HeldGate { flags: &flags };
    let mut files = MemOpener::new(Vec::new(alloc), Vec::new(alloc));
    let ended = run(
        &rt,
        alloc,
        words.as_slice(),
        &mut source,
        &mut files,
        &mut sink,
        &gate,
    );
    let taken = str::from_utf8(sink.sink.bytes()).unwrap_or("no text");
    assert_eq!(&rt; taken, replies);
    assert_eq!(&rt; ended.status, status);
    assert_eq!(&rt; flags.gave_up.load(Ordering::SeqCst), 0, "gave up");
    Ok(())
}

/// Runs a row with these words.
fn row_with<R: Abort + Threads + Wait + Sync>(
    rt: &R,
    alloc: Global,
    words: &[&str],
    row: Row,
) -> Result<(), AllocError> {
    let (script, replies, status) = row;
    let words = words_of(alloc, words)?;
    let (ended, sink) = answer_with(
        rt,
        alloc,
        words.as_slice(),
        script.as_bytes(),
        ROOM,
        ROOM,
        &[],
        &[],
    )?;
    has_text(rt, &sink, replies, script);
    assert_eq!(rt; ended, status, "the status of {script}");
    Ok(())
}

/// The words of the runs that have to answer alike. Without words there are two workers.
const COUNTS: [&[&str]; 4] = [
    &["--workers", "0"],
    &["--workers", "1"],
    &[],
    &["--workers", "8"],
];

#[test]
fn jobs_answer_alike_on_any_workers(rt: HostRuntime) -> Result<(), Fail> {
    for words in COUNTS {
        for row in &FOLDINGS[..9] {
            row_with(&rt, rt.alloc(), words, *row)?;
        }
        for row in &UNASSIGNED[..4] {
            row_with(&rt, rt.alloc(), words, *row)?;
        }
    }
    Ok(())
}

/// Lists of words that are refused: 9 workers are too many, and a number is plain digits.
const REFUSED: [&[&str]; 8] = [
    &["--workers", "9"],
    &["--workers", "-1"],
    &["--workers", "+1"],
    &["--workers", ""],
    &["--workers"],
    &["2"],
    &["--worker", "2"],
    &["--workers", "2", "2"],
];

#[test]
fn other_words_are_refused(rt: HostRuntime) -> Result<(), Fail> {
    for words in REFUSED {
        row_with(&rt, rt.alloc(), words, ("undo\n", "", 2))?;
    }
    row_with(&rt, rt.alloc(), &["--workers", "008"], ("", "", 0))?;
    Ok(())
}
