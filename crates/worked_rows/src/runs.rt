//! One run in memory.

ghost use Rattle.std.specs.Prelude.{◌≤◌};

use oriedita_cli::run;
use oriedita_io::{Failed, MemOpener, MemSink, MemSource, Sink};
use std::alloc::{AllocError, Global};
use std::process::Abort;
use std::str;
use std::sync::Wait;
use std::thread::Threads;
use task_board::NoGate;

/// The room of a sink that no run of these tables fills.
pub const ROOM: usize = 65_536;

/// A script, the text of its replies and the exit status.
pub type Row = (&'static str, &'static str, u8);

/// A sink in memory that counts how often it is finished.
#[derive(Drop)]
pub struct CountedSink {
    sink: MemSink,
    finishes: u32,
}

impl CountedSink {
    pub fn new(sink: MemSink) -> CountedSink {
        CountedSink { sink, finishes: 0 }
    }

    pub fn bytes(&self) -> &[u8] {
        self.sink.bytes()
    }

    /// Whether it was finished, just once, and took no byte since.
    pub fn finished_once(&self) -> bool {
        self.sink.finished() && self.finishes == 1
    }

    /// How often it was finished, well or not.
    pub fn finishes(&self) -> u32 {
        self.finishes
    }
}

impl Sink for CountedSink {
    ghost use Rattle.std.specs.Prelude.{Some};

    ghost faults = { λ s. s.sink.faults };

    ghost taken = { λ s. Some s.sink.taken };

    ghost finished = { λ s. Some s.sink.finished };

    fn write(&mut self, bytes: &[u8]) -> Result<usize, Failed> {
        self.sink.write(bytes)
    }

    fn finish(&mut self) -> Result<(), Failed> {
        self.finishes = self.finishes.saturating_add(1);
        self.sink.finish()
    }
}

/// Runs a script with these words. The source and the sink pass on at most `most` bytes a call, the sink takes `room`
/// bytes in all, and the listed calls of each fail, counted from 1. The answer is the exit status, and the sink as it
/// was left.
pub fn answer_with<R: Threads + Wait + Sync>(
    rt: &R,
    alloc: Global,
    words: &[String],
    script: &[u8],
    most: usize,
    room: usize,
    failing_reads: &[u64],
    failing_writes: &[u64],
) -> Result<(u8, CountedSink), AllocError>
    requires { 1 ≤ most }
{
    let script = script.to_vec(alloc)?;
    let mut source = MemSource::new(script, most, failing_reads.to_vec(alloc)?);
    let sink = MemSink::new(alloc, most, room, failing_writes.to_vec(alloc)?)?;
    let mut sink = CountedSink::new(sink);
    let mut files = MemOpener::new(Vec::new(alloc), Vec::new(alloc));
    let ended = run(
        rt,
        alloc,
        words,
        &mut source,
        &mut files,
        &mut sink,
        &NoGate,
    );
    Ok((ended.status, sink))
}

/// [`answer_with`] without workers, so that a peek finds no answer.
pub fn answer<R: Threads + Wait + Sync>(
    rt: &R,
    alloc: Global,
    script: &[u8],
    most: usize,
    room: usize,
    failing_reads: &[u64],
    failing_writes: &[u64],
) -> Result<(u8, CountedSink), AllocError>
    requires { 1 ≤ most }
{
    let words = words_of(alloc, &["--workers", "0"])?;
    answer_with(
        rt,
        alloc,
        words.as_slice(),
        script,
        most,
        room,
        failing_reads,
        failing_writes,
    )
}

/// The words of a command line.
pub fn words_of(alloc: Global, texts: &[&str]) -> Result<Vec<String>, AllocError> {
    let mut words = Vec::new(alloc);
    for text in texts {
        words.push(text.to_string(alloc)?)?;
    }
    Ok(words)
}

/// Compares what a sink took with a text.
pub fn has_text(rt: &impl Abort, sink: &CountedSink, replies: &str, script: &str) {
    let taken = str::from_utf8(sink.bytes()).unwrap_or("no text");
    assert_eq!(rt; taken, replies, "the replies to {script}");
}

fn row_by<R: Abort + Threads + Wait + Sync>(
    rt: &R,
    alloc: Global,
    row: Row,
    most: usize,
) -> Result<(), AllocError>
    requires { 1 ≤ most }
{
    let (script, replies, status) = row;
    let (ended, sink) = answer(rt, alloc, script.as_bytes(), most, ROOM, &[], &[])?;
    has_text(rt, &sink, replies, script);
    assert_eq!(rt; ended, status, "the status of {script}");
    assert!(rt; sink.finished_once(), "{script}");
    Ok(())
}

/// Runs each script with large reads and writes, and one byte at a time, and compares both runs with its row.
pub fn all_meet<R: Abort + Threads + Wait + Sync>(
    rt: &R,
    alloc: Global,
    rows: &[Row],
) -> Result<(), AllocError> {
    for row in rows {
        row_by(rt, alloc, *row, ROOM)?;
        row_by(rt, alloc, *row, 1)?;
    }
    Ok(())
}
