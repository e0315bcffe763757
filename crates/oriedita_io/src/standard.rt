//! Standard input and output as a source and a sink. They tell what their reader and writer tell, which is
//! nothing for those of the system. A call that a signal interrupts is made again.
ghost use Rattle.std.specs.Prelude.{◌≡◌, ◌↔◌, IsErrAnd, IsTrue};
ghost use Rattle.std.specs.Io.{ReadsAtMost, WritesAtMost};
ghost use Rattle.std.specs.IoError.{error_kind};
ghost use Rattle.std.specs.Io.KnownBytes.{Keeps, ReadConsumes, WriteAppends};

use super::{Failed, Sink, Source};
use std::io;
use std::io::{ErrorKind, Read, Write};
use std::marker::Model;

/// How often a call is made at most, where signals interrupt it each time.
pub(crate) const TRIES: u32 = 100_000;

// Whether a signal interrupted a call. No other fault lets it be made again.
pub(crate) fn is_interrupted<T>(ended: &io::Result<T>) -> bool
    ensures { IsTrue result ↔ IsErrAnd ended.now (λ error. error_kind error ≡ ErrorKind.Interrupted) }
{
    match ended {
        Ok(_) => false,
        Err(error) => error.kind() == ErrorKind::Interrupted,
    }
}

fn read_retrying<R: Read>(reader: &mut R, into: &mut [u8]) -> io::Result<usize>
    ensures bound { ReadsAtMost result into.new }
    ensures bytes { ReadConsumes (R.remaining reader.old) (R.remaining reader.new) result into.new }
{
    for _ in 1..TRIES {
        let ended = reader.read(into);
        if !is_interrupted(&ended) {
            return ended;
        }
    }
    reader.read(into)
}

fn write_retrying<W: Write>(writer: &mut W, bytes: &[u8]) -> io::Result<usize>
    ensures bound { WritesAtMost result bytes.now }
    ensures bytes { WriteAppends (W.contents writer.old) (W.contents writer.new) result bytes.now }
{
    for _ in 1..TRIES {
        let ended = writer.write(bytes);
        if !is_interrupted(&ended) {
            return ended;
        }
    }
    writer.write(bytes)
}

fn flush_retrying<W: Write>(writer: &mut W) -> io::Result<()>
    ensures bytes { Keeps (W.contents writer.old) (W.contents writer.new) }
{
    for _ in 1..TRIES {
        let ended = writer.flush();
        if !is_interrupted(&ended) {
            return ended;
        }
    }
    writer.flush()
}

/// A reader, as that of standard input, `rt.reader()`, as a source. An error of a read is a fault, an
/// interruption only where a hundred thousand tries of one read were interrupted.
#[derive(Drop)]
pub struct StdinSource<R> {
    reader: R,
    faults: u64,
}

// Clauses see the reader and the faults so far.
impl<R> Model for StdinSource<R> {
    ghost use Rattle.oriedita_io.specs.Standard.{WithFaults};

    ghost Value = { WithFaults R };

    ghost view = { λ s. record { io = s.reader; faults = s.faults } };
}

impl<R: Read> StdinSource<R> {
    /// The source of what `reader` reads, with no fault so far.
    pub fn new(reader: R) -> StdinSource<R>
        ensures { result ≡ record { io = reader; faults = 0 } }
    {
        StdinSource { reader, faults: 0 }
    }
}

impl<R: Read> Source for StdinSource<R> {
    ghost faults = { λ s. s.faults };

    ghost left = { λ s. R.remaining s.io };

    fn read(&mut self, into: &mut [u8]) -> Result<usize, Failed> {
        match read_retrying(&mut self.reader, into) {
            Ok(count) => Ok(count),
            Err(_) => {
                self.faults = self.faults.saturating_add(1);
                Err(Failed)
            }
        }
    }
}

/// A writer, as that of standard output, `io::writer(&rt)`, as a sink. An error of a write or a flush is a
/// fault, an interruption only where a hundred thousand tries of one call were interrupted. So is a write of
/// no byte where there is one.
#[derive(Drop)]
pub struct StdoutSink<W> {
    writer: W,
    faults: u64,
}

// Clauses see the writer and the faults so far.
impl<W> Model for StdoutSink<W> {
    ghost use Rattle.oriedita_io.specs.Standard.{WithFaults};

    ghost Value = { WithFaults W };

    ghost view = { λ s. record { io = s.writer; faults = s.faults } };
}

impl<W: Write> StdoutSink<W> {
    /// The sink whose bytes go to `writer`, with no fault so far.
    pub fn new(writer: W) -> StdoutSink<W>
        ensures { result ≡ record { io = writer; faults = 0 } }
    {
        StdoutSink { writer, faults: 0 }
    }
}

impl<W: Write> Sink for StdoutSink<W> {
    ghost use Rattle.std.specs.Prelude.{None};

    ghost faults = { λ s. s.faults };

    ghost taken = { λ s. W.contents s.io };

    ghost finished = { λ _. None };

    fn write(&mut self, bytes: &[u8]) -> Result<usize, Failed> {
        match write_retrying(&mut self.writer, bytes) {
            Ok(count) if count > 0 || bytes.is_empty() => Ok(count),
            _ => {
                self.faults = self.faults.saturating_add(1);
                Err(Failed)
            }
        }
    }

    // No clause sees a flush, since the writer's bytes stay as they were: a test counts it.
    fn finish(&mut self) -> Result<(), Failed> {
        match flush_retrying(&mut self.writer) {
            Ok(()) => Ok(()),
            Err(_) => {
                self.faults = self.faults.saturating_add(1);
                Err(Failed)
            }
        }
    }
}
