//! How a line is judged.

ghost use Rattle.std.specs.Prelude.{◌≡◌, ◌∷◌, ◌≤◌, [], length, min, Some, IfOk, IfSome, IsTrue};
ghost use Rattle.cp_text.specs.Words.{words_of};
ghost use Rattle.cp_text.specs.LineReading.{ends_read, line_read};
ghost use Rattle.script_lang.specs.Judged.{command_of, words_command, word_command, line_command, alone, delete_command, set_command, set_kind_command, set_words, is_sheet_count, points_read, sheet_command, sheet_words, number_alone, job_read, budget_read, with_number, folding_command};
ghost use Rattle.script_lang.specs.Script.{meets_condition};

use crate::block::{LoadLines, LoadStop};
use crate::command::Command;
use crate::corners::Corners;
use cp_text::{
    CpLine, Ends, LONGEST_LINE, LineFault, is_digits, next_word, read_ends, read_kind,
    read_line_words, read_point, read_whole,
};
use crease_model::Kind;
use std::alloc::{AllocError, Global};

/// The most words of a command.
const MOST_WORDS: usize = 32;

/// The greatest number of a job that is read as one.
const MOST_JOB: u64 = 4_294_967_295;

const LEAST_BUDGET: u64 = 1;

const MOST_BUDGET: u64 = 1_000_000_000;

fn add_command(line: Result<CpLine, LineFault>) -> Command
    ensures { result ≡ line_command line }
{
    match line {
        Ok(line) => Command::Add {
            kind: line.kind,
            from: line.from,
            to: line.to,
        },
        Err(fault) => Command::Bad { fault },
    }
}

fn bad(fault: LineFault) -> Command
    ensures { result ≡ Command.Bad fault }
{
    Command::Bad { fault }
}

fn judge_alone(command: Command, rest: &[u8]) -> Command
    ensures { result ≡ alone command (words_of rest.now) }
{
    match next_word(rest) {
        Some(_) => bad(LineFault::WrongCount),
        None => command,
    }
}

fn judge_delete(words: &[u8]) -> Command
    ensures { result ≡ delete_command (ends_read 1 (words_of words.now)) }
{
    match read_ends(1, words) {
        Ok(Ends { from, to }) => Command::Delete { from, to },
        Err(fault) => bad(fault),
    }
}

// The number of words, or one more than a command has where there are more.
fn count_words(words: &[u8]) -> usize
    ensures { result ≡ min (length (words_of words.now)) 33 }
{
    let mut rest = words;
    let mut count = 0;
    while let Some((_, after)) = next_word(rest) {
        if count == MOST_WORDS {
            return count + 1;
        }
        count += 1;
        rest = after;
    }
    count
}

fn set_ends(kind: Kind, words: &[u8]) -> Command
    ensures { result ≡ set_command kind (ends_read 2 (words_of words.now)) }
{
    match read_ends(2, words) {
        Ok(Ends { from, to }) => Command::Set { kind, from, to },
        Err(fault) => bad(fault),
    }
}

fn judge_kind(kind: Option<Kind>, words: &[u8]) -> Command
    ensures { result ≡ set_kind_command kind (ends_read 2 (words_of words.now)) }
{
    match kind {
        Some(Kind::Mountain) => set_ends(Kind::Mountain, words),
        Some(Kind::Valley) => set_ends(Kind::Valley, words),
        Some(Kind::Unassigned) => set_ends(Kind::Unassigned, words),
        Some(Kind::Edge) | Some(Kind::Aux) | None => bad(LineFault::BadKind),
    }
}

fn judge_set(words: &[u8]) -> Command
    ensures { result ≡ set_words (words_of words.now) }
{
    match next_word(words) {
        Some((kind, words)) => {
            if count_words(words) == 4 {
                judge_kind(read_kind(kind), words)
            } else {
                bad(LineFault::WrongCount)
            }
        }
        None => bad(LineFault::WrongCount),
    }
}

fn read_corners(alloc: Global, words: &[u8]) -> Result<Command, AllocError>
    requires { IsTrue (is_sheet_count (length (words_of words.now))) }
    ensures { IfOk result (λ command. command ≡ sheet_command (points_read 1 (words_of words.now))) }
{
    let mut points = Vec::new(alloc);
    let mut place = 1;
    let mut rest = words;
    while let Some((x, after)) = next_word(rest) {
        let Some((y, after)) = next_word(after) else {
            return Ok(bad(LineFault::WrongCount));
        };
        match read_point(place, x, y) {
            Ok(point) => points.push(point)?,
            Err(fault) => return Ok(bad(fault)),
        }
        place += 2;
        rest = after;
    }
    Ok(Command::Sheet {
        corners: Corners::of(points),
    })
}

fn is_sheet_count(count: usize) -> bool
    ensures { result ≡ is_sheet_count count }
{
    6 <= count && count <= MOST_WORDS && count % 2 == 0
}

fn judge_sheet(alloc: Global, words: &[u8]) -> Result<Command, AllocError>
    ensures { IfOk result (λ command. command ≡ sheet_words (words_of words.now)) }
{
    if is_sheet_count(count_words(words)) {
        read_corners(alloc, words)
    } else {
        Ok(bad(LineFault::WrongCount))
    }
}

fn read_alone(words: &[u8], least: u64, most: u64) -> Result<u64, LineFault>
    ensures exact { result ≡ number_alone least most (words_of words.now) }
    ensures most { IfOk result (λ n. n ≤ most) }
{
    let Some((word, rest)) = next_word(words) else {
        return Err(LineFault::WrongCount);
    };
    if next_word(rest).is_some() {
        return Err(LineFault::WrongCount);
    }
    match read_whole(word, least, most) {
        Some(n) => Ok(n),
        None => Err(LineFault::BadNumber { place: 1 }),
    }
}

fn read_job(words: &[u8]) -> Result<u32, LineFault>
    ensures { result ≡ job_read (words_of words.now) }
{
    let job = read_alone(words, 0, MOST_JOB)?;
    Ok(job as u32)
}

fn judge_another(words: &[u8]) -> Command
    ensures { result ≡ with_number Command.Another (job_read (words_of words.now)) }
{
    match read_job(words) {
        Ok(job) => Command::Another { job },
        Err(fault) => bad(fault),
    }
}

fn judge_budget(words: &[u8]) -> Command
    ensures { result ≡ with_number Command.Budget (budget_read (words_of words.now)) }
{
    match read_alone(words, LEAST_BUDGET, MOST_BUDGET) {
        Ok(budget) => Command::Budget { budget },
        Err(fault) => bad(fault),
    }
}

fn judge_peek(words: &[u8]) -> Command
    ensures { result ≡ with_number Command.Peek (job_read (words_of words.now)) }
{
    match read_job(words) {
        Ok(job) => Command::Peek { job },
        Err(fault) => bad(fault),
    }
}

fn judge_wait(words: &[u8]) -> Command
    ensures { result ≡ with_number Command.Wait (job_read (words_of words.now)) }
{
    match read_job(words) {
        Ok(job) => Command::Wait { job },
        Err(fault) => bad(fault),
    }
}

fn judge_cancel(words: &[u8]) -> Command
    ensures { result ≡ with_number Command.Cancel (job_read (words_of words.now)) }
{
    match read_job(words) {
        Ok(job) => Command::Cancel { job },
        Err(fault) => bad(fault),
    }
}

// The command of a folding job.
fn judge_folding(word: &[u8], words: &[u8]) -> Command
    ensures { result ≡ folding_command word.now (words_of words.now) }
{
    if word == b"fold".as_slice() {
        judge_alone(Command::Fold, words)
    } else if word == b"another".as_slice() {
        judge_another(words)
    } else if word == b"budget".as_slice() {
        judge_budget(words)
    } else if word == b"peek".as_slice() {
        judge_peek(words)
    } else if word == b"wait".as_slice() {
        judge_wait(words)
    } else if word == b"cancel".as_slice() {
        judge_cancel(words)
    } else {
        bad(LineFault::UnknownWord)
    }
}

// A block without lines and without its end.
fn empty_load(alloc: Global) -> Command
    ensures { result ≡ Command.Load [] LoadStop.Unended }
{
    Command::Load {
        lines: LoadLines::of(Vec::new(alloc)),
        stop: LoadStop::Unended,
    }
}

fn judge_word(alloc: Global, word: &[u8], words: &[u8]) -> Result<Command, AllocError>
    ensures { IfOk result (λ command. command ≡ word_command word.now (words_of words.now)) }
{
    if word == b"delete".as_slice() {
        Ok(judge_delete(words))
    } else if word == b"set".as_slice() {
        Ok(judge_set(words))
    } else if word == b"merge".as_slice() {
        Ok(judge_alone(Command::Merge, words))
    } else if word == b"clear".as_slice() {
        Ok(judge_alone(Command::Clear, words))
    } else if word == b"sheet".as_slice() {
        judge_sheet(alloc, words)
    } else if word == b"load".as_slice() {
        Ok(judge_alone(empty_load(alloc), words))
    } else if word == b"undo".as_slice() {
        Ok(judge_alone(Command::Undo, words))
    } else if word == b"redo".as_slice() {
        Ok(judge_alone(Command::Redo, words))
    } else if word == b"list".as_slice() {
        Ok(judge_alone(Command::List, words))
    } else if word == b"check".as_slice() {
        Ok(judge_alone(Command::Check, words))
    } else {
        Ok(judge_folding(word, words))
    }
}

/// The command of a line that was parted into its first word and the rest.
pub(crate) fn judge_line(
    alloc: Global,
    line: &[u8],
    word: &[u8],
    words: &[u8],
) -> Result<Command, AllocError>
    requires { words_of line.now ≡ word.now ∷ words_of words.now }
    ensures exact { IfOk result (λ command. command_of line.now ≡ Some command) }
    ensures condition { IfOk result (λ command. IsTrue (meets_condition command)) }
{
    if is_digits(word) {
        return Ok(add_command(read_line_words(line, word, words)));
    }
    if line.len() > LONGEST_LINE {
        return Ok(bad(LineFault::LongLine));
    }
    let command = judge_word(alloc, word, words)?;
    Ok(command)
}

/// The command of a line without its end; a line that is no command is `Bad` with its first fault. None exactly where the
/// line has no word. A line `load` by itself is a block without lines and without its end.
pub fn read_command(alloc: Global, line: &[u8]) -> Result<Option<Command>, AllocError>
    ensures exact { IfOk result (λ command. command ≡ command_of line.now) }
    ensures condition { IfOk result (λ command. IfSome command (λ c. IsTrue (meets_condition c))) }
{
    let Some((word, words)) = next_word(line) else {
        return Ok(None);
    };
    let command = judge_line(alloc, line, word, words)?;
    Ok(Some(command))
}
