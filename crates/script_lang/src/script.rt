//! The commands of a whole script.

ghost use Rattle.std.specs.Prelude.{◌≡◌, ◌<◌, ◌≤◌, ◌∷◌, [], ◌++◌, ◌&&◌, nat_le, length, true, false, IfOk, OnOk, IsTrue};
ghost use Rattle.std.specs.List.{list_all};
ghost use Rattle.cp_text.specs.Words.{longest_line, words_of, bare_lines};
ghost use Rattle.script_lang.specs.Script.{meets_condition, is_only, is_load_line, is_end_line, line_to_load, block_of, commands_from, commands_of, file_command};

use crate::block::{LoadLines, LoadStop};
use crate::command::Command;
use crate::judging::judge_line;
use cp_text::{CpLine, LONGEST_LINE, next_line, next_word, read_line_words};
use crease_store::LoadLine;
use std::alloc::{AllocError, Global};
use std::marker::Model;

/// The commands of a script, in order, seen as a list.
#[derive(Drop)]
pub struct Commands {
    list: Vec<Command>,
}

impl Model for Commands {
    ghost use Rattle.std.specs.Prelude.{List, IsTrue};
    ghost use Rattle.std.specs.List.{list_all};
    ghost use Rattle.script_lang.specs.declared.command.Command.{Command};
    ghost use Rattle.script_lang.specs.Script.{meets_condition};

    ghost Value = { List Command };

    ghost view = { λ c. c.list.items };

    ghost invariant = { λ c. IsTrue (list_all meets_condition c.list.items) };
}

impl Commands {
    /// Each command that sets a kind sets a kind of crease.
    pub fn of(list: Vec<Command>) -> Commands
        requires { IsTrue (list_all meets_condition list.items) }
        ensures { result ≡ list.items }
    {
        Commands { list }
    }

    pub fn as_slice(&self) -> &[Command]
        ensures commands { result.now ≡ self.now }
        ensures condition { IsTrue (list_all meets_condition self.now) }
    {
        self.list.as_slice()
    }

    pub fn into_vec(self) -> Vec<Command>
        ensures commands { result.items ≡ self }
        ensures condition { IsTrue (list_all meets_condition self) }
    {
        self.list
    }
}

// Whether a line of this first word and what stands behind it is short and this word alone.
fn is_alone(expected: &[u8], line: &[u8], word: &[u8], rest: &[u8]) -> bool
    requires { words_of line.now ≡ word.now ∷ words_of rest.now }
    ensures { result ≡ (nat_le (length line.now) longest_line && is_only expected.now (words_of line.now)) }
{
    line.len() <= LONGEST_LINE && word == expected && next_word(rest).is_none()
}

/// Whether a line without its end begins a block.
pub fn is_load(line: &[u8]) -> bool
    ensures { result ≡ is_load_line line.now }
{
    match next_word(line) {
        Some((word, rest)) => is_alone(b"load", line, word, rest),
        None => false,
    }
}

/// Whether a line without its end ends a block.
fn is_end_line(line: &[u8]) -> bool
    ensures { result ≡ is_end_line line.now }
{
    match next_word(line) {
        Some((word, rest)) => is_alone(b"end", line, word, rest),
        None => false,
    }
}

fn load(lines: Vec<LoadLine>, stop: LoadStop) -> Command
    ensures { result ≡ Command.Load lines.items stop }
{
    Command::Load {
        lines: LoadLines::of(lines),
        stop,
    }
}

// Appends the command of a block.
fn push_load(
    list: &mut Vec<Command>,
    lines: Vec<LoadLine>,
    stop: LoadStop,
) -> Result<(), AllocError>
    requires condition { IsTrue (list_all meets_condition list.old.items) }
    ensures ok { OnOk result (list.new.items ≡ list.old.items ++ Command.Load lines.items stop ∷ []) }
    ensures condition { OnOk result (IsTrue (list_all meets_condition list.new.items)) }
{
    list.push(load(lines, stop))?;
    Ok(())
}

fn line_to_load(number: u32, line: CpLine) -> LoadLine
    ensures { result ≡ line_to_load number line }
{
    LoadLine {
        number,
        kind: line.kind,
        from: line.from,
        to: line.to,
    }
}

// What follows the block that begins with this text.
fn after_block(text: &[u8]) -> &[u8]
    ensures commands { commands_from false (bare_lines result.now)
        ≡ commands_from true (bare_lines text.now) }
    ensures lines { length (bare_lines result.now) ≤ length (bare_lines text.now) }
{
    let mut rest = text;
    while let Some((passed, after)) = next_line(rest) {
        if is_end_line(passed) {
            return after;
        }
        rest = after;
    }
    rest
}

// Appends the command of the block that begins with this text, and gives what follows the block.
#[tactic(auto, using(crate::proofs::Blocks::block_pushed))]
fn push_block<'a>(
    alloc: Global,
    list: &mut Vec<Command>,
    text: &'a [u8],
) -> Result<&'a [u8], AllocError>
    requires lines { length (bare_lines text.now) < 4294967295 }
    requires condition { IsTrue (list_all meets_condition list.old.items) }
    ensures ok { IfOk result (λ rest. list.new.items ++ commands_from false (bare_lines rest.now)
        ≡ list.old.items ++ block_of (bare_lines text.now) ∷ commands_from true (bare_lines text.now)) }
    ensures condition { OnOk result (IsTrue (list_all meets_condition list.new.items)) }
    ensures lines { IfOk result (λ rest. length (bare_lines rest.now) ≤ length (bare_lines text.now)) }
{
    let mut lines = Vec::new(alloc);
    let mut number: u32 = 1;
    let mut rest = text;
    while let Some((line, after)) = next_line(rest) {
        if let Some((word, words)) = next_word(line) {
            if is_alone(b"end", line, word, words) {
                push_load(list, lines, LoadStop::Ended)?;
                return Ok(after);
            }
            match read_line_words(line, word, words) {
                Ok(line) => lines.push(line_to_load(number, line))?,
                Err(fault) => {
                    push_load(list, lines, LoadStop::Bad { number, fault })?;
                    return Ok(after_block(after));
                }
            }
        }
        number += 1;
        rest = after;
    }
    push_load(list, lines, LoadStop::Unended)?;
    Ok(rest)
}

// Appends the command of a line, or of the block that it begins, and gives what follows that.
fn push_first<'a>(
    alloc: Global,
    list: &mut Vec<Command>,
    line: &[u8],
    rest: &'a [u8],
) -> Result<&'a [u8], AllocError>
    requires lines { length (bare_lines rest.now) < 4294967295 }
    requires condition { IsTrue (list_all meets_condition list.old.items) }
    ensures ok { IfOk result (λ after. list.new.items ++ commands_from false (bare_lines after.now)
        ≡ list.old.items ++ commands_from false (line.now ∷ bare_lines rest.now)) }
    ensures condition { OnOk result (IsTrue (list_all meets_condition list.new.items)) }
    ensures lines { IfOk result (λ after. length (bare_lines after.now) ≤ length (bare_lines rest.now)) }
{
    let Some((word, words)) = next_word(line) else {
        return Ok(rest);
    };
    if is_alone(b"load", line, word, words) {
        return push_block(alloc, list, rest);
    }
    let command = judge_line(alloc, line, word, words)?;
    list.push(command)?;
    Ok(rest)
}

/// The commands of all lines and blocks, behind those that are there. A line ends with a line feed, and the bytes after the
/// last one are a line too.
#[tactic(auto, using(crate::proofs::Counts::lines_fit))]
pub fn read_script_behind(
    alloc: Global,
    first: Commands,
    bytes: &[u8],
) -> Result<Commands, AllocError>
    requires { length bytes.now < 4294967295 }
    ensures { IfOk result (λ commands. commands ≡ first ++ commands_of bytes.now) }
{
    let mut list = first.into_vec();
    let mut text = bytes;
    while let Some((line, rest)) = next_line(text) {
        text = push_first(alloc, &mut list, line, rest)?;
    }
    Ok(Commands { list })
}

/// The commands of all lines and blocks.
pub fn read_script(alloc: Global, bytes: &[u8]) -> Result<Commands, AllocError>
    requires { length bytes.now < 4294967295 }
    ensures { IfOk result (λ commands. commands ≡ commands_of bytes.now) }
{
    read_script_behind(alloc, Commands::of(Vec::new(alloc)), bytes)
}

/// The command of a crease pattern file: a block of its lines, without `load` and `end`. Lines that are blank are counted
/// and passed over, and the first one that is no line of a kind stops it; it begins with the edges of the sheet, as
/// Oriedita writes them, or with any other lines.
#[tactic(auto, using(crate::proofs::Counts::lines_fit))]
pub fn read_file(alloc: Global, bytes: &[u8]) -> Result<Command, AllocError>
    requires { length bytes.now < 4294967295 }
    ensures exact { IfOk result (λ command. command ≡ file_command bytes.now) }
    ensures condition { IfOk result (λ command. IsTrue (meets_condition command)) }
{
    let mut lines = Vec::new(alloc);
    let mut place: u32 = 1;
    let mut rest = bytes;
    while let Some((line, after)) = next_line(rest) {
        if let Some((word, words)) = next_word(line) {
            match read_line_words(line, word, words) {
                Ok(line) => lines.push(line_to_load(place, line))?,
                Err(fault) => {
                    let number = place;
                    return Ok(load(lines, LoadStop::Bad { number, fault }));
                }
            }
        }
        place += 1;
        rest = after;
    }
    Ok(load(lines, LoadStop::Ended))
}
