//! Crease lines read from text.

ghost use Rattle.std.specs.Prelude.{◌≡◌, ◌≢◌, ◌+◌, ◌<◌, ◌^◌, ◌∷◌, []};
ghost use Rattle.cp_text.specs.Words.{words_of};
ghost use Rattle.cp_text.specs.LineReading.{number_fault_at, coordinate_read, point_of, point_read, ends_of, ends_read, kind_of, line_with, kind_line, words_line, line_read};

use crate::line::{CpLine, Ends, LONGEST_LINE, LineFault};
use crate::number_reading::{NumberFault, is_digits, read_number};
use crate::words::next_word;
use crease_model::Kind;
use plane_geometry::Point;
use surd_number::Surd;

fn number_fault_at(place: u32, fault: NumberFault) -> LineFault
    ensures { result ≡ number_fault_at place fault }
{
    match fault {
        NumberFault::Bad => LineFault::BadNumber { place },
        NumberFault::NotExact => LineFault::NotExact { place },
        NumberFault::OutOfRange => LineFault::OutOfRange { place },
    }
}

/// The coordinate that a word is; the place of the word is for its faults.
pub fn read_coordinate(place: u32, word: &[u8]) -> Result<Surd, LineFault>
    ensures { result ≡ coordinate_read place word.now }
{
    match read_number(word) {
        Ok(n) => Ok(n),
        Err(fault) => Err(number_fault_at(place, fault)),
    }
}

/// The point of two words, the first of them at this place.
pub fn read_point(place: u32, x: &[u8], y: &[u8]) -> Result<Point, LineFault>
    requires { place + 1 < 2 ^ 32 }
    ensures { result ≡ point_read place x.now y.now }
{
    let x = read_coordinate(place, x)?;
    let y = read_coordinate(place + 1, y)?;
    Ok(Point { x, y })
}

/// The two ends of exactly four words, the first of them at this place.
pub fn read_ends(place: u32, words: &[u8]) -> Result<Ends, LineFault>
    requires { place + 3 < 2 ^ 32 }
    ensures { result ≡ ends_read place (words_of words.now) }
{
    let Some((x1, rest)) = next_word(words) else {
        return Err(LineFault::WrongCount);
    };
    let Some((y1, rest)) = next_word(rest) else {
        return Err(LineFault::WrongCount);
    };
    let Some((x2, rest)) = next_word(rest) else {
        return Err(LineFault::WrongCount);
    };
    let Some((y2, rest)) = next_word(rest) else {
        return Err(LineFault::WrongCount);
    };
    if next_word(rest).is_some() {
        return Err(LineFault::WrongCount);
    }
    let from = read_point(place, x1, y1)?;
    let to = read_point(place + 2, x2, y2)?;
    Ok(Ends { from, to })
}

/// The kind that a word is, one digit.
pub fn read_kind(word: &[u8]) -> Option<Kind>
    ensures { result ≡ kind_of word.now }
{
    if word == b"1".as_slice() {
        Some(Kind::Edge)
    } else if word == b"2".as_slice() {
        Some(Kind::Mountain)
    } else if word == b"3".as_slice() {
        Some(Kind::Valley)
    } else if word == b"4".as_slice() {
        Some(Kind::Aux)
    } else if word == b"5".as_slice() {
        Some(Kind::Unassigned)
    } else {
        None
    }
}

fn read_kind_line(kind: Option<Kind>, words: &[u8]) -> Result<CpLine, LineFault>
    ensures { result ≡ kind_line kind (words_of words.now) }
{
    match kind {
        Some(kind) => {
            let Ends { from, to } = read_ends(1, words)?;
            Ok(CpLine { kind, from, to })
        }
        None => Err(LineFault::BadKind),
    }
}

/// The crease line of a line of text that was parted into its first word and the rest.
#[tactic(auto, unfolding(crate::specs::LineReading::line_read))]
pub fn read_line_words(line: &[u8], word: &[u8], words: &[u8]) -> Result<CpLine, LineFault>
    requires { words_of line.now ≡ word.now ∷ words_of words.now }
    ensures { result ≡ line_read line.now }
{
    if line.len() > LONGEST_LINE {
        return Err(LineFault::LongLine);
    }
    if !is_digits(word) {
        return Err(LineFault::UnknownWord);
    }
    read_kind_line(read_kind(word), words)
}

/// The crease line of a line of text without its end: a kind and four coordinates. The faults come in the order of
/// `LineFault`, those of numbers from left to right.
pub fn read_line(line: &[u8]) -> Result<CpLine, LineFault>
    requires { words_of line.now ≢ [] }
    ensures { result ≡ line_read line.now }
{
    match next_word(line) {
        Some((word, words)) => read_line_words(line, word, words),
        None => unreachable!(),
    }
}
