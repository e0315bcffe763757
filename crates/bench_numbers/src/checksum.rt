//! A checksum over results of exact arithmetic.

ghost use Rattle.std.specs.Prelude.{◌≡◌};

use plane_geometry::{Line, MeetFault, Point};
use surd_number::{OutOfRange, Sgn, Surd};

/// What the checksum is multiplied by at each word.
const FACTOR: u64 = 6364136223846793005;

/// The word for a value out of range.
const REFUSED: u64 = 3;

/// The word for lines that have no common point.
const PARALLEL: u64 = 4;

/// A checksum of the words so far.
#[derive(Clone, Copy)]
pub struct Checksum {
    value: u64,
}

impl Checksum {
    /// The checksum of no words.
    pub fn new() -> Checksum
        ensures { result.value ≡ 0 }
    {
        Checksum { value: 0 }
    }

    /// The checksum.
    pub fn value(&self) -> u64
        ensures { result ≡ self.now.value }
    {
        self.value
    }

    // Takes in a word.
    fn fold(&mut self, word: u64) {
        self.value = self.value.wrapping_mul(FACTOR).wrapping_add(word);
    }

    // Takes in a number: whether it is negative (0), zero (1) or positive (2), and the low 64 bits of its absolute value.
    fn fold_signed(&mut self, n: i128) {
        self.fold(if n < 0 {
            0
        } else if n == 0 {
            1
        } else {
            2
        });
        self.fold((n.unsigned_abs() % 0x1_0000_0000_0000_0000) as u64);
    }

    /// Takes in a sign: negative 0, zero 1, positive 2.
    pub fn fold_sign(&mut self, sign: Sgn) {
        self.fold(match sign {
            Sgn::Neg => 0,
            Sgn::Zero => 1,
            Sgn::Pos => 2,
        });
    }

    /// Takes in the triple of a number and its sign, or that there is none.
    pub fn fold_number(&mut self, outcome: Result<Surd, OutOfRange>) {
        match outcome {
            Ok(number) => {
                let (a, b, k) = number.parts();
                self.fold_signed(a as i128);
                self.fold_signed(b as i128);
                self.fold(k as u64);
                self.fold_sign(number.sgn());
            }
            Err(OutOfRange) => self.fold(REFUSED),
        }
    }

    /// Takes in the coordinates of a common point, or why there is none.
    pub fn fold_meeting(&mut self, outcome: Result<Point, MeetFault>) {
        match outcome {
            Ok(point) => {
                self.fold_number(Ok(point.x));
                self.fold_number(Ok(point.y));
            }
            Err(MeetFault::OutOfRange) => self.fold(REFUSED),
            Err(MeetFault::Parallel) => self.fold(PARALLEL),
        }
    }

    /// Takes in the direction and the offset of a line.
    pub fn fold_line(&mut self, line: &Line) {
        let (a, b, k) = line.offset().parts();
        self.fold(line.number() as u64);
        self.fold_signed(a);
        self.fold_signed(b);
        self.fold(k as u64);
    }
}
