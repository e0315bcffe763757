//! The sample patterns.

ghost use Rattle.std.specs.Prelude.{◌≡◌, ◌+◌, ◌-◌, ◌^◌, ◌<◌, ◌≤◌, IfOk, vec_len};
ghost use Rattle.surd_number.specs.Exact.{IsSurdOf};
ghost use Rattle.cp_text.specs.Sample.{strip_end, kind_at, line_across, sample_line, sample_lines, AreAtStripEnds};

use crate::line::CpLine;
use crease_model::Kind;
use plane_geometry::Point;
use std::alloc::{AllocError, Global};
use surd_number::Surd;

/// Half the width of the sheet, in sheet units.
const HALF_WIDTH: i32 = 200;

/// The width of the sheet.
const WIDTH: u32 = 400;

// 2^n.
fn strip_count(n: u32) -> u32
    requires { n ≤ 7 }
    ensures count { result ≡ 2 ^ n }
    ensures few { result ≤ 128 }
{
    1 << n
}

fn kind_at(k: u32) -> Kind
    ensures { result ≡ kind_at k }
{
    if k % 2 == 1 {
        Kind::Mountain
    } else {
        Kind::Valley
    }
}

// Where the k-th of 2^n strips ends, in parts of 1/2^n.
fn strip_end_over(n: u32, k: u32) -> i64
    requires few { n ≤ 7 }
    requires within { k < 2 ^ n }
    ensures { result ≡ (strip_end n k).a }
{
    i64::from(WIDTH * k) - i64::from(HALF_WIDTH) * i64::from(strip_count(n))
}

// Where the k-th of 2^n strips ends.
fn strip_end(n: u32, k: u32) -> Surd
    requires few { n ≤ 7 }
    requires within { k < 2 ^ n }
    ensures { IsSurdOf result (strip_end n k) }
{
    match Surd::new(strip_end_over(n, k), 0, n as u8) {
        Ok(x) => x,
        Err(_) => Surd::whole(0),
    }
}

fn line_across(kind: Kind, x: Surd) -> CpLine
    ensures { result ≡ line_across kind x }
{
    CpLine {
        kind,
        from: Point {
            x,
            y: Surd::whole(-HALF_WIDTH),
        },
        to: Point {
            x,
            y: Surd::whole(HALF_WIDTH),
        },
    }
}

fn sample_line(n: u32, k: u32) -> CpLine
    requires few { n ≤ 7 }
    requires within { k < 2 ^ n }
    ensures { result ≡ sample_line n k }
{
    line_across(kind_at(k), strip_end(n, k))
}

/// The lines of a sample pattern on the default sheet: 2^n - 1 creases from its lower to its upper side, which part it
/// into 2^n strips of one width, from left to right, mountains and valleys in turn.
pub fn sample(alloc: Global, n: u32) -> Result<Vec<CpLine>, AllocError>
    requires some { 1 ≤ n }
    requires few { n ≤ 7 }
    ensures lines { IfOk result (λ lines. lines.items ≡ sample_lines n) }
    ensures count { IfOk result (λ lines. vec_len lines ≡ 2 ^ n - 1) }
    ensures places { IfOk result (λ lines. AreAtStripEnds n lines.items) }
{
    let mut lines = Vec::new(alloc);
    for k in 1..strip_count(n) {
        lines.push(sample_line(n, k))?;
    }
    Ok(lines)
}
