//! Exact numbers written as text.

ghost use Rattle.std.specs.Prelude.{◌≡◌, ◌+◌, ◌*◌, ◌%◌, ◌^◌, ◌<◌, ◌≤◌, ◌++◌, OnOk, OnErr, codes, decimal, unsigned_abs};
ghost use Rattle.cp_text.specs.Digits.{padded_digits};
ghost use Rattle.cp_text.specs.NumberText.{fraction_digits, behind_point, magnitude_text, part_text, parts_text, joining_text, number_text};
ghost use Rattle.cp_text.specs.ShortestText.{IsShortestText};
ghost use Rattle.cp_text.specs.Growth.{KeepsFront};
ghost use Rattle.surd_number.specs.Value.{number_of};

use crate::appending::{all_or_nothing, append_number};
use std::alloc::AllocError;
use surd_number::Surd;

/// A fraction below 1, `part / 2^places`, in lowest terms.
#[derive(Clone, Copy)]
struct Fraction {
    part: u64,
    places: u8,
}

fn lowest_terms(part: u64, places: u8) -> Fraction
    requires { part < 2 ^ places }
    ensures digits { fraction_digits places part
        ≡ padded_digits result.places (result.part * 5 ^ result.places) }
    ensures below { result.part < 2 ^ result.places }
    ensures few { result.places ≤ places }
{
    let mut part = part;
    let mut places = places;
    while places > 0 && part % 2 == 0 {
        part /= 2;
        places -= 1;
    }
    Fraction { part, places }
}

// The last digits of n, so many.
#[tactic(auto, using(crate::proofs::Fractions::ten_fits, crate::proofs::Fronts::fronts))]
fn put_padded(out: &mut Vec<u8>, n: u64, places: u8) -> Result<(), AllocError>
    requires { places ≤ 16 }
    ensures ok { OnOk result (out.new.items ≡ out.old.items ++ padded_digits places n) }
    ensures err { OnErr result (KeepsFront out.old.items out.new.items) }
{
    for place in (0..places).rev() {
        let digit = n / 10u64.pow(u32::from(place)) % 10;
        out.push(b'0' + digit as u8)?;
    }
    Ok(())
}

// The digits of `part / 2^places` behind a point.
#[tactic(auto, using(crate::proofs::Fractions::five_fits, crate::proofs::Fractions::scaled_fits, crate::proofs::Fronts::fronts))]
fn put_fraction(out: &mut Vec<u8>, part: u64, places: u8) -> Result<(), AllocError>
    requires below { part < 2 ^ places }
    requires few { places ≤ 16 }
    ensures ok { OnOk result (out.new.items ≡ out.old.items ++ behind_point (fraction_digits places part)) }
    ensures err { OnErr result (KeepsFront out.old.items out.new.items) }
{
    let lowest = lowest_terms(part, places);
    if lowest.places == 0 {
        return Ok(());
    }
    out.push(b'.')?;
    put_padded(
        out,
        lowest.part * 5u64.pow(u32::from(lowest.places)),
        lowest.places,
    )
}

// The number `n / 2^places`.
#[tactic(auto, using(crate::proofs::Fronts::fronts), unfolding(crate::specs::NumberText::magnitude_text))]
fn put_magnitude(out: &mut Vec<u8>, n: u64, places: u8) -> Result<(), AllocError>
    requires { places ≤ 16 }
    ensures ok { OnOk result (out.new.items ≡ out.old.items ++ magnitude_text n places) }
    ensures err { OnErr result (KeepsFront out.old.items out.new.items) }
{
    let whole = 1u64 << places;
    append_number(out, n / whole)?;
    put_fraction(out, n % whole, places)
}

// The number `n / 2^places` with its sign.
#[tactic(auto, using(crate::proofs::Fronts::fronts))]
fn put_part(out: &mut Vec<u8>, n: i64, places: u8) -> Result<(), AllocError>
    requires { places ≤ 16 }
    ensures ok { OnOk result (out.new.items ≡ out.old.items ++ part_text n places) }
    ensures err { OnErr result (KeepsFront out.old.items out.new.items) }
{
    if n < 0 {
        out.push(b'-')?;
    }
    put_magnitude(out, n.unsigned_abs(), places)
}

// The root's part, `n / 2^places`, and `r2`.
#[tactic(auto, using(crate::proofs::Fronts::fronts))]
fn put_root(out: &mut Vec<u8>, n: u64, places: u8) -> Result<(), AllocError>
    requires { places ≤ 16 }
    ensures ok { OnOk result (out.new.items ≡ out.old.items ++ (magnitude_text n places ++ codes "r2")) }
    ensures err { OnErr result (KeepsFront out.old.items out.new.items) }
{
    put_magnitude(out, n, places)?;
    out.extend_from_slice(b"r2")
}

// Both parts, or the one that is not zero.
#[tactic(auto, using(crate::proofs::Fronts::fronts))]
fn put_parts(out: &mut Vec<u8>, a: i64, b: i64, places: u8) -> Result<(), AllocError>
    requires { places ≤ 16 }
    ensures ok { OnOk result (out.new.items ≡ out.old.items ++ parts_text a b places) }
    ensures err { OnErr result (KeepsFront out.old.items out.new.items) }
{
    if b == 0 {
        return put_part(out, a, places);
    }
    if a == 0 {
        put_part(out, b, places)?;
        return out.extend_from_slice(b"r2");
    }
    put_part(out, a, places)?;
    out.push(if b < 0 { b'-' } else { b'+' })?;
    put_root(out, b.unsigned_abs(), places)
}

/// Appends a number as the shortest exact decimals of its two parts, as `12.5-0.25r2`. Want of memory leaves the
/// output as it was.
pub fn write_number(out: &mut Vec<u8>, n: &Surd) -> Result<(), AllocError>
    ensures ok { OnOk result (out.new.items ≡ out.old.items ++ number_text (number_of n.now)) }
    ensures shortest { IsShortestText n.now (number_text (number_of n.now)) }
    ensures err { OnErr result (out.new.items ≡ out.old.items) }
{
    let before = out.len();
    let written = put_number(out, n);
    all_or_nothing(out, before, written)
}

// The number, or a part of it before memory ran out.
#[tactic(auto, unfolding(crate::specs::NumberText::number_text))]
pub(crate) fn put_number(out: &mut Vec<u8>, n: &Surd) -> Result<(), AllocError>
    ensures ok { OnOk result (out.new.items ≡ out.old.items ++ number_text (number_of n.now)) }
    ensures err { OnErr result (KeepsFront out.old.items out.new.items) }
{
    let (a, b, places) = n.parts();
    put_parts(out, a, b, places)
}
