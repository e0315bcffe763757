//! Corners of a new sheet: the first bad one, and the least one.

ghost use Rattle.std.specs.Prelude.{◌≡◌, ◌<◌, ◌≤◌, length, None, IfOk, IsTrue, IsFalse, MatchOption};
ghost use Rattle.std.specs.Option.{option_map};
ghost use Rattle.plane_geometry.specs.DirView.{dir_number};
ghost use Rattle.plane_geometry.specs.Polygon.{turn_of};
ghost use Rattle.crease_model.specs.NewSheet.{side_directions, last_direction, is_bad_turn, turn_between, sheet_fault, least_place, from_least};

use plane_geometry::{Dir, Point, direction, next_corner};
use std::alloc::{AllocError, Global};

// The turn at a corner, None where it is bad; 0 where the side before has no direction.
fn turn_at(before: Option<Dir>, after: Option<Dir>) -> Option<u8>
    ensures { MatchOption result
        (IsTrue (is_bad_turn (option_map dir_number before) (option_map dir_number after)))
        (λ turn. IsFalse (is_bad_turn (option_map dir_number before) (option_map dir_number after))
        × (turn ≡ turn_between (option_map dir_number before) (option_map dir_number after))
        × (turn ≤ 7)) }
{
    match (before, after) {
        (_, None) => None,
        (None, Some(_)) => Some(0),
        (Some(before), Some(after)) => {
            let turn = before.turn_to(after);
            if turn < 1 || turn > 7 {
                None
            } else {
                Some(turn)
            }
        }
    }
}

// The direction of the side from the last corner to the first.
fn last_direction(corners: &[Point]) -> Option<Dir>
    requires { 0 < length corners.now }
    ensures { option_map dir_number result ≡ last_direction None (side_directions corners.now) }
{
    direction(&corners[corners.len() - 1], &corners[0])
}

/// The number of the first bad corner, counted from 1; 0 where none is bad and the turns don't add to 16.
pub fn fault_of(corners: &[Point]) -> Option<u32>
    requires least { 3 ≤ length corners.now }
    requires most { length corners.now ≤ 16 }
    ensures { result ≡ sheet_fault corners.now }
{
    let mut before = last_direction(corners);
    let mut turns = 0;
    for (i, start) in corners.iter().enumerate() {
        let after = direction(start, next_corner(corners, i));
        match turn_at(before, after) {
            Some(turn) => turns += turn,
            None => return Some(i as u32 + 1),
        }
        before = after;
    }
    if turns == 16 { None } else { Some(0) }
}

// The index of the first least corner.
fn least_corner(corners: &[Point]) -> usize
    requires { 0 < length corners.now }
    ensures value { result ≡ least_place corners.now }
    ensures within { result < length corners.now }
{
    let mut least = 0;
    for i in 1..corners.len() {
        if corners[i].cmp(&corners[least]).is_lt() {
            least = i;
        }
    }
    least
}

/// The corners from the first least one on, and then those before it.
pub fn rotated(alloc: Global, corners: &[Point]) -> Result<Vec<Point>, AllocError>
    requires { 0 < length corners.now }
    ensures { IfOk result (λ all. all.items ≡ from_least corners.now) }
{
    let least = least_corner(corners);
    let mut all = Vec::with_capacity(alloc, corners.len())?;
    all.extend_from_slice(&corners[least..])?;
    all.extend_from_slice(&corners[..least])?;
    Ok(all)
}
