//! The attack directions of the men of a side against the other side's king.

ghost use Rattle.std.specs.Prelude.{◌≡◌, ◌≤◌, ◌++◌, IfOk, OnOk, Some, length};
ghost use Rattle.rule_formula.specs.Bearings.{along_rays, bearings_of, is_king_man, king_number as number_of_king, king_to, man_bearings};

use crate::men::{is_live, man_of};
use crate::scene::Force;
use chess_game::{MOST_CROWD, ray_count};
use game_rules::{Kind, Man, Side};
use rule_formula::{Bearing, is_king, is_side, serves_captures};
use std::alloc::{AllocError, Global};

/// A list of attack directions.
type Bearings = Vec<Bearing>;

/// Returns whether the man is the king of the side.
fn is_king_of(man: Man, side: Side) -> bool
    ensures { result ≡ is_king_man side (Some man) }
{
    is_side(man.side, side) && is_king(man.kind)
}

/// Returns the number of the side's king, or 0.
fn king_number(men: &[Man], side: Side) -> u8
    requires { length men.now ≤ MOST_CROWD }
    ensures { result ≡ number_of_king men.now side }
{
    king_among(men, side, men.len() as u8)
}

/// Returns the number of the last king of the side among the first men, or 0.
fn king_among(men: &[Man], side: Side, count: u8) -> u8
    requires { count ≤ length men.now }
    ensures { result ≡ king_to men.now side count }
{
    if count == 0 {
        0
    } else if is_king_of(man_of(men, count), side) {
        count
    } else {
        king_among(men, side, count - 1)
    }
}

fn push_rays(
    bearings: &mut Bearings,
    kind: Kind,
    man: u8,
    king: u8,
    count: u8,
) -> Result<(), AllocError>
    ensures { OnOk result (bearings.new.items ≡ bearings.old.items ++ along_rays kind man king count) }
{
    for ray in 0..count {
        if serves_captures(kind, ray) {
            bearings.push(Bearing { man, ray, king })?;
        }
    }
    Ok(())
}

fn push_man(
    bearings: &mut Bearings,
    force: Force,
    king: u8,
    number: u8,
    man: Man,
) -> Result<(), AllocError>
    requires low { 1 ≤ number }
    requires high { number ≤ MOST_CROWD }
    ensures { OnOk result
        (bearings.new.items ≡ bearings.old.items ++ man_bearings force.mask force.side king number (Some man)) }
{
    if !(is_live(force.mask, number) && is_side(man.side, force.side)) {
        return Ok(());
    }
    let count = ray_count(man.kind, man.side);
    push_rays(bearings, man.kind, number, king, count)
}

/// Returns the possible attacks of the side's men on the other side's king if the men of the mask are live, ordered by man and then
/// by ray. Errors: an allocation failed.
pub fn bearings(alloc: Global, men: &[Man], force: Force) -> Result<Vec<Bearing>, AllocError>
    requires { length men.now ≤ MOST_CROWD }
    ensures { IfOk result (λ all. all.items ≡ bearings_of men.now force.mask force.side) }
{
    let king = king_number(men, force.side.other());
    let mut bearings = Vec::new(alloc);
    if king == 0 {
        return Ok(bearings);
    }
    for n in 0..men.len() as u8 {
        let number = n + 1;
        let man = man_of(men, number);
        push_man(&mut bearings, force, king, number, man)?;
    }
    Ok(bearings)
}
