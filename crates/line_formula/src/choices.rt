//! The options (move types) of a side in a mask.

ghost use Rattle.std.specs.Prelude.{◌≡◌, ◌↔◌, ◌≤◌, ◌++◌, Contains, IfOk, OnOk, length};
ghost use Rattle.rule_formula.specs.declared.opt.Opt.{Opt};
ghost use Rattle.rule_formula.specs.Meaning.{IsOptionOfSide};
ghost use Rattle.rule_formula.specs.Options.{captures_of, his_options, is_prey as prey_of, options_of, ray_options, rays_to};

use crate::men::{is_live, man_of};
use crate::scene::Force;
use chess_game::{MOST_CROWD, ray_count};
use game_rules::{Kind, Man};
use rule_formula::{Opt, is_king, is_side, serves_captures, serves_moves};
use std::alloc::{AllocError, Global};

/// A list of options.
type Opts = Vec<Opt>;

/// Returns whether the man with this number is a live enemy other than the king.
fn is_prey(men: &[Man], force: Force, number: u8) -> bool
    requires low { 1 ≤ number }
    requires high { number ≤ length men.now }
    requires few { length men.now ≤ MOST_CROWD }
    ensures { result ≡ prey_of men.now force.mask force.side number }
{
    let man = man_of(men, number);
    is_live(force.mask, number) && !is_side(man.side, force.side) && !is_king(man.kind)
}

fn push_captures(
    options: &mut Opts,
    men: &[Man],
    force: Force,
    man: u8,
    ray: u8,
) -> Result<(), AllocError>
    requires { length men.now ≤ MOST_CROWD }
    ensures { OnOk result
        (options.new.items ≡ options.old.items ++ captures_of men.now force.mask force.side man ray) }
{
    for n in 0..men.len() as u8 {
        let taken = n + 1;
        if is_prey(men, force, taken) {
            options.push(Opt { man, ray, taken })?;
        }
    }
    Ok(())
}

/// A man that may move, by his number and kind.
#[derive(Clone, Copy)]
struct Mover {
    man: u8,
    kind: Kind,
}

fn push_ray(
    options: &mut Opts,
    men: &[Man],
    force: Force,
    mover: Mover,
    ray: u8,
) -> Result<(), AllocError>
    requires { length men.now ≤ MOST_CROWD }
    ensures { OnOk result (options.new.items
        ≡ options.old.items ++ ray_options men.now force.mask force.side mover.kind mover.man ray) }
{
    let Mover { man, kind } = mover;
    if serves_moves(kind, ray) {
        options.push(Opt { man, ray, taken: 0 })?;
    }
    if serves_captures(kind, ray) {
        push_captures(options, men, force, man, ray)?;
    }
    Ok(())
}

fn push_rays(
    options: &mut Opts,
    men: &[Man],
    force: Force,
    mover: Mover,
    count: u8,
) -> Result<(), AllocError>
    requires { length men.now ≤ MOST_CROWD }
    ensures { OnOk result (options.new.items
        ≡ options.old.items ++ rays_to men.now force.mask force.side mover.kind mover.man count) }
{
    for ray in 0..count {
        push_ray(options, men, force, mover, ray)?;
    }
    Ok(())
}

fn push_man(
    options: &mut Opts,
    men: &[Man],
    force: Force,
    number: u8,
    man: Man,
) -> Result<(), AllocError>
    requires low { 1 ≤ number }
    requires high { number ≤ MOST_CROWD }
    requires few { length men.now ≤ MOST_CROWD }
    ensures { OnOk result
        (options.new.items ≡ options.old.items ++ his_options men.now force.mask force.side number man) }
{
    if !(is_live(force.mask, number) && is_side(man.side, force.side)) {
        return Ok(());
    }
    let mover = Mover {
        man: number,
        kind: man.kind,
    };
    push_rays(options, men, force, mover, ray_count(man.kind, man.side))
}

/// Returns the list.
fn list(alloc: Global, men: &[Man], force: Force) -> Result<Opts, AllocError>
    requires { length men.now ≤ MOST_CROWD }
    ensures { IfOk result (λ all. all.items ≡ options_of men.now force.mask force.side) }
{
    let mut options = Vec::new(alloc);
    for n in 0..men.len() as u8 {
        let number = n + 1;
        let man = man_of(men, number);
        push_man(&mut options, men, force, number, man)?;
    }
    Ok(options)
}

/// Returns the options of the side's men if the men of the mask are live, ordered by man, then by ray, then by captured man.
/// Errors: an allocation failed.
pub fn options(alloc: Global, men: &[Man], force: Force) -> Result<Vec<Opt>, AllocError>
    requires { length men.now ≤ MOST_CROWD }
    ensures list { IfOk result (λ all. all.items ≡ options_of men.now force.mask force.side) }
    ensures exact { IfOk result
        (λ all. (o : Opt) → Contains all.items o ↔ IsOptionOfSide men.now force.mask force.side o) }
{
    list(alloc, men, force)
}
