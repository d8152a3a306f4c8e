//! The options (move types) of a side in a mask.

ghost use Rattle.std.specs.Prelude.{◌≡◌, ◌↔◌, ◌≤◌, ◌++◌, Contains, IfOk, OnOk, length};
ghost use Rattle.game_rules.specs.Rays.{serves_captures as captures, serves_moves as moves};
ghost use Rattle.rule_formula.specs.declared.opt.Opt.{Opt};
ghost use Rattle.rule_formula.specs.Meaning.{IsOptionOfSide};
ghost use Rattle.rule_formula.specs.Options.{captures_of, his_options, is_king as king_of, is_prey as prey_of, is_side as side_of, options_of, ray_options, rays_to};

use crate::opt::Opt;
use crate::stock::{Force, is_live, man_of};
use chess_game::{Position, ray_count};
use game_rules::{Kind, Man, Side};
use std::alloc::{AllocError, Global};

/// A list of options, mostly short.
type Opts = Vec<Opt>;

/// Returns whether both are one side.
pub fn is_side(his: Side, side: Side) -> bool
    ensures { result ≡ side_of his side }
{
    his == side
}

/// Returns whether the kind is the king.
pub fn is_king(kind: Kind) -> bool
    ensures { result ≡ king_of kind }
{
    kind == Kind::King
}

/// Returns whether the ray with this number allows moves onto an empty square.
pub fn serves_moves(kind: Kind, number: u8) -> bool
    ensures { result ≡ moves kind number }
{
    match kind {
        Kind::Pawn => number == 0,
        _ => true,
    }
}

/// Returns whether the ray with this number allows captures.
pub fn serves_captures(kind: Kind, number: u8) -> bool
    ensures { result ≡ captures kind number }
{
    match kind {
        Kind::Pawn => number != 0,
        _ => true,
    }
}

/// Returns whether the man with this number is a live enemy other than the king.
fn is_prey(stock: &Position, force: Force, number: u8) -> bool
    requires low { 1 ≤ number }
    requires high { number ≤ length stock.now.men }
    requires few { number ≤ 8 }
    ensures { result ≡ prey_of stock.now.men force.mask force.side number }
{
    let man = man_of(stock, number);
    is_live(force.mask, number) && !is_side(man.side, force.side) && !is_king(man.kind)
}

fn push_captures(
    options: &mut Opts,
    stock: &Position,
    force: Force,
    man: u8,
    ray: u8,
) -> Result<(), AllocError>
    ensures { OnOk result
        (options.new.items ≡ options.old.items ++ captures_of stock.now.men force.mask force.side man ray) }
{
    for n in 0..stock.count() {
        let taken = n + 1;
        if is_prey(stock, force, taken) {
            options.push(Opt { man, ray, taken })?;
        }
    }
    Ok(())
}

/// A man that may move, by his number and kind.
#[derive(Clone, Copy)]
struct Mover {
    man: u8,
    kind: Kind,
}

fn push_ray(
    options: &mut Opts,
    stock: &Position,
    force: Force,
    mover: Mover,
    ray: u8,
) -> Result<(), AllocError>
    ensures { OnOk result (options.new.items
        ≡ options.old.items ++ ray_options stock.now.men force.mask force.side mover.kind mover.man ray) }
{
    let Mover { man, kind } = mover;
    if serves_moves(kind, ray) {
        options.push(Opt { man, ray, taken: 0 })?;
    }
    if serves_captures(kind, ray) {
        push_captures(options, stock, force, man, ray)?;
    }
    Ok(())
}

fn push_rays(
    options: &mut Opts,
    stock: &Position,
    force: Force,
    mover: Mover,
    count: u8,
) -> Result<(), AllocError>
    ensures { OnOk result (options.new.items
        ≡ options.old.items ++ rays_to stock.now.men force.mask force.side mover.kind mover.man count) }
{
    for ray in 0..count {
        push_ray(options, stock, force, mover, ray)?;
    }
    Ok(())
}

fn push_man(
    options: &mut Opts,
    stock: &Position,
    force: Force,
    number: u8,
    man: Man,
) -> Result<(), AllocError>
    requires low { 1 ≤ number }
    requires high { number ≤ 8 }
    ensures { OnOk result
        (options.new.items ≡ options.old.items ++ his_options stock.now.men force.mask force.side number man) }
{
    if !(is_live(force.mask, number) && is_side(man.side, force.side)) {
        return Ok(());
    }
    let mover = Mover {
        man: number,
        kind: man.kind,
    };
    push_rays(options, stock, force, mover, ray_count(man.kind, man.side))
}

/// Returns the list.
fn list(alloc: Global, stock: &Position, force: Force) -> Result<Opts, AllocError>
    ensures list { IfOk result (λ all. all.items ≡ options_of stock.now.men force.mask force.side) }
    ensures few { length stock.now.men ≤ 8 }
{
    let mut options = Vec::new(alloc);
    for n in 0..stock.count() {
        let number = n + 1;
        let man = man_of(stock, number);
        push_man(&mut options, stock, force, number, man)?;
    }
    Ok(options)
}

/// Returns the options of the side's men if the men of the mask are live, ordered by man, then by ray, then by captured man.
pub fn options(
    alloc: Global,
    stock: &Position,
    mask: u8,
    side: Side,
) -> Result<Vec<Opt>, AllocError>
    ensures list { IfOk result (λ all. all.items ≡ options_of stock.now.men mask side) }
    ensures exact { IfOk result (λ all. (o : Opt) → Contains all.items o ↔ IsOptionOfSide stock.now.men mask side o) }
    ensures few { IfOk result (λ all. length all.items ≤ 1000) }
{
    list(alloc, stock, Force { mask, side })
}
