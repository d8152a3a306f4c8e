//! The formula of one position.

ghost use Rattle.std.specs.Prelude.{◌≡◌, ◌≤◌, [], IfOk, Some, length};
ghost use Rattle.lin_formula.specs.TreeOf.{tree_of};
ghost use Rattle.game_rules.specs.Game.{place_square};
ghost use Rattle.rule_formula.specs.Trees.{and_maybe as and_tree, maybe_tree, point_of, with_square as square_tree};
ghost use Rattle.rule_formula.specs.Meaning.{HasLiveMan, IsPoint};
ghost use Rattle.rule_formula.specs.Size.{IsModest};
ghost use Rattle.lin_formula.specs.Tree.{memberships};
ghost use Rattle.lin_formula.specs.Tree as tree;

use crate::atoms::both;
use crate::seats::{Seat, own};
use crate::stock::man_of;
use chess_game::Position;
use game_rules::Place;
use lin_formula::{Formula, value};
use std::alloc::{AllocError, Global};

/// Returns the conjunction, or the second formula if there is no first.
fn and_maybe(alloc: Global, first: Option<Formula>, second: Formula) -> Result<Formula, AllocError>
    ensures { IfOk result (λ f. tree_of f ≡ and_tree (maybe_tree first) (tree_of second)) }
{
    match first {
        Some(first) => both(alloc, first, second),
        None => Ok(second),
    }
}

/// Adds that the place is that of the seat, if it is a square.
fn with_place(
    alloc: Global,
    chain: Option<Formula>,
    seat: Seat,
    place: Place,
) -> Result<Option<Formula>, AllocError>
    ensures { IfOk result (λ all. maybe_tree all ≡ square_tree (maybe_tree chain) seat (place_square place)) }
{
    match place {
        Place::Gone => Ok(chain),
        Place::At { x, y } => {
            let across = and_maybe(alloc, chain, value(seat.x, x))?;
            Ok(Some(both(alloc, across, value(seat.y, y))?))
        }
    }
}

/// Returns the formula of the places of the live men, if there are any.
fn places(alloc: Global, p: &Position) -> Result<Option<Formula>, AllocError>
    ensures tree { IfOk result (λ all. maybe_tree all ≡ point_of p.now.men) }
    ensures few { IfOk result (λ all. length p.now.men ≤ 8) }
{
    let mut chain = None;
    for n in 0..p.count() {
        let number = n + 1;
        let place = man_of(p, number).place;
        chain = with_place(alloc, chain, own(number), place)?;
    }
    Ok(chain)
}

/// Returns the formula that is true only for the position's places.
pub fn point_formula(alloc: Global, p: &Position) -> Result<Formula, AllocError>
    requires { HasLiveMan p.now }
    ensures tree { IfOk result (λ f. point_of p.now.men ≡ Some (tree_of f)) }
    ensures means { IfOk result (λ f. IsPoint p.now.men (tree_of f)) }
    ensures modest { IfOk result (λ f. IsModest (tree_of f)) }
    ensures names { IfOk result (λ f. memberships (tree_of f) ≡ []) }
{
    match places(alloc, p)? {
        Some(f) => Ok(f),
        None => unreachable!(),
    }
}
