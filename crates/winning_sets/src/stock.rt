//! Positions with the same material.
ghost use Rattle.std.specs.Prelude.{◌≡◌, ◌↔◌, IsTrue};
ghost use Rattle.game_laws.specs.Stock.{HasStock};

use chess_game::{Man, Position};

/// Whether two men differ in their places alone.
fn is_same_man(m: Man, n: Man) -> bool
    ensures { IsTrue result ↔ ((n.side ≡ m.side) × (n.kind ≡ m.kind)) }
{
    n.side == m.side && n.kind == m.kind
}

/// Returns whether the positions differ at most in the places of the men and in the turn.
pub(crate) fn has_stock(stock: &Position, p: &Position) -> bool
    ensures { IsTrue result ↔ HasStock stock.now.men p.now }
{
    if p.count() != stock.count() {
        return false;
    }
    for n in 0..p.count() {
        if !is_same_man(stock.man(n + 1), p.man(n + 1)) {
            return false;
        }
    }
    true
}
