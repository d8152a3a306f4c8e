//! The position that stands for a stock.

ghost use Rattle.std.specs.Prelude.{◌≡◌, ◌<◌, ◌≤◌, Some, length, slice_get};
ghost use Rattle.stock_start.specs.Start as specs;

use chess_game::{Man, Place, Position, Side};
use chess_text::Draft;
use stock_text::{Stock, StockMan};

/// Returns the man on the square 0 0.
fn placed_man(man: StockMan) -> Man
    ensures { result ≡ specs.placed_man man }
{
    Man {
        side: man.side,
        kind: man.kind,
        place: Place::At { x: 0, y: 0 },
    }
}

/// Returns the man of this index.
fn man_of(men: &[StockMan], index: usize) -> StockMan
    requires { index < length men.now }
    ensures { slice_get men.now index ≡ Some result }
{
    men[index]
}

/// Returns the position that stands for the stock: its men in order, all on the square 0 0. Two men on one square are
/// not sound; a table asks for the sides and kinds of the men alone.
pub fn start_of(stock: &Stock, turn: Side) -> Position
    requires { 2 ≤ length stock.now.men }
    ensures { result ≡ specs.start_of stock.now turn }
{
    let men = stock.men();
    let mut draft = Draft::new(turn, stock.winner());
    for index in 0..men.len() {
        draft.push(placed_man(man_of(men, index)));
    }
    match Position::new(draft.men(), turn) {
        Some(position) => position,
        None => unreachable!(),
    }
}
