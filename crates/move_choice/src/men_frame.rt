//! A frame that contains all men: a man who is not met in it is not met at all.
ghost use Rattle.std.specs.Prelude.{◌≡◌, Some};
ghost use Rattle.game_rules.specs.Game.{place_square};
ghost use Rattle.game_rules.specs.declared.men.Square.{Square};
ghost use Rattle.chess_game.specs.Way.{IsInside};
ghost use Rattle.move_choice.specs.Aims.{HoldsMen};

use chess_game::{Frame, Place, Position};

/// The frame, made wide enough for the place.
fn widened(frame: Frame, place: Place) -> Frame
    ensures kept { (z : Square) → IsInside frame z → IsInside result z }
    ensures added { (z : Square) → place_square place ≡ Some z → IsInside result z }
{
    match place {
        Place::Gone => frame,
        Place::At { x, y } => Frame {
            x_low: frame.x_low.min(x),
            x_high: frame.x_high.max(x),
            y_low: frame.y_low.min(y),
            y_high: frame.y_high.max(y),
        },
    }
}

/// Returns a frame that contains all live men.
pub(crate) fn frame_of_men(p: &Position) -> Frame
    ensures { HoldsMen result p.now }
{
    let mut frame = Frame {
        x_low: 0,
        x_high: 0,
        y_low: 0,
        y_high: 0,
    };
    for n in 0..p.count() {
        frame = widened(frame, p.man(n + 1).place);
    }
    frame
}
