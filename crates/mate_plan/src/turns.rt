//! Whose turn it is.
ghost use Rattle.std.specs.Prelude.{◌≡◌, ◌≤◌};
ghost use Rattle.mate_plan.specs.Turns.{plies_before_turn as plies};

use game_rules::Side;

/// Returns how many plies pass before the side's first turn: 0 or 1.
pub fn plies_before_turn(side: Side, first: Side) -> u8
    ensures plies { result ≡ plies side first }
    ensures most { result ≤ 1 }
{
    match (side, first) {
        (Side::White, Side::White) | (Side::Black, Side::Black) => 0,
        (Side::White, Side::Black) | (Side::Black, Side::White) => 1,
    }
}
