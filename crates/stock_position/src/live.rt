//! The live men of a position.

ghost use Rattle.std.specs.Prelude.{◌≡◌, ◌<◌, ◌≤◌, ◌+◌, ◌++◌, ◌∷◌, [], length, take, IfErr, IfOk};
ghost use Rattle.stock_position.specs.Live.{IsLiveRefusal, live_men, live_of};
ghost use Rattle.stock_position.specs.declared.live.TheConstants.{MOST_LISTED, MOST_STOCK};

use chess_game::{Kind, Man, Place, Position, Side};

/// The greatest number of men of a stock.
pub const MOST_STOCK: usize = 5;

/// The greatest number of men of a position.
const MOST_LISTED: usize = 8;

/// Why the live men are no stock.
#[derive(Clone, Copy, PartialEq, Eq)]
pub enum LiveCount {
    /// Fewer than two men are live.
    TooFew,
    /// More than five men are live.
    TooMany,
}

/// Stores a man after the first `count` ones.
fn store(men: &mut [Man; MOST_LISTED], count: usize, man: Man)
    requires { count < MOST_LISTED }
    ensures { take (count + 1) men.new ≡ take count men.old ++ man ∷ [] }
{
    men[count] = man;
}

/// Stores the live men in order, and returns their number.
fn list_live(p: &Position, men: &mut [Man; MOST_LISTED]) -> usize
    ensures men { take result men.new ≡ live_men p.now.men }
    ensures most { result ≤ MOST_LISTED }
{
    let mut count = 0;
    for i in 0..p.count() {
        let man = p.man(i + 1);
        if man.place != Place::Gone {
            store(men, count, man);
            count += 1;
        }
    }
    count
}

/// Returns the position of the live men alone, in order, if there are two to five of them.
pub fn live_position(p: &Position) -> Result<Position, LiveCount>
    ensures live { IfOk result (λ q. q ≡ live_of p.now) }
    ensures few { IfOk result (λ q. length q.men ≤ MOST_STOCK) }
    ensures refused { IfErr result (IsLiveRefusal p.now) }
{
    let unused = Man {
        side: Side::White,
        kind: Kind::King,
        place: Place::Gone,
    };
    let mut men = [unused; MOST_LISTED];
    let count = list_live(p, &mut men);
    let live = &men[..count];
    if live.len() > MOST_STOCK {
        return Err(LiveCount::TooMany);
    }
    match Position::new(live, p.turn()) {
        Some(position) => Ok(position),
        None => Err(LiveCount::TooFew),
    }
}
