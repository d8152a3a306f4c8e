//! Stocks of men.

ghost use Rattle.std.specs.Prelude.{◌≡◌, ◌<◌, ◌≤◌, length};
ghost use Rattle.stock_text.specs.Stock.{no_men, with_man};
ghost use Rattle.stock_position.specs.declared.live.TheConstants.{MOST_STOCK};

use chess_game::{Kind, Side};
use std::marker::Model;
use stock_position::MOST_STOCK;

/// A man of a stock: his side and his kind. He stands on no square.
#[derive(Clone, Copy, PartialEq, Eq)]
pub struct StockMan {
    pub side: Side,
    pub kind: Kind,
}

/// A stock: the winner, the side that is to mate, and up to [`MOST_STOCK`] men in order.
#[derive(Drop)]
pub struct Stock {
    winner: Side,
    men: [StockMan; MOST_STOCK],
    count: usize,
}

impl Model for Stock {
    ghost use Rattle.std.specs.Prelude.{take};
    ghost use Rattle.stock_text.specs.Stock.{Stock as Says};

    ghost Value = { Says };

    ghost view = { λ s. record { winner = s.winner; men = take s.count s.men } };

    ghost use Rattle.stock_text.specs.Storage.{IsTidy};

    ghost invariant = { IsTidy };
}

impl Stock {
    /// Creates a stock without men.
    pub fn new(winner: Side) -> Self
        ensures { result ≡ no_men winner }
    {
        let unused = StockMan {
            side: Side::White,
            kind: Kind::King,
        };
        Stock {
            winner,
            men: [unused; MOST_STOCK],
            count: 0,
        }
    }

    /// Adds a man after the others.
    pub fn push(&mut self, man: StockMan)
        requires { length self.old.men < MOST_STOCK }
        ensures { self.new ≡ with_man self.old man }
    {
        self.men[self.count] = man;
        self.count += 1;
    }

    /// Returns the men in order.
    pub fn men(&self) -> &[StockMan]
        ensures men { result.now ≡ self.now.men }
        ensures most { length result.now ≤ MOST_STOCK }
    {
        &self.men[..self.count]
    }

    /// Returns the winner.
    pub fn winner(&self) -> Side
        ensures { result ≡ self.now.winner }
    {
        self.winner
    }
}
