//! The test program `game_trials`: tests positions, moves, ports, solvers and games.
//!
//! It performs a script of rows from the standard input and writes the result of each row. The rows make calls that no
//! command of the program `mate` makes. `docs/TESTING.md` describes the rows.
#![tactic(auto)]

mod kings;
mod ports;
mod positions;
mod sessions;
mod solving;

use chess_game::Position;
use ports::{put_row, shelf_row, sink_row};
use positions::{of_position, position_row, ray_row, reply_row};
use std::process::ExitCode;
use trial_rows::{Named, Row, RowError, RowInterpreter, answer_script};

/// The positions that rows have named.
#[derive(Drop)]
struct Games {
    positions: Named<Position>,
}

impl RowInterpreter for Games {
    fn answer(&mut self, kind: &str, row: &mut Row) -> Result<(), RowError> {
        match kind {
            "position" => position_row(&mut self.positions, row),
            "ray" => ray_row(row),
            "reply" => reply_row(row),
            "sink" => sink_row(row),
            "put" => put_row(row),
            "shelf" => shelf_row(row),
            _ => of_position(&self.positions, kind, row),
        }
    }
}

fn main(rt: HostRuntime) -> ExitCode {
    let mut games = Games {
        positions: Named::new(rt.alloc()),
    };
    answer_script(&rt, &mut games)
}
