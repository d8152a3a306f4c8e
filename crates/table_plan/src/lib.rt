//! The plan of a table: the named steps by which the sets of all positions of a stock of men are computed, row by row, from which
//! the winner mates within 0, 1, 2, .. moves. All sets have the loser's king on 0 0; other positions are translations of these.
//! `specs/Table` has the steps, and `specs/TableMeans` the laws: each row decides all positions of the stock, and where a row wins
//! no more than the one before it, no number of moves does.
#![tactic(auto)]

pub mod laws;
