//! The text of an automaton's table.

ghost use Rattle.std.specs.Prelude.{◌≡◌, ◌<◌, ◌^◌, length};

use crate::tables::width_of;
use auto_core::Auto;
use trial_rows::Row;

/// Writes the states of the first row.
fn write_first(row: &mut Row, a: &Auto, width: u32)
    requires { width ≡ 2 ^ length a.now.tracks }
{
    for letter in 0..width {
        row.separate(letter as usize, ',');
        row.write_number(a.first_of(letter));
    }
}

/// Writes the states of a state's row.
fn write_next(row: &mut Row, a: &Auto, width: u32, state: u32)
    requires width { width ≡ 2 ^ length a.now.tracks }
    requires state { state < length a.now.accept }
{
    for letter in 0..width {
        row.separate(letter as usize, ',');
        row.write_number(a.next_of(state, letter));
    }
}

/// Writes the rows of the states.
fn write_rows(row: &mut Row, a: &Auto, width: u32)
    requires { width ≡ 2 ^ length a.now.tracks }
{
    for state in 0..a.states() {
        row.separate(state as usize, '/');
        write_next(row, a, width, state);
    }
}

/// Writes the flags of the states.
fn write_flags(row: &mut Row, a: &Auto) {
    for state in 0..a.states() {
        row.write_mark(if a.accept_of(state) { '1' } else { '0' });
    }
}

/// Runs `table A`: the first row, the rows of the states, and their flags.
pub fn write_table(row: &mut Row, a: &Auto) {
    let width = width_of(a.tracks().len()) as u32;
    row.write("first ");
    write_first(row, a, width);
    row.write(" next ");
    write_rows(row, a, width);
    row.write(" flags ");
    write_flags(row, a);
}
