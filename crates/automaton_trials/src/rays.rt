//! Searches along rays.

ghost use Rattle.std.specs.Prelude.{◌≡◌, ◌≤◌, IfOk, IsTrue, length};
ghost use Rattle.auto_core.specs.Integers.{DecidesIntegers};
ghost use Rattle.auto_search.specs.TupleRay.{IsTupleRay};

use crate::reduced_auto::check_stable;
use auto_core::Auto;
use auto_search::{Few, Search, TupleRay};
use std::alloc::Global;
use trial_rows::{Row, RowError, number};

/// The greatest distance of a query.
const MOST_DISTANCE: u128 = 1 << 64;

/// The greatest number of states that room is reserved for.
const MOST_RESERVED: u32 = 400000;

/// Whether a ray steps by at most two on each of two different tracks.
fn is_tuple_ray(way: &TupleRay) -> bool
    ensures { IsTrue result → IsTupleRay way.now }
{
    let tracks = way.fixed.len();
    if way.x_track as usize >= tracks || way.y_track as usize >= tracks {
        return false;
    }
    if way.x_track == way.y_track {
        return false;
    }
    if way.dx < -2 || way.dx > 2 {
        return false;
    }
    way.dy >= -2 && way.dy <= 2
}

/// A ray through a tuple of an automaton's tracks: the next two fields are the places of the two tracks that it moves on, and what a step adds
/// there.
fn ray_through<'a>(fixed: &'a [i64], a: &Auto, row: &mut Row) -> Result<TupleRay<'a>, RowError>
    ensures count { IfOk result (λ way. length way.fixed.now ≡ length a.now.tracks) }
    ensures way { IfOk result IsTupleRay }
{
    let tracks = row.numbers()?;
    let slopes = row.numbers()?;
    let (&[x_track, y_track], &[dx, dy]) = (tracks.as_slice(), slopes.as_slice()) else {
        return Err(RowError::Word);
    };
    let way = TupleRay {
        fixed,
        x_track,
        y_track,
        dx,
        dy,
    };
    if !is_tuple_ray(&way) || fixed.len() != a.tracks().len() {
        return Err(RowError::Condition);
    }
    Ok(way)
}

/// Writes the least distance of those that the next fields bound.
fn ask_least(search: &mut Search, a: &Auto, way: &TupleRay, row: &mut Row) -> Result<(), RowError>
    requires decides { DecidesIntegers a.now }
    requires room { length a.now.accept ≤ search.old }
    requires count { length way.now.fixed.now ≡ length a.now.tracks }
    requires way { IsTupleRay way.now }
    ensures kept { search.new ≡ search.old }
{
    let (near, far) = row.two_numbers::<u128, u128>()?;
    if far > MOST_DISTANCE {
        return Err(RowError::Condition);
    }
    match search.least_on_ray(a, way, near, far) {
        Some(distance) => row.write_number(distance),
        None => row.write("none"),
    }
    Ok(())
}

/// Writes how many there are.
fn write_few(row: &mut Row, few: Few) {
    row.write(match few {
        Few::Zero => "zero",
        Few::One => "one",
        Few::More => "more",
    });
}

/// Writes the result of a query along a ray.
fn ask_along(
    search: &mut Search,
    a: &Auto,
    way: &TupleRay,
    question: &str,
    row: &mut Row,
) -> Result<(), RowError>
    requires decides { DecidesIntegers a.now }
    requires room { length a.now.accept ≤ search.old }
    requires count { length way.now.fixed.now ≡ length a.now.tracks }
    requires way { IsTupleRay way.now }
    ensures kept { search.new ≡ search.old }
{
    match question {
        "least" => return ask_least(search, a, way, row),
        "count" => write_few(row, search.count_on_ray(a, way)),
        _ => return Err(RowError::Word),
    }
    Ok(())
}

/// The next question about a set: `least FIXED TRACKS SLOPES NEAR FAR` or `count FIXED TRACKS SLOPES`.
fn ask(search: &mut Search, a: &Auto, row: &mut Row) -> Result<(), RowError>
    requires decides { DecidesIntegers a.now }
    requires room { length a.now.accept ≤ search.old }
    ensures kept { search.new ≡ search.old }
{
    let question = row.word()?;
    let fixed = row.numbers()?;
    let way = ray_through(fixed.as_slice(), a, row)?;
    ask_along(search, a, &way, question, row)
}

/// Writes the results of the remaining queries, by one search.
fn ask_all(search: &mut Search, a: &Auto, row: &mut Row) -> Result<(), RowError>
    requires decides { DecidesIntegers a.now }
    requires room { length a.now.accept ≤ search.old }
{
    for turn in 0..u8::MAX {
        if row.is_done() {
            break;
        }
        row.separate(turn as usize, ' ');
        ask(search, a, row)?;
    }
    Ok(())
}

/// A search for the set of an automaton that has no more states than there is to be room for.
fn reserved(alloc: Global, states: &str, a: &Auto) -> Result<Search, RowError>
    ensures decides { IfOk result (λ _. DecidesIntegers a.now) }
    ensures room { IfOk result (λ search. length a.now.accept ≤ search) }
{
    check_stable(alloc, a)?;
    let states = number(states)?;
    if states > MOST_RESERVED || a.states() > states {
        return Err(RowError::Condition);
    }
    Ok(Search::reserve(alloc, states)?)
}

/// Runs `rays STATES A QUESTION ..`: the results of one search, which has room for `STATES` states.
pub fn write_rays(row: &mut Row, a: &Auto, states: &str) -> Result<(), RowError> {
    let mut search = reserved(row.alloc, states, a)?;
    ask_all(&mut search, a, row)
}
