//! Operations on lists of tracks.
ghost use Rattle.std.specs.Prelude.{◌≡◌, ◌≢◌, ◌↔◌, ◌≤◌, ◌<◌, length, map, AllPairs, IsTrue, IfOk, OnOk};
ghost use Rattle.track_word.specs.Tracks.{with_var, with_vars, without_var, place};

use crate::tracks::Var;
use std::alloc::{AllocError, Global};

/// Inserts a track into a list in ascending order, unless the list contains it. Costs the length of the list.
pub fn insert_track(tracks: &mut Vec<Var>, track: Var) -> Result<(), AllocError>
    ensures { OnOk result (tracks.new.items ≡ with_var track tracks.old.items) }
{
    for at in 0..tracks.len() {
        if track < tracks[at] {
            tracks.insert(at, track)?;
            return Ok(());
        }
        if track == tracks[at] {
            return Ok(());
        }
    }
    tracks.push(track)?;
    Ok(())
}

/// Inserts tracks, given in any order, into a list in ascending order, each unless the list contains it.
pub fn insert_tracks(tracks: &mut Vec<Var>, more: &[Var]) -> Result<(), AllocError>
    ensures { OnOk result (tracks.new.items ≡ with_vars more.now tracks.old.items) }
{
    for track in more.iter().rev().copied() {
        insert_track(tracks, track)?;
    }
    Ok(())
}

/// Removes a track from a list.
pub fn remove_track(tracks: &mut Vec<Var>, track: Var)
    ensures { tracks.new.items ≡ without_var track tracks.old.items }
{
    tracks.retain(|other| other.0 != track.0);
}

/// Returns the index of a track in a list, or the length of the list if it does not contain the track.
pub fn place_of(tracks: &[Var], track: Var) -> usize
    ensures place { result ≡ place tracks.now track }
    ensures within { result ≤ length tracks.now }
{
    for (index, other) in tracks.iter().enumerate() {
        if other.0 == track.0 {
            return index;
        }
    }
    tracks.len()
}

/// Returns the index of each track of `some` in `tracks`, or the length of `tracks` for a track that it does not contain.
pub fn places_of(alloc: Global, tracks: &[Var], some: &[Var]) -> Result<Vec<u8>, AllocError>
    requires { length tracks.now < 256 }
    ensures { IfOk result (λ places. places.items ≡ map (place tracks.now) some.now) }
{
    let mut places = Vec::new(alloc);
    for track in some {
        let place = place_of(tracks, *track);
        places.push(place as u8)?;
    }
    Ok(places)
}

/// Returns whether no track occurs twice.
pub fn are_distinct(tracks: &[Var]) -> bool
    ensures { IsTrue result ↔ AllPairs (λ x y. x ≢ y) tracks.now }
{
    match tracks.split_first() {
        None => true,
        Some((track, rest)) => {
            if rest.contains(track) {
                return false;
            }
            are_distinct(rest)
        }
    }
}
