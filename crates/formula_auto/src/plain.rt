//! Kinds of formulas that are cached. Plain formulas name no set and have a step. Pairs are conjunctions of two sets. Short
//! formulas name no set and have few steps or none.
ghost use Rattle.std.specs.Prelude.{◌≡◌, ◌-◌, ◌<◌, ◌^◌, nat_lt, nat_le, length};
ghost use Rattle.lin_formula.specs.Tree.{steps, symbols};
ghost use Rattle.lin_formula.specs.TreeOf.{tree_of};
ghost use Rattle.formula_auto.specs.PlainParts as plain_parts;
ghost use Rattle.formula_auto.specs.MeetState as meet_state;
ghost use Rattle.formula_auto.specs.Short as short;

use lin_formula::Formula;

/// The maximum number of steps of a short formula.
pub const MOST_SHORT_STEPS: u32 = 8;

/// Returns whether a formula names no set and has a step. Recurses one call per level.
pub fn is_plain(f: &Formula) -> bool
    ensures { result ≡ plain_parts.is_plain (tree_of f.now) }
{
    !names_set(f) && has_step(f)
}

/// Returns the number of steps of a formula.
pub fn steps_of(f: &Formula) -> u32
    requires { length (steps (tree_of f.now)) < 2 ^ 32 }
    ensures { result ≡ length (steps (tree_of f.now)) }
{
    match f {
        Formula::Lin { .. } => 0,
        Formula::Value { .. } => 0,
        Formula::Among { .. } => 0,
        Formula::Not(g) => steps_of(g),
        Formula::And(g, h) => steps_of(g) + steps_of(h) + 1,
        Formula::Or(g, h) => steps_of(g) + steps_of(h) + 1,
        Formula::Ex { body, .. } => steps_of(body) + 1,
    }
}

/// Returns whether a formula names a set.
pub fn names_set(f: &Formula) -> bool
    ensures { result ≡ nat_lt 0 (length (symbols (tree_of f.now))) }
{
    match f {
        Formula::Lin { .. } => false,
        Formula::Value { .. } => false,
        Formula::Among { .. } => true,
        Formula::Not(g) => names_set(g),
        Formula::And(g, h) => names_set(g) || names_set(h),
        Formula::Or(g, h) => names_set(g) || names_set(h),
        Formula::Ex { body, .. } => names_set(body),
    }
}

/// Returns whether a formula has a step.
pub fn has_step(f: &Formula) -> bool
    ensures { result ≡ nat_lt 0 (length (steps (tree_of f.now))) }
{
    match f {
        Formula::Lin { .. } => false,
        Formula::Value { .. } => false,
        Formula::Among { .. } => false,
        Formula::Not(g) => has_step(g),
        Formula::And(_, _) => true,
        Formula::Or(_, _) => true,
        Formula::Ex { .. } => true,
    }
}

/// Returns whether a formula is a conjunction of two sets.
pub fn is_pair(f: &Formula) -> bool
    ensures { result ≡ meet_state.is_pair (tree_of f.now) }
{
    match f {
        Formula::And(g, h) => is_among(g) && is_among(h),
        _ => false,
    }
}

fn is_among(f: &Formula) -> bool
    ensures { result ≡ meet_state.is_among (tree_of f.now) }
{
    matches!(f, Formula::Among { .. })
}

/// Returns whether a formula names no set and has at most `MOST_SHORT_STEPS` steps. Visits few of its parts.
pub fn is_short(f: &Formula) -> bool
    ensures { result ≡ short.is_short (tree_of f.now) }
{
    has_few_steps(f) && !names_set(f)
}

fn has_few_steps(f: &Formula) -> bool
    ensures { result ≡ nat_le (length (steps (tree_of f.now))) MOST_SHORT_STEPS }
{
    room_after(f, MOST_SHORT_STEPS + 1) > 0
}

/// Subtracts the number of steps from `room`; returns 0 if they are more.
fn room_after(f: &Formula, room: u32) -> u32
    ensures { result ≡ room - length (steps (tree_of f.now)) }
{
    if room == 0 {
        return 0;
    }
    match f {
        Formula::Lin { .. } => room,
        Formula::Value { .. } => room,
        Formula::Among { .. } => room,
        Formula::Not(g) => room_after(g, room),
        Formula::And(g, h) => room_after(h, room_after(g, room - 1)),
        Formula::Or(g, h) => room_after(h, room_after(g, room - 1)),
        Formula::Ex { body, .. } => room_after(body, room - 1),
    }
}
