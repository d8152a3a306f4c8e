//! The line of a ray.

ghost use Rattle.std.specs.Prelude.{◌≡◌, ◌≤◌, ◌++◌, OnOk, codes};
ghost use Rattle.std.specs.Fmt.{decimal, signed_decimal};
ghost use Rattle.desk_describe.specs.Description.{description_text, periodic_text, ray_line};

use crate::description::Description;
use crate::lists::{push_rests, push_runs};
use chess_game::Ray;
use chess_text::line_buffer::LineBuffer;
use desk_report::push_large;
use period_sets::Periodic;
use std::alloc::{AllocError, Global};

/// Appends the line of a man's ray.
pub(crate) fn push_ray_line(
    alloc: Global,
    text: &mut Vec<u8>,
    man: u8,
    step: Ray,
    description: &Description,
) -> Result<(), AllocError>
    ensures { OnOk result (text.new.items ≡ text.old.items ++ ray_line man step description.now) }
{
    text.extend_from_slice(ray_front(man, step).as_slice())?;
    push_description(alloc, text, description)?;
    text.extend_from_slice(b"\n")
}

/// What the line begins with: the man, and the step of his ray.
fn ray_front(man: u8, step: Ray) -> LineBuffer
    ensures { result ≡ codes "man " ++ decimal man ++ codes " step " ++ signed_decimal step.dx ++ codes " " ++ signed_decimal step.dy ++ codes " " }
{
    let mut line = LineBuffer::new();
    line.push(b"man ");
    line.push_number(i64::from(man));
    line.push(b" step ");
    line.push_number(i64::from(step.dx));
    line.push(b" ");
    line.push_number(i64::from(step.dy));
    line.push(b" ");
    line
}

/// Appends the text of a description.
fn push_description(
    alloc: Global,
    text: &mut Vec<u8>,
    description: &Description,
) -> Result<(), AllocError>
    ensures { OnOk result (text.new.items ≡ text.old.items ++ description_text description.now) }
{
    match description {
        Description::Repeats(periodic) => push_periodic(alloc, text, periodic),
        Description::NoPeriod => text.extend_from_slice(b"no period up to 60"),
        Description::Far => text.extend_from_slice(b"far"),
        Description::Many => text.extend_from_slice(b"many"),
    }
}

/// Appends the runs, from where on the set is periodic, its period, and the rests (residues) in it.
fn push_periodic(alloc: Global, text: &mut Vec<u8>, periodic: &Periodic) -> Result<(), AllocError>
    ensures { OnOk result (text.new.items ≡ text.old.items ++ periodic_text periodic.now) }
{
    text.extend_from_slice(b"runs ")?;
    push_runs(text, periodic.runs.as_slice())?;
    text.extend_from_slice(repeating_text(periodic).as_slice())?;
    push_rests(alloc, text, periodic.rests, periodic.period)
}

/// Returns the text between the runs and the rests.
fn repeating_text(periodic: &Periodic) -> LineBuffer
    ensures { result ≡ codes " from " ++ decimal periodic.now.from ++ codes " every " ++ decimal periodic.now.period ++ codes " rests " }
{
    let mut piece = LineBuffer::new();
    piece.push(b" from ");
    push_large(&mut piece, periodic.from);
    piece.push(b" every ");
    piece.push_number(i64::from(periodic.period));
    piece.push(b" rests ");
    piece
}
