//! Texts separated by commas.

ghost use Rattle.std.specs.Prelude.{◌≡◌, ◌++◌, IfOk, OnOk};
ghost use Rattle.std.specs.Fmt.{decimal};
ghost use Rattle.desk_describe.specs.Description.{listed, rests_in};
ghost use Rattle.desk_describe.specs.Description as specs;

use chess_text::line_buffer::LineBuffer;
use desk_report::push_large;
use period_sets::Run;
use std::alloc::{AllocError, Global};

/// Appends the runs, or that there is none.
pub(crate) fn push_runs(text: &mut Vec<u8>, runs: &[Run]) -> Result<(), AllocError>
    ensures { OnOk result (text.new.items ≡ text.old.items ++ listed specs.run_text runs.now) }
{
    match runs {
        [] => text.extend_from_slice(b"none"),
        [run, others @ ..] => {
            push_run(text, *run)?;
            for other in others {
                text.extend_from_slice(b",")?;
                push_run(text, *other)?;
            }
            Ok(())
        }
    }
}

/// Adds a run.
fn push_run(text: &mut Vec<u8>, run: Run) -> Result<(), AllocError>
    ensures { OnOk result (text.new.items ≡ text.old.items ++ specs.run_text run) }
{
    let mut piece = LineBuffer::new();
    push_large(&mut piece, run.low);
    piece.push(b"-");
    push_large(&mut piece, run.high);
    text.extend_from_slice(piece.as_slice())
}

/// Appends the rests (residues) below the period whose bits are set, or that there is none.
pub(crate) fn push_rests(
    alloc: Global,
    text: &mut Vec<u8>,
    rests: u64,
    period: u8,
) -> Result<(), AllocError>
    ensures { OnOk result (text.new.items ≡ text.old.items ++ listed decimal (rests_in rests period)) }
{
    let listed = rests_below(alloc, rests, period)?;
    match listed.as_slice() {
        [] => text.extend_from_slice(b"none"),
        [rest, others @ ..] => {
            push_small(text, *rest)?;
            for other in others {
                text.extend_from_slice(b",")?;
                push_small(text, *other)?;
            }
            Ok(())
        }
    }
}

/// Adds a small number.
fn push_small(text: &mut Vec<u8>, number: u8) -> Result<(), AllocError>
    ensures { OnOk result (text.new.items ≡ text.old.items ++ decimal number) }
{
    let mut piece = LineBuffer::new();
    piece.push_number(i64::from(number));
    text.extend_from_slice(piece.as_slice())
}

/// The rests below the number whose bits are set, ascending.
fn rests_below(alloc: Global, rests: u64, period: u8) -> Result<Vec<u8>, AllocError>
    ensures { IfOk result (λ found. found.items ≡ rests_in rests period) }
{
    let mut found = Vec::new(alloc);
    let mut bits = rests;
    for rest in 0..period {
        if bits % 2 == 1 {
            found.push(rest)?;
        }
        bits /= 2;
    }
    Ok(found)
}
