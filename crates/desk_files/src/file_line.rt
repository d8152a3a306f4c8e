//! Fault lines of files.

ghost use Rattle.std.specs.Prelude.{◌≡◌, ◌≤◌, ◌++◌, codes, length};
ghost use Rattle.std.specs.Fmt.{decimal};
ghost use Rattle.strategy_file.specs.Layout as layout;
ghost use Rattle.desk_files.specs.FileLines as specs;

use chess_text::line_buffer::LineBuffer;
use claim_plan::{Rule, RuleAt};
use desk_report::push_large;
use strategy_file::ByteWhy;

/// The text, the number and the end of the line.
fn large_line(text: &[u8], number: u128) -> LineBuffer
    requires { length text.now ≤ 80 }
    ensures { result ≡ text.now ++ decimal number ++ codes "\n" }
{
    let mut line = LineBuffer::new();
    line.push(text);
    push_large(&mut line, number);
    line.push(b"\n");
    line
}

/// Returns the line that reports where a file ends too early.
pub fn cut_line(at: u64) -> LineBuffer
    ensures { result ≡ specs.file_line (layout.Cut at) }
{
    large_line(b"file cut at ", u128::from(at))
}

/// Returns the line that reports where bytes follow the end of a file.
pub fn extra_line(at: u64) -> LineBuffer
    ensures { result ≡ specs.file_line (layout.Extra at) }
{
    large_line(b"file extra at ", u128::from(at))
}

/// Returns the line that reports how many bytes a file would have, which is too many.
pub fn too_large_line(size: u128) -> LineBuffer
    ensures { result ≡ specs.too_large_line size }
{
    large_line(b"file too large ", size)
}

/// Returns the line that reports how many states a set of a file would have, which is too many.
pub fn set_too_large_line(states: u32) -> LineBuffer
    ensures { result ≡ specs.set_too_large_line states }
{
    large_line(b"file set too large ", u128::from(states))
}

/// Returns the line that reports which field of a file is refused, and why.
pub fn byte_line(at: u64, why: ByteWhy) -> LineBuffer
    ensures { result ≡ specs.file_line (layout.Byte at why) }
{
    let mut line = LineBuffer::new();
    line.push(b"file byte ");
    push_large(&mut line, u128::from(at));
    line.push(b" ");
    line.push(byte_word(why));
    line.push(b"\n");
    line
}

/// The word for why a field of a file is wrong.
fn byte_word(why: ByteWhy) -> &'static [u8]
    ensures word { result.now ≡ specs.byte_word why }
    ensures short { length result.now ≤ 7 }
{
    match why {
        ByteWhy::Magic => b"magic",
        ByteWhy::Version => b"version",
        ByteWhy::Moves => b"moves",
        ByteWhy::Turn => b"turn",
        ByteWhy::Count => b"count",
        ByteWhy::Side => b"side",
        ByteWhy::Kind => b"kind",
        ByteWhy::PlaceTag => b"place",
        ByteWhy::Unsound => b"unsound",
        ByteWhy::Ply => b"ply",
        ByteWhy::Men => b"men",
        ByteWhy::States => b"states",
        ByteWhy::Entry => b"entry",
        ByteWhy::Flag => b"flag",
        ByteWhy::Nodes => b"nodes",
        ByteWhy::Track => b"track",
        ByteWhy::Ref => b"ref",
    }
}

/// Returns the line that names the rule that is false of a file's claim.
pub fn not_kept_line(failed: RuleAt) -> LineBuffer
    ensures { result ≡ specs.not_kept_line failed }
{
    let mut line = LineBuffer::new();
    line.push(b"file not kept at ply ");
    line.push_number(i64::from(failed.ply));
    line.push(b" men ");
    line.push_number(i64::from(failed.mask));
    line.push(b" rule ");
    line.push(rule_word(failed.rule));
    line.push(b"\n");
    line
}

/// The word for a rule of a claim.
fn rule_word(rule: Rule) -> &'static [u8]
    ensures word { result.now ≡ specs.rule_word rule }
    ensures short { length result.now ≤ 5 }
{
    match rule {
        Rule::Sign => b"sign",
        Rule::Same => b"same",
        Rule::Guard => b"guard",
        Rule::First => b"first",
        Rule::Left => b"left",
        Rule::Stale => b"stale",
    }
}
