ghost use Rattle.std.specs.Prelude.{◌≤◌, length, take};
ghost use Rattle.desk_base.specs.Found.{Finds};
ghost use Rattle.desk_base.specs.Lines.{HasNoLf};

use limits::MOST_LINE_BYTES;

/// The byte that ends a line.
const LF: u8 = b'\n';

/// What some bytes begin with.
#[derive(Clone, Copy)]
pub enum ScannedLine {
    /// A line of this many bytes, and its LF.
    Whole(usize),
    /// 201 bytes without LF.
    Long,
    /// At most 200 bytes, without LF.
    Part,
}

/// Returns what the bytes begin with. The first `scanned` bytes have no LF.
pub(crate) fn find_line(bytes: &[u8], scanned: usize) -> ScannedLine
    requires within { scanned ≤ length bytes.now }
    requires short { scanned ≤ MOST_LINE_BYTES }
    requires free { HasNoLf (take scanned bytes.now) }
    ensures { Finds bytes.now result }
{
    for i in scanned..bytes.len() {
        if bytes[i] == LF {
            return ScannedLine::Whole(i);
        }
        if i == MOST_LINE_BYTES {
            return ScannedLine::Long;
        }
    }
    ScannedLine::Part
}
