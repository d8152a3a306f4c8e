//! The status of a run.

ghost use Rattle.std.specs.Prelude.{◌≡◌};
ghost use Rattle.desk_report.specs.Codes.{code_of};

/// How a run ended.
#[derive(Clone, Copy, PartialEq, Eq)]
pub enum Status {
    /// The whole answer was written.
    Done,
    /// The words are no order.
    Usage,
    /// The text is no position text.
    Text,
    /// The position is not sound.
    Unsound,
    /// The source has failed while a line was due.
    ReadFault,
    /// The sink failed before the whole answer was written.
    WriteFault,
    /// The shelf has failed.
    ShelfFault,
    /// A step exceeds the budget.
    Budget,
    /// The winner is to move, and none of his moves to a square of 64 bits keeps the promised count.
    Wide,
    /// Out of memory.
    Memory,
    /// There is no file of the name, its bytes are no file of a claim, or the claim does not keep a rule; or the file would be too large.
    File,
    /// The replies have ended before mate, or one of them is `quit`.
    Ended,
    /// So many reply lines were read as may be, and there is no mate.
    TooMany,
}

impl Status {
    /// Returns the exit code of the process.
    pub fn code(self) -> u8
        ensures { result ≡ code_of self }
    {
        match self {
            Status::Done => 0,
            Status::Usage => 2,
            Status::Text => 3,
            Status::Unsound => 4,
            Status::ReadFault => 5,
            Status::WriteFault => 6,
            Status::ShelfFault => 7,
            Status::Budget => 8,
            Status::Wide => 9,
            Status::Memory => 10,
            Status::File => 11,
            Status::Ended => 12,
            Status::TooMany => 13,
        }
    }
}
