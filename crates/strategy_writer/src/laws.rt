//! Laws of the strategy files that are written. Each is the contract of a function that does nothing.

ghost use Rattle.strategy_writer.specs.Laws.{FileIsKept, KeptFileIsClaim, OneFile, OneKeptFile, OneWritten, WrittenIsRead, WrittenIsSame};

/// States that the file written for a claim is read as that claim.
pub fn written_is_read()
    ensures { WrittenIsRead }
{}

/// States that exactly one file is written for a claim.
pub fn one_written()
    ensures { OneWritten }
{}

/// States that the file written for a claim that was read is read as a claim of the same sets.
pub fn written_is_same()
    ensures { WrittenIsSame }
{}

/// States that a solved position has one file.
pub fn one_file()
    ensures { OneFile }
{}

/// States that the kept sets of a position, a winner and a number of moves have one file, whatever computed them.
pub fn one_kept_file()
    ensures { OneKeptFile }
{}

/// States that the file of a solved position is that of its kept sets.
pub fn file_is_kept()
    ensures { FileIsKept }
{}

/// States that the file of the kept sets is read as a won claim if the winner mates in time.
pub fn kept_file_is_claim()
    ensures { KeptFileIsClaim }
{}
