//! Laws of the texts. Each is the contract of a function that does nothing.

ghost use Rattle.chess_text.specs.Laws.{AcceptedIsSpelled, FeedsOnce, PositionsAreWritable, ReplyOnce, SpelledIsAccepted, SpelledMoveIsReply};

/// States that lines that are accepted as a text are the spelling of its contents.
pub fn accepted_text_is_spelled()
    ensures { AcceptedIsSpelled }
{}

/// States that the spelling of any contents that a text may have is accepted as these contents.
pub fn spelled_text_is_accepted()
    ensures { SpelledIsAccepted }
{}

/// States that the contents of position texts are the positions of two to eight men with coordinates of 64 bits, with
/// either side as winner, and nothing else.
pub fn positions_are_writable()
    ensures { PositionsAreWritable }
{}

/// States that a line has exactly one result: the text continues, or is complete, or the line is refused for one
/// reason.
pub fn line_has_one_turnout()
    ensures { FeedsOnce }
{}

/// States that the spelling of a move is a reply, and that it is that move.
pub fn spelled_move_is_reply()
    ensures { SpelledMoveIsReply }
{}

/// States that a line is at most one reply, and that a line that is a reply is not refused.
pub fn line_is_one_reply()
    ensures { ReplyOnce }
{}
