//! Laws of stock texts. Each is the contract of a function that does nothing.

ghost use Rattle.stock_text.specs.Laws.{AcceptedIsSpelled, FeedsOnce, SpelledIsAccepted};

/// States that lines that are accepted as a stock text are the spelling of its stock.
pub fn accepted_text_is_spelled()
    ensures { AcceptedIsSpelled }
{}

/// States that the spelling of any stock of two to five men is accepted as this stock.
pub fn spelled_text_is_accepted()
    ensures { SpelledIsAccepted }
{}

/// States that a line has exactly one result: the text continues, or is complete, or the line is refused for one
/// reason.
pub fn line_has_one_turnout()
    ensures { FeedsOnce }
{}
