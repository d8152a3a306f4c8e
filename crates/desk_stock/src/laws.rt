//! Laws of the stock text at the front of an input. Each is the contract of a function that does nothing.

ghost use Rattle.desk_stock.specs.StockLaws.{TextIsOne, TextIsRead};

/// States that the text of a stock of two to five men, whatever follows it, is read as this stock.
pub fn stock_text_is_read()
    ensures { TextIsRead }
{}

/// States that lines are one stock text, or are refused for one reason.
pub fn lines_are_one_text()
    ensures { TextIsOne }
{}
