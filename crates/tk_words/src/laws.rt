//! Laws of the definitions that the contract cites.

ghost use Rattle.std.specs.Prelude.{◌≡◌, Some, drop, false, true};
ghost use Rattle.tk_words.specs.Line.{line_of, stands_alone};
ghost use Rattle.tk_words.specs.Ordered.{fits_line, ordered};

/// A line has only the options and the words that its command takes, and its root is an absolute path.
pub fn lines_fit_their_command()
    ensures { (words : _) (line : _) → line_of words ≡ Some line → fits_line line ≡ true }
{}

/// Each such line of a command that takes words is the line of its words in order, so no word is lost or read twice.
pub fn words_in_order_are_the_line()
    ensures { (line : _) → fits_line line ≡ true → stands_alone line.name ≡ false → line_of (drop 1 (ordered line)) ≡ Some line }
{}
