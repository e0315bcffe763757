//! What is written reads as what it was written from, and other laws of the text. These functions do nothing: each
//! contract is a law.

ghost use Rattle.cp_text.specs.NumberGrammar.{ReadsByTheGrammar};
ghost use Rattle.cp_text.specs.NumberValue.{ReadsTheValue};
ghost use Rattle.cp_text.specs.Laws.{NumbersReadBack, WholeNumbersReadBack, NumbersAreShortest, LinesReadBack, PatternsReadBack, PatternsArePartedByLines, WordsArePartedByBlanks, LinesEndAtFeeds};

/// Reading the text of a number gives that number.
#[tactic(auto, using(crate::proofs::ReadBack::numbers_read_back))]
pub fn numbers_read_back()
    ensures { NumbersReadBack }
{}

/// Reading the digits of a whole number within the limits gives that number.
#[tactic(auto, using(crate::proofs::WholeNumbers::whole_numbers_read_back))]
pub fn whole_numbers_read_back()
    ensures { WholeNumbersReadBack }
{}

/// A number's text reads as it, and no text of fewer bytes does.
pub fn numbers_are_shortest()
    ensures { NumbersAreShortest }
{}

/// Reading the text of a line without its line feed gives that line.
#[tactic(auto, using(crate::proofs::ReadBack::lines_read_back))]
pub fn lines_read_back()
    ensures { LinesReadBack }
{}

/// Reading the text of a pattern line by line gives the sides of its sheet, its pieces and its auxiliary lines.
#[tactic(auto, using(crate::proofs::ReadBack::patterns_read_back))]
pub fn patterns_read_back()
    ensures { PatternsReadBack }
{}

/// The lines of a pattern's text are the texts of its lines, whatever follows it.
#[tactic(auto, using(crate::proofs::ReadBack::patterns_are_parted_by_lines))]
pub fn patterns_are_parted_by_lines()
    ensures { PatternsArePartedByLines }
{}

/// A text of one of the grammar's forms reads as the value of its parts, exponent notation is not exact, and any other
/// text is bad.
#[tactic(auto, using(crate::proofs::Grammar::reads_by_the_grammar))]
pub fn reads_by_the_grammar()
    ensures { ReadsByTheGrammar }
{}

/// A decimal is exact where its digits over their power of ten are a whole number of parts of 2^16, and the answer is
/// then the number of both parts, or `OutOfRange` exactly where there is none.
#[tactic(auto, using(crate::proofs::DecimalValues::reads_the_value))]
pub fn reads_the_value()
    ensures { ReadsTheValue }
{}

/// The words of a line are those of which it is put together with runs of spaces and tabs.
pub fn words_are_parted_by_blanks()
    ensures { WordsArePartedByBlanks }
{}

/// The lines of a text are those of which it is put together with line feeds, and one carriage return at the end of a
/// line goes.
#[tactic(auto, using(crate::proofs::PartedText::lines_end_at_feeds))]
pub fn lines_end_at_feeds()
    ensures { LinesEndAtFeeds }
{}
