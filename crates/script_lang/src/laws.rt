//! What the commands of a script are, in the words of its lines and blocks. These functions do nothing: each contract is
//! a law of the script.

ghost use Rattle.script_lang.specs.Laws.{PlainLinesAreJudged, BlocksAreOneCommand, OpenBlocksAreOneCommand, FirstBadLineStops, GoodLinesAreLoaded, SingleLinesAreJudged, PrintedPatternsAreLoaded, PrintedPatternsComeBack, FilesAreBlocks, EndIsNoLineOfAFile, PatternFilesComeBack};

use cp_text::{lines_read_back, patterns_are_parted_by_lines};
use crease_store::own_lines_are_loaded;

/// The commands of a script without a line `load` are its judged lines in order, blank ones left out.
#[tactic(auto, using(crate::proofs::Scripts::plain_lines_are_judged))]
pub fn plain_lines_are_judged()
    ensures { PlainLinesAreJudged }
{}

/// What stands between `load` and the first `end` is one command, after those of the lines before, and before those of
/// the lines behind.
#[tactic(auto, using(crate::proofs::Scripts::blocks_are_one_command))]
pub fn blocks_are_one_command()
    ensures { BlocksAreOneCommand }
{}

/// Without an `end` the block is all that follows `load`.
#[tactic(auto, using(crate::proofs::Scripts::open_blocks_are_one_command))]
pub fn open_blocks_are_one_command()
    ensures { OpenBlocksAreOneCommand }
{}

/// The first bad line stops a block, with its number, and what follows it counts for nothing.
#[tactic(auto, using(crate::proofs::Scripts::first_bad_line_stops))]
pub fn first_bad_line_stops()
    ensures { FirstBadLineStops }
{}

/// Without a bad line a block stops as it ends.
#[tactic(auto, using(crate::proofs::Scripts::good_lines_are_loaded))]
pub fn good_lines_are_loaded()
    ensures { GoodLinesAreLoaded }
{}

/// A script of one line is that line judged by itself, `load` among them.
#[tactic(auto, using(crate::proofs::Singles::single_lines_are_judged))]
pub fn single_lines_are_judged()
    ensures { SingleLinesAreJudged }
{}

/// The text of a pattern, put between `load` and `end`, is one command with the lines of the pattern.
pub fn printed_patterns_are_loaded()
    ensures { PrintedPatternsAreLoaded }
{
    lines_read_back();
    patterns_are_parted_by_lines();
}

/// The text of a pattern, put between `load` and `end` where its sheet is in force, gives that pattern again.
pub fn printed_patterns_come_back()
    ensures { PrintedPatternsComeBack }
{
    printed_patterns_are_loaded();
    own_lines_are_loaded();
}

/// A file in which no line is `end` is the block of its lines.
#[tactic(auto, using(crate::proofs::Files::files_are_blocks))]
pub fn files_are_blocks()
    ensures { FilesAreBlocks }
{}

/// A line `end` in a file is bad, as any other line that is not one of a kind.
#[tactic(auto, using(crate::proofs::Files::end_is_no_line_of_a_file))]
pub fn end_is_no_line_of_a_file()
    ensures { EndIsNoLineOfAFile }
{}

/// The text of a pattern, as a file loaded where its sheet is in force, gives that pattern again.
pub fn pattern_files_come_back()
    ensures { PatternFilesComeBack }
{
    lines_read_back();
    patterns_are_parted_by_lines();
    own_lines_are_loaded();
}
