//! Commands, and how lines are judged.

use crate::block::{LoadLines, LoadStop};
use crate::corners::Corners;
use cp_text::LineFault;
use crease_model::Kind;
use plane_geometry::Point;

/// One command of a script.
#[derive(Debug, Drop)]
pub enum Command {
    /// A new line from one point to another.
    Add { kind: Kind, from: Point, to: Point },
    /// The piece or auxiliary line with these ends goes.
    Delete { from: Point, to: Point },
    /// The piece with these ends becomes a mountain, a valley or an unassigned crease.
    Set { kind: Kind, from: Point, to: Point },
    /// Pieces that go on from one another become one.
    Merge,
    /// All pieces and auxiliary lines go.
    Clear,
    /// A new sheet with nothing on it.
    Sheet { corners: Corners },
    /// A new pattern of these lines. The stop says how the block ended.
    Load { lines: LoadLines, stop: LoadStop },
    Undo,
    Redo,
    List,
    /// The local checks of the current version.
    Check,
    /// A new folding job of the current version.
    Fold,
    /// The job is to look for its next layer order.
    Another { job: u32 },
    /// How many steps an ask that follows may take before it pauses.
    Budget { budget: u64 },
    /// The answer to the job's open ask, if it is there by now.
    Peek { job: u32 },
    /// The answer to the job's open ask.
    Wait { job: u32 },
    /// The job ends.
    Cancel { job: u32 },
    /// A line that is no command.
    Bad { fault: LineFault },
}
