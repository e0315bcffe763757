//! The lines of a block, and how a block ends.

ghost use Rattle.std.specs.Prelude.{◌≡◌};

use cp_text::LineFault;
use crease_store::LoadLine;
use std::marker::Model;

/// The lines of a block to load, in order, seen as a list.
#[derive(Debug, Drop)]
pub struct LoadLines {
    list: Vec<LoadLine>,
}

impl Model for LoadLines {
    ghost use Rattle.std.specs.Prelude.{List};
    ghost use Rattle.crease_store.specs.declared.loading.LoadLine.{LoadLine};

    ghost Value = { List LoadLine };

    ghost view = { λ c. c.list.items };
}

impl LoadLines {
    pub fn of(list: Vec<LoadLine>) -> LoadLines
        ensures { result ≡ list.items }
    {
        LoadLines { list }
    }

    pub fn as_slice(&self) -> &[LoadLine]
        ensures { result.now ≡ self.now }
    {
        self.list.as_slice()
    }
}

/// How a block ends.
#[derive(Clone, Copy, Debug, PartialEq, Eq)]
pub enum LoadStop {
    /// With its line `end`, and each line before it is one of a kind or blank.
    Ended,
    /// The first line that is bad, with its number in the block, from 1.
    Bad { number: u32, fault: LineFault },
    /// The script ends before the line `end`.
    Unended,
}
