//! Scripts of every command, their replies and their statuses.

use crate::blocks::BLOCKS;
use crate::changes::{CHANGES, MERGES, SHEETS};
use crate::checks::CHECKS;
use crate::creases::CREASES;
use crate::folding::FOLDINGS;
use crate::lines::LINES;
use crate::runs::{Row, all_meet};
use crate::unassigned::UNASSIGNED;
use std::test::Fail;

const COMMANDS: [Row; 14] = [
    ("", "", 0),
    ("2 0 -200 0 200\n", "version 1 pieces 1\n", 0),
    (
        "list\n",
        "list 0 0\n\
         1 -200 -200 200 -200\n\
         1 200 -200 200 200\n\
         1 200 200 -200 200\n\
         1 -200 200 -200 -200\n",
        0,
    ),
    (
        "2 0 -200 0 200\n\
         undo\n\
         redo\n\
         list\n",
        "version 1 pieces 1\n\
         version 0 pieces 0\n\
         version 1 pieces 1\n\
         list 1 1\n\
         1 -200 -200 200 -200\n\
         1 200 -200 200 200\n\
         1 200 200 -200 200\n\
         1 -200 200 -200 -200\n\
         2 0 -200 0 200\n",
        0,
    ),
    (
        "2 0 -200 0 200\n\
         2 -200 0 200 0\n\
         2 0 0 50 50\n\
         fold\n\
         undo\n\
         undo\n\
         undo\n\
         undo\n",
        "version 1 pieces 1\n\
         version 2 pieces 4\n\
         version 3 pieces 5\n\
         refused notconvex 0 0 2\n\
         version 2 pieces 4\n\
         version 1 pieces 1\n\
         version 0 pieces 0\n\
         refused nothingtoundo\n",
        1,
    ),
    (
        "2 0 -200 0 200\n\
         undo\n\
         3 0 -200 0 200\n\
         undo\n\
         redo\n\
         redo\n",
        "version 1 pieces 1\n\
         version 0 pieces 0\n\
         version 2 pieces 1\n\
         version 0 pieces 0\n\
         version 2 pieces 1\n\
         refused nothingtoredo\n",
        1,
    ),
    (
        "2 0.1 0 0.1 50\n\
         2 -0.0 -200.0 0 200.0\n\
         2 99999999999 0 0 0\n",
        "refused notexact 1\n\
         version 1 pieces 1\n\
         refused outofrange 1\n",
        1,
    ),
    (
        "2 -200 -200 200 -600+400r2\n\
         3 0 -200 0 200\n\
         list\n",
        "version 1 pieces 1\n\
         version 2 pieces 4\n\
         list 2 4\n\
         1 -200 -200 200 -200\n\
         1 200 -200 200 200\n\
         1 200 200 -200 200\n\
         1 -200 200 -200 -200\n\
         2 -200 -200 0 -400+200r2\n\
         3 0 -200 0 -400+200r2\n\
         3 0 -400+200r2 0 200\n\
         2 0 -400+200r2 200 -600+400r2\n",
        0,
    ),
    // The common point would need the seventeenth half.
    (
        "2 -100 100.0000152587890625 100 -99.9999847412109375\n\
         2 -100 -100 100 100\n\
         undo\n",
        "version 1 pieces 1\n\
         refused crossing 1\n\
         version 0 pieces 0\n",
        1,
    ),
    (
        "2 0 -200 0 200\n\
         3 0 -100 0 100\n\
         set 2 0 -100 0 100\n\
         merge\n",
        "version 1 pieces 1\n\
         version 2 pieces 3\n\
         version 3 pieces 3\n\
         version 4 pieces 1\n",
        0,
    ),
    (
        "4 -200 0 200 0\n\
         2 0 -200 0 200\n\
         list\n",
        "version 1 pieces 1\n\
         version 2 pieces 2\n\
         list 2 2\n\
         1 -200 -200 200 -200\n\
         1 200 -200 200 200\n\
         1 200 200 -200 200\n\
         1 -200 200 -200 -200\n\
         2 0 -200 0 200\n\
         4 -200 0 200 0\n",
        0,
    ),
    (
        "load\n\
         2 0 -200 0 200\n\
         2 0 0 100 50\n\
         end\n\
         list\n",
        "refused load 2 baddirection\n\
         list 0 0\n\
         1 -200 -200 200 -200\n\
         1 200 -200 200 200\n\
         1 200 200 -200 200\n\
         1 -200 200 -200 -200\n",
        1,
    ),
    (
        "load\n\
         2 0 -200 0 200\n",
        "refused load unended\n",
        1,
    ),
    // A waterbomb base.
    (
        "load\n\
         1 -200.0 -200.0 200.0 -200.0\n\
         1 200.0 -200.0 200.0 200.0\n\
         1 200.0 200.0 -200.0 200.0\n\
         1 -200.0 200.0 -200.0 -200.0\n\
         3 -200.0 -200.0 200.0 200.0\n\
         3 -200.0 200.0 200.0 -200.0\n\
         2 -200.0 0.0 200.0 0.0\n\
         end\n\
         list\n",
        "version 1 pieces 6\n\
         list 1 6\n\
         1 -200 -200 200 -200\n\
         1 200 -200 200 200\n\
         1 200 200 -200 200\n\
         1 -200 200 -200 -200\n\
         3 -200 -200 0 0\n\
         2 -200 0 0 0\n\
         3 -200 200 0 0\n\
         3 0 0 200 -200\n\
         2 0 0 200 0\n\
         3 0 0 200 200\n",
        0,
    ),
];

const HISTORIES: [Row; 8] = [
    // A change after an undo begins another branch, and nothing is left to redo.
    (
        "2 -100 -200 -100 200\n\
         2 0 -200 0 200\n\
         undo\n\
         3 100 -200 100 200\n\
         redo\n\
         undo\n\
         undo\n\
         undo\n\
         redo\n\
         list\n\
         redo\n\
         redo\n\
         list\n",
        "version 1 pieces 1\n\
         version 2 pieces 2\n\
         version 1 pieces 1\n\
         version 3 pieces 2\n\
         refused nothingtoredo\n\
         version 1 pieces 1\n\
         version 0 pieces 0\n\
         refused nothingtoundo\n\
         version 1 pieces 1\n\
         list 1 1\n\
         1 -200 -200 200 -200\n\
         1 200 -200 200 200\n\
         1 200 200 -200 200\n\
         1 -200 200 -200 -200\n\
         2 -100 -200 -100 200\n\
         version 3 pieces 2\n\
         refused nothingtoredo\n\
         list 3 2\n\
         1 -200 -200 200 -200\n\
         1 200 -200 200 200\n\
         1 200 200 -200 200\n\
         1 -200 200 -200 -200\n\
         2 -100 -200 -100 200\n\
         3 100 -200 100 200\n",
        1,
    ),
    // A refusal leaves what can be redone.
    (
        "2 0 -200 0 200\n\
         undo\n\
         2 0 0 0 0\n\
         fly\n\
         undo\n\
         list x\n\
         delete 0 -200 0 200\n\
         set 3 0 -200 0 200\n\
         sheet 0 0 0 100 100 0\n\
         load\n\
         x\n\
         end\n\
         redo\n",
        "version 1 pieces 1\n\
         version 0 pieces 0\n\
         refused zerolength\n\
         refused unknownword\n\
         refused nothingtoundo\n\
         refused wrongcount\n\
         refused nosuchpiece\n\
         refused nosuchpiece\n\
         refused badsheet 1\n\
         refused load 1 unknownword\n\
         version 1 pieces 1\n",
        1,
    ),
    // Undo and redo walk in one order, there and back.
    (
        "2 -100 -200 -100 200\n\
         2 0 -200 0 200\n\
         2 100 -200 100 200\n\
         undo\n\
         undo\n\
         undo\n\
         redo\n\
         redo\n\
         undo\n\
         redo\n\
         redo\n",
        "version 1 pieces 1\n\
         version 2 pieces 2\n\
         version 3 pieces 3\n\
         version 2 pieces 2\n\
         version 1 pieces 1\n\
         version 0 pieces 0\n\
         version 1 pieces 1\n\
         version 2 pieces 2\n\
         version 1 pieces 1\n\
         version 2 pieces 2\n\
         version 3 pieces 3\n",
        0,
    ),
    // The parent of a version is the one that was current, whatever its number.
    (
        "2 -100 -200 -100 200\n\
         undo\n\
         2 0 -200 0 200\n\
         2 100 -200 100 200\n\
         undo\n\
         undo\n\
         2 50 -200 50 200\n\
         undo\n\
         redo\n\
         redo\n",
        "version 1 pieces 1\n\
         version 0 pieces 0\n\
         version 2 pieces 1\n\
         version 3 pieces 2\n\
         version 2 pieces 1\n\
         version 0 pieces 0\n\
         version 4 pieces 1\n\
         version 0 pieces 0\n\
         version 4 pieces 1\n\
         refused nothingtoredo\n",
        1,
    ),
    // An undo takes back the cuts of a crease with it.
    (
        "2 0 -200 0 200\n\
         3 -200 0 200 0\n\
         list\n\
         undo\n\
         list\n\
         3 -200 100 200 100\n\
         list\n\
         redo\n",
        "version 1 pieces 1\n\
         version 2 pieces 4\n\
         list 2 4\n\
         1 -200 -200 200 -200\n\
         1 200 -200 200 200\n\
         1 200 200 -200 200\n\
         1 -200 200 -200 -200\n\
         3 -200 0 0 0\n\
         2 0 -200 0 0\n\
         2 0 0 0 200\n\
         3 0 0 200 0\n\
         version 1 pieces 1\n\
         list 1 1\n\
         1 -200 -200 200 -200\n\
         1 200 -200 200 200\n\
         1 200 200 -200 200\n\
         1 -200 200 -200 -200\n\
         2 0 -200 0 200\n\
         version 3 pieces 4\n\
         list 3 4\n\
         1 -200 -200 200 -200\n\
         1 200 -200 200 200\n\
         1 200 200 -200 200\n\
         1 -200 200 -200 -200\n\
         3 -200 100 0 100\n\
         2 0 -200 0 100\n\
         2 0 100 0 200\n\
         3 0 100 200 100\n\
         refused nothingtoredo\n",
        1,
    ),
    // Each kind of change makes a version, and each is undone.
    (
        "2 0 -200 0 200\n\
         3 -200 0 0 0\n\
         4 0 0 200 0\n\
         set 3 0 -200 0 0\n\
         delete -200 0 0 0\n\
         merge\n\
         set 2 0 0 0 200\n\
         merge\n\
         list\n\
         clear\n\
         sheet 0 0 100 0 0 100\n\
         load\n\
         2 0 0 50 50\n\
         end\n\
         undo\n\
         undo\n\
         list\n\
         undo\n\
         undo\n\
         undo\n\
         undo\n\
         undo\n\
         undo\n\
         list\n\
         undo\n\
         undo\n\
         undo\n\
         undo\n\
         redo\n\
         redo\n\
         redo\n\
         redo\n\
         redo\n\
         redo\n\
         redo\n\
         redo\n\
         redo\n\
         redo\n\
         redo\n\
         redo\n",
        "version 1 pieces 1\n\
         version 2 pieces 3\n\
         version 3 pieces 4\n\
         version 4 pieces 4\n\
         version 5 pieces 3\n\
         version 6 pieces 3\n\
         version 7 pieces 3\n\
         version 8 pieces 3\n\
         list 8 3\n\
         1 -200 -200 200 -200\n\
         1 200 -200 200 200\n\
         1 200 200 -200 200\n\
         1 -200 200 -200 -200\n\
         3 0 -200 0 0\n\
         2 0 0 0 200\n\
         4 0 0 200 0\n\
         version 9 pieces 0\n\
         version 10 pieces 0\n\
         version 11 pieces 1\n\
         version 10 pieces 0\n\
         version 9 pieces 0\n\
         list 9 0\n\
         1 -200 -200 200 -200\n\
         1 200 -200 200 200\n\
         1 200 200 -200 200\n\
         1 -200 200 -200 -200\n\
         version 8 pieces 3\n\
         version 7 pieces 3\n\
         version 6 pieces 3\n\
         version 5 pieces 3\n\
         version 4 pieces 4\n\
         version 3 pieces 4\n\
         list 3 4\n\
         1 -200 -200 200 -200\n\
         1 200 -200 200 200\n\
         1 200 200 -200 200\n\
         1 -200 200 -200 -200\n\
         3 -200 0 0 0\n\
         2 0 -200 0 0\n\
         2 0 0 0 200\n\
         4 0 0 200 0\n\
         version 2 pieces 3\n\
         version 1 pieces 1\n\
         version 0 pieces 0\n\
         refused nothingtoundo\n\
         version 1 pieces 1\n\
         version 2 pieces 3\n\
         version 3 pieces 4\n\
         version 4 pieces 4\n\
         version 5 pieces 3\n\
         version 6 pieces 3\n\
         version 7 pieces 3\n\
         version 8 pieces 3\n\
         version 9 pieces 0\n\
         version 10 pieces 0\n\
         version 11 pieces 1\n\
         refused nothingtoredo\n",
        1,
    ),
    // A change that leaves the pattern as it was makes a version too, and nothing is left to redo.
    (
        "2 0 -200 0 200\n\
         undo\n\
         1 -200 -200 200 -200\n\
         redo\n\
         undo\n\
         merge\n\
         redo\n\
         undo\n\
         clear\n\
         redo\n\
         undo\n\
         load\n\
         end\n\
         redo\n\
         undo\n\
         2 0 -200 0 200\n\
         2 0 -200 0 200\n\
         set 2 0 200 0 -200\n\
         undo\n\
         undo\n\
         redo\n\
         redo\n\
         redo\n",
        "version 1 pieces 1\n\
         version 0 pieces 0\n\
         version 2 pieces 0\n\
         refused nothingtoredo\n\
         version 0 pieces 0\n\
         version 3 pieces 0\n\
         refused nothingtoredo\n\
         version 0 pieces 0\n\
         version 4 pieces 0\n\
         refused nothingtoredo\n\
         version 0 pieces 0\n\
         version 5 pieces 0\n\
         refused nothingtoredo\n\
         version 0 pieces 0\n\
         version 6 pieces 1\n\
         version 7 pieces 1\n\
         version 8 pieces 1\n\
         version 7 pieces 1\n\
         version 6 pieces 1\n\
         version 7 pieces 1\n\
         version 8 pieces 1\n\
         refused nothingtoredo\n",
        1,
    ),
    (
        "redo\n\
         undo\n",
        "refused nothingtoredo\n\
         refused nothingtoundo\n",
        1,
    ),
];

// One test over all tables: each test function is proved.
#[test]
fn answers_each_row(rt: HostRuntime) -> Result<(), Fail> {
    let alloc = rt.alloc();
    all_meet(&rt, alloc, &COMMANDS)?;
    all_meet(&rt, alloc, &HISTORIES)?;
    all_meet(&rt, alloc, &LINES)?;
    all_meet(&rt, alloc, &CREASES)?;
    all_meet(&rt, alloc, &CHANGES)?;
    all_meet(&rt, alloc, &MERGES)?;
    all_meet(&rt, alloc, &SHEETS)?;
    all_meet(&rt, alloc, &CHECKS)?;
    all_meet(&rt, alloc, &BLOCKS)?;
    all_meet(&rt, alloc, &FOLDINGS)?;
    all_meet(&rt, alloc, &UNASSIGNED)?;
    Ok(())
}
