//! Local checks, and the pieces that are checked.

use crate::runs::Row;

pub const CHECKS: [Row; 6] = [
    // Three mountains and a valley, two by two in line: nothing is at fault.
    (
        "2 0 -200 0 200\n\
         2 -200 0 0 0\n\
         3 0 0 200 0\n\
         check\n",
        "version 1 pieces 1\n\
         version 2 pieces 3\n\
         version 3 pieces 4\n\
         check 3 0\n",
        0,
    ),
    // Four mountains.
    (
        "2 0 -200 0 200\n\
         2 -200 0 0 0\n\
         2 0 0 200 0\n\
         check\n",
        "version 1 pieces 1\n\
         version 2 pieces 3\n\
         version 3 pieces 4\n\
         check 3 1\n\
         0 0 maekawa 4 0\n",
        0,
    ),
    // A crease that ends inside.
    (
        "2 0 -200 0 0\n\
         check\n",
        "version 1 pieces 1\n\
         check 1 2\n\
         0 0 kawasaki\n\
         0 0 maekawa 1 0\n",
        0,
    ),
    // A part of a crease of another kind, turned back and merged.
    (
        "2 0 -200 0 200\n\
         3 0 -100 0 100\n\
         check\n\
         set 2 0 -100 0 100\n\
         merge\n\
         check\n",
        "version 1 pieces 1\n\
         version 2 pieces 3\n\
         check 2 2\n\
         0 -100 maekawa 1 1\n\
         0 100 maekawa 1 1\n\
         version 3 pieces 3\n\
         version 4 pieces 1\n\
         check 4 0\n",
        0,
    ),
    // A sector of 45 degrees between two of 90 and 135, with two mountains.
    (
        "2 0 0 200 0\n\
         2 0 0 200 200\n\
         2 0 0 -200 200\n\
         3 0 -200 0 0\n\
         check\n",
        "version 1 pieces 1\n\
         version 2 pieces 2\n\
         version 3 pieces 3\n\
         version 4 pieces 4\n\
         check 4 1\n\
         0 0 biglittlebig 0\n",
        0,
    ),
    // The check is of the version that is current, and takes no words.
    (
        "2 0 -200 0 0\n\
         undo\n\
         check\n\
         redo\n\
         check 1\n\
         check\n",
        "version 1 pieces 1\n\
         version 0 pieces 0\n\
         check 0 0\n\
         version 1 pieces 1\n\
         refused wrongcount\n\
         check 1 2\n\
         0 0 kawasaki\n\
         0 0 maekawa 1 0\n",
        1,
    ),
];
