//! Blocks of lines, from `load` to `end`.

use crate::runs::Row;

pub const BLOCKS: [Row; 10] = [
    // An empty block, a block on what was there, and one with a line that overlaps another.
    (
        "2 0 -200 0 200\n\
         load\n\
         end\n\
         load\n\
         3 -200 0 200 0\n\
         4 -200 100 200 100\n\
         end\n\
         list\n\
         load\n\
         2 -100 0 100 0\n\
         3 0 0 200 0\n\
         1 -200 -200 200 -200\n\
         2 50 -50 50 50\n\
         end\n\
         list\n\
         undo\n\
         undo\n\
         undo\n",
        "version 1 pieces 1\n\
         version 2 pieces 0\n\
         version 3 pieces 2\n\
         list 3 2\n\
         1 -200 -200 200 -200\n\
         1 200 -200 200 200\n\
         1 200 200 -200 200\n\
         1 -200 200 -200 -200\n\
         3 -200 0 200 0\n\
         4 -200 100 200 100\n\
         version 4 pieces 6\n\
         list 4 6\n\
         1 -200 -200 200 -200\n\
         1 200 -200 200 200\n\
         1 200 200 -200 200\n\
         1 -200 200 -200 -200\n\
         2 -100 0 0 0\n\
         3 0 0 50 0\n\
         2 50 -50 50 0\n\
         2 50 0 50 50\n\
         3 50 0 100 0\n\
         3 100 0 200 0\n\
         version 3 pieces 2\n\
         version 2 pieces 0\n\
         version 1 pieces 1\n",
        0,
    ),
    // Lines are numbered from the one after `load`, blank ones counted; words may be parted by tabs.
    (
        "load\n\
         \n\
         \t\n\
         2 0 -200 0 200\n\
         \t \n\
         3 0 0 0 0\n\
         end\n\
         load\n\
         \t3\t-100 0  100 0\t\n\
         \tend \n\
         list\n",
        "refused load 5 zerolength\n\
         version 1 pieces 1\n\
         list 1 1\n\
         1 -200 -200 200 -200\n\
         1 200 -200 200 200\n\
         1 200 200 -200 200\n\
         1 -200 200 -200 -200\n\
         3 -100 0 100 0\n",
        1,
    ),
    // A line that can't be added comes before the first bad line, a bad line before the want of an end.
    (
        "load\n\
         2 0 0 100 50\n\
         x\n\
         2 0 0 0 0\n\
         end\n\
         load\n\
         2 0 -200 0 200\n\
         fly\n\
         2 0 0 0 0\n\
         end\n\
         load\n\
         2 0 -200 0 200\n\
         2 0 0 0.1 0\n\
         list\n",
        "refused load 1 baddirection\n\
         refused load 2 unknownword\n\
         refused load 2 notexact 3\n",
        1,
    ),
    // After a bad line the block goes on to its end, and what stands in it is not run.
    (
        "load\n\
         x\n\
         undo\n\
         2 0 -200 0 200\n\
         load\n\
         merge\n\
         end\n\
         undo\n\
         list\n",
        "refused load 1 unknownword\n\
         refused nothingtoundo\n\
         list 0 0\n\
         1 -200 -200 200 -200\n\
         1 200 -200 200 200\n\
         1 200 200 -200 200\n\
         1 -200 200 -200 -200\n",
        1,
    ),
    // Every line of a block is judged as one of a kind; in a block and outside, a word too many makes no `load` and no
    // `end`.
    (
        "load\n\
         set 2 0 0 100 0\n\
         end\n\
         load\n\
         load\n\
         end\n\
         load\n\
         2 0 0 100 0\n\
         end 1\n\
         end\n\
         load x\n\
         end\n\
         end x\n\
         load\n\
         6 0 0 1 0\n\
         end\n\
         load\n\
         2 0 0 1\n\
         end\n\
         load\n\
         2 0 0 x 1e3\n\
         end\n\
         load\n\
         3 0 99999999999 0 0\n\
         end\n\
         load\n\
         undo\n\
         end\n",
        "refused load 1 unknownword\n\
         refused load 1 unknownword\n\
         refused load 2 unknownword\n\
         refused wrongcount\n\
         refused unknownword\n\
         refused unknownword\n\
         refused load 1 badkind\n\
         refused load 1 wrongcount\n\
         refused load 1 badnumber 3\n\
         refused load 1 outofrange 2\n\
         refused load 1 unknownword\n",
        1,
    ),
    // Each refusal of a line to add, with its number.
    (
        "load\n\
         2 0 0 0 0\n\
         end\n\
         load\n\
         2 0 0 100 50\n\
         end\n\
         load\n\
         1 0 0 100 0\n\
         end\n\
         load\n\
         \n\
         4 0 0 300 0\n\
         end\n\
         load\n\
         2 -200 -200 200 -200\n\
         end\n\
         load\n\
         2 -100 100.0000152587890625 100 -99.9999847412109375\n\
         3 -200 -200 200 200\n\
         end\n",
        "refused load 1 zerolength\n\
         refused load 1 baddirection\n\
         refused load 1 edgeoffborder\n\
         refused load 2 outsidesheet\n\
         refused load 1 onborder\n\
         refused load 2 crossing 1\n",
        1,
    ),
    // On another sheet its sides are judged, and the sheet stays.
    (
        "sheet 0 0 100 0 0 100\n\
         load\n\
         1 0 0 100 0\n\
         1 100 0 0 100\n\
         2 0 0 50 50\n\
         end\n\
         load\n\
         1 -200 -200 200 -200\n\
         end\n\
         list\n",
        "version 1 pieces 0\n\
         version 2 pieces 1\n\
         refused load 1 edgeoffborder\n\
         list 2 1\n\
         1 0 0 100 0\n\
         1 100 0 0 100\n\
         1 0 100 0 0\n\
         2 0 0 50 50\n",
        1,
    ),
    // The text of a pattern between `load` and `end` gives the pattern again.
    (
        "load\n\
         1 -200 -200 200 -200\n\
         1 200 -200 200 200\n\
         1 200 200 -200 200\n\
         1 -200 200 -200 -200\n\
         2 -200 -200 0 -400+200r2\n\
         3 0 -200 0 -400+200r2\n\
         3 0 -400+200r2 0 200\n\
         2 0 -400+200r2 200 -600+400r2\n\
         4 -200 0 200 0\n\
         end\n\
         list\n",
        "version 1 pieces 5\n\
         list 1 5\n\
         1 -200 -200 200 -200\n\
         1 200 -200 200 200\n\
         1 200 200 -200 200\n\
         1 -200 200 -200 -200\n\
         2 -200 -200 0 -400+200r2\n\
         3 0 -200 0 -400+200r2\n\
         3 0 -400+200r2 0 200\n\
         2 0 -400+200r2 200 -600+400r2\n\
         4 -200 0 200 0\n",
        0,
    ),
    // No end, with lines and without.
    ("load\n", "refused load unended\n", 1),
    (
        "load\n\
         end x\n\
         2 0 -200 0 200\n",
        "refused load 1 unknownword\n",
        1,
    ),
];
