//! Deleting, setting, merging, and other sheets.

use crate::runs::Row;

pub const CHANGES: [Row; 5] = [
    // A piece goes by its two ends, in either order. A crease that was cut goes piece by piece, and what it cut stays
    // cut.
    (
        "2 0 -200 0 200\n\
         3 -200 0 200 0\n\
         delete 0 -200 0 200\n\
         delete -200 0 200 0\n\
         delete 0 0 200 0\n\
         delete 200 0 0 0\n\
         delete 0 0 -200 0\n\
         list\n",
        "version 1 pieces 1\n\
         version 2 pieces 4\n\
         refused nosuchpiece\n\
         refused nosuchpiece\n\
         version 3 pieces 3\n\
         refused nosuchpiece\n\
         version 4 pieces 2\n\
         list 4 2\n\
         1 -200 -200 200 -200\n\
         1 200 -200 200 200\n\
         1 200 200 -200 200\n\
         1 -200 200 -200 -200\n\
         2 0 -200 0 0\n\
         2 0 0 0 200\n",
        1,
    ),
    // The ends of a piece first, then those of an auxiliary line. A part of either, a side of the sheet and no length
    // are none.
    (
        "4 -100 0 100 0\n\
         2 -100 0 100 0\n\
         4 0 -100 0 100\n\
         list\n\
         delete 100 0 -100 0\n\
         list\n\
         delete 100 0 -100 0\n\
         delete 100 0 -100 0\n\
         delete 0 -100 0 0\n\
         delete -200 -200 200 -200\n\
         delete 0 -100 0 -100\n\
         delete 0 0 100 41\n\
         delete 0 100 0 -100\n\
         list\n",
        "version 1 pieces 1\n\
         version 2 pieces 2\n\
         version 3 pieces 3\n\
         list 3 3\n\
         1 -200 -200 200 -200\n\
         1 200 -200 200 200\n\
         1 200 200 -200 200\n\
         1 -200 200 -200 -200\n\
         2 -100 0 100 0\n\
         4 -100 0 100 0\n\
         4 0 -100 0 100\n\
         version 4 pieces 2\n\
         list 4 2\n\
         1 -200 -200 200 -200\n\
         1 200 -200 200 200\n\
         1 200 200 -200 200\n\
         1 -200 200 -200 -200\n\
         4 -100 0 100 0\n\
         4 0 -100 0 100\n\
         version 5 pieces 1\n\
         refused nosuchpiece\n\
         refused nosuchpiece\n\
         refused nosuchpiece\n\
         refused nosuchpiece\n\
         refused nosuchpiece\n\
         version 6 pieces 0\n\
         list 6 0\n\
         1 -200 -200 200 -200\n\
         1 200 -200 200 200\n\
         1 200 200 -200 200\n\
         1 -200 200 -200 -200\n",
        1,
    ),
    // An auxiliary line goes where a piece has but one of its ends, or is a part of it.
    (
        "4 -100 0 100 0\n\
         2 -100 0 0 0\n\
         3 0 0 100 0\n\
         delete -100 0 100 0\n\
         list\n",
        "version 1 pieces 1\n\
         version 2 pieces 2\n\
         version 3 pieces 3\n\
         version 4 pieces 2\n\
         list 4 2\n\
         1 -200 -200 200 -200\n\
         1 200 -200 200 200\n\
         1 200 200 -200 200\n\
         1 -200 200 -200 -200\n\
         2 -100 0 0 0\n\
         3 0 0 100 0\n",
        0,
    ),
    // Only a piece has another kind, and it may be the one that it had. An auxiliary line and a side of the sheet have
    // none.
    (
        "2 0 -200 0 200\n\
         4 -100 0 100 0\n\
         set 3 0 -200 0 200\n\
         list\n\
         set 2 0 200 0 -200\n\
         set 2 0 -200 0 200\n\
         set 2 -100 0 100 0\n\
         set 3 -200 -200 200 -200\n\
         set 3 0 -200 0 0\n\
         set 3 0 0 0 0\n\
         set 4 0 -200 0 200\n\
         set 1 0 -200 0 200\n\
         list\n",
        "version 1 pieces 1\n\
         version 2 pieces 2\n\
         version 3 pieces 2\n\
         list 3 2\n\
         1 -200 -200 200 -200\n\
         1 200 -200 200 200\n\
         1 200 200 -200 200\n\
         1 -200 200 -200 -200\n\
         3 0 -200 0 200\n\
         4 -100 0 100 0\n\
         version 4 pieces 2\n\
         version 5 pieces 2\n\
         refused nosuchpiece\n\
         refused nosuchpiece\n\
         refused nosuchpiece\n\
         refused nosuchpiece\n\
         refused badkind\n\
         refused badkind\n\
         list 5 2\n\
         1 -200 -200 200 -200\n\
         1 200 -200 200 200\n\
         1 200 200 -200 200\n\
         1 -200 200 -200 -200\n\
         2 0 -200 0 200\n\
         4 -100 0 100 0\n",
        1,
    ),
    // Of two pieces with a common end only one is meant.
    (
        "2 -100 0 0 0\n\
         2 0 0 100 0\n\
         2 0 0 0 100\n\
         set 3 100 0 0 0\n\
         list\n",
        "version 1 pieces 1\n\
         version 2 pieces 2\n\
         version 3 pieces 3\n\
         version 4 pieces 3\n\
         list 4 3\n\
         1 -200 -200 200 -200\n\
         1 200 -200 200 200\n\
         1 200 200 -200 200\n\
         1 -200 200 -200 -200\n\
         2 -100 0 0 0\n\
         2 0 0 0 100\n\
         3 0 0 100 0\n",
        0,
    ),
];

pub const MERGES: [Row; 6] = [
    // A chain of four pieces becomes one; another is kept apart by the kind, a third by a crease.
    (
        "2 -100 -200 -100 -50\n\
         2 -100 -50 -100 0\n\
         2 -100 0 -100 100\n\
         2 -100 100 -100 200\n\
         3 0 -200 0 0\n\
         3 0 0 0 50\n\
         2 0 50 0 200\n\
         3 100 -200 100 0\n\
         3 100 0 100 100\n\
         3 100 100 100 200\n\
         2 100 0 200 0\n\
         merge\n\
         list\n\
         merge\n",
        "version 1 pieces 1\n\
         version 2 pieces 2\n\
         version 3 pieces 3\n\
         version 4 pieces 4\n\
         version 5 pieces 5\n\
         version 6 pieces 6\n\
         version 7 pieces 7\n\
         version 8 pieces 8\n\
         version 9 pieces 9\n\
         version 10 pieces 10\n\
         version 11 pieces 11\n\
         version 12 pieces 6\n\
         list 12 6\n\
         1 -200 -200 200 -200\n\
         1 200 -200 200 200\n\
         1 200 200 -200 200\n\
         1 -200 200 -200 -200\n\
         2 -100 -200 -100 200\n\
         3 0 -200 0 50\n\
         2 0 50 0 200\n\
         3 100 -200 100 0\n\
         3 100 0 100 200\n\
         2 100 0 200 0\n\
         version 13 pieces 6\n",
        0,
    ),
    // Two pieces that end at a vertex without being opposite stay, and so do three.
    (
        "2 -100 0 0 0\n\
         2 0 0 0 100\n\
         3 50 0 100 0\n\
         3 100 0 150 50\n\
         2 -200 -100 200 -100\n\
         2 0 -100 50 -150\n\
         merge\n\
         list\n",
        "version 1 pieces 1\n\
         version 2 pieces 2\n\
         version 3 pieces 3\n\
         version 4 pieces 4\n\
         version 5 pieces 5\n\
         version 6 pieces 7\n\
         version 7 pieces 7\n\
         list 7 7\n\
         1 -200 -200 200 -200\n\
         1 200 -200 200 200\n\
         1 200 200 -200 200\n\
         1 -200 200 -200 -200\n\
         2 -200 -100 0 -100\n\
         2 -100 0 0 0\n\
         2 0 -100 50 -150\n\
         2 0 -100 200 -100\n\
         2 0 0 0 100\n\
         3 50 0 100 0\n\
         3 100 0 150 50\n",
        0,
    ),
    // A crossing goes once what crossed is gone, in each of two directions at once.
    (
        "2 0 -200 0 200\n\
         3 -200 0 200 0\n\
         2 -200 -100 200 -100\n\
         delete -200 -100 0 -100\n\
         delete 0 -100 200 -100\n\
         merge\n\
         list\n\
         delete 0 0 200 0\n\
         merge\n\
         list\n\
         delete 0 0 -200 0\n\
         merge\n\
         list\n",
        "version 1 pieces 1\n\
         version 2 pieces 4\n\
         version 3 pieces 7\n\
         version 4 pieces 6\n\
         version 5 pieces 5\n\
         version 6 pieces 4\n\
         list 6 4\n\
         1 -200 -200 200 -200\n\
         1 200 -200 200 200\n\
         1 200 200 -200 200\n\
         1 -200 200 -200 -200\n\
         3 -200 0 0 0\n\
         2 0 -200 0 0\n\
         2 0 0 0 200\n\
         3 0 0 200 0\n\
         version 7 pieces 3\n\
         version 8 pieces 3\n\
         list 8 3\n\
         1 -200 -200 200 -200\n\
         1 200 -200 200 200\n\
         1 200 200 -200 200\n\
         1 -200 200 -200 -200\n\
         3 -200 0 0 0\n\
         2 0 -200 0 0\n\
         2 0 0 0 200\n\
         version 9 pieces 2\n\
         version 10 pieces 1\n\
         list 10 1\n\
         1 -200 -200 200 -200\n\
         1 200 -200 200 200\n\
         1 200 200 -200 200\n\
         1 -200 200 -200 -200\n\
         2 0 -200 0 200\n",
        0,
    ),
    // Chains at 22.5 and at 67.5 degrees.
    (
        "2 -200 -200 200 -600+400r2\n\
         3 -200 -200 -600+400r2 200\n\
         2 0 -200 0 200\n\
         2 -200 0 200 0\n\
         delete 0 -200 0 -400+200r2\n\
         delete 0 -400+200r2 0 0\n\
         delete -200 0 -400+200r2 0\n\
         delete 0 0 -400+200r2 0\n\
         merge\n\
         list\n",
        "version 1 pieces 1\n\
         version 2 pieces 2\n\
         version 3 pieces 5\n\
         version 4 pieces 10\n\
         version 5 pieces 9\n\
         version 6 pieces 8\n\
         version 7 pieces 7\n\
         version 8 pieces 6\n\
         version 9 pieces 4\n\
         list 9 4\n\
         1 -200 -200 200 -200\n\
         1 200 -200 200 200\n\
         1 200 200 -200 200\n\
         1 -200 200 -200 -200\n\
         3 -200 -200 -600+400r2 200\n\
         2 -200 -200 200 -600+400r2\n\
         2 0 0 0 200\n\
         2 0 0 200 0\n",
        0,
    ),
    // Auxiliary lines are not merged, and keep no vertex.
    (
        "4 -100 0 0 0\n\
         4 0 0 100 0\n\
         2 -100 0 0 0\n\
         2 0 0 100 0\n\
         4 0 0 0 100\n\
         merge\n\
         list\n",
        "version 1 pieces 1\n\
         version 2 pieces 2\n\
         version 3 pieces 3\n\
         version 4 pieces 4\n\
         version 5 pieces 5\n\
         version 6 pieces 4\n\
         list 6 4\n\
         1 -200 -200 200 -200\n\
         1 200 -200 200 200\n\
         1 200 200 -200 200\n\
         1 -200 200 -200 -200\n\
         2 -100 0 100 0\n\
         4 -100 0 0 0\n\
         4 0 0 0 100\n\
         4 0 0 100 0\n",
        0,
    ),
    // What is set to one kind becomes one piece; what is empty stays empty.
    (
        "merge\n\
         2 -200 0 200 0\n\
         3 -100 0 100 0\n\
         merge\n\
         list\n\
         set 2 100 0 -100 0\n\
         merge\n\
         list\n\
         clear\n\
         merge\n\
         list\n",
        "version 1 pieces 0\n\
         version 2 pieces 1\n\
         version 3 pieces 3\n\
         version 4 pieces 3\n\
         list 4 3\n\
         1 -200 -200 200 -200\n\
         1 200 -200 200 200\n\
         1 200 200 -200 200\n\
         1 -200 200 -200 -200\n\
         2 -200 0 -100 0\n\
         3 -100 0 100 0\n\
         2 100 0 200 0\n\
         version 5 pieces 3\n\
         version 6 pieces 1\n\
         list 6 1\n\
         1 -200 -200 200 -200\n\
         1 200 -200 200 200\n\
         1 200 200 -200 200\n\
         1 -200 200 -200 -200\n\
         2 -200 0 200 0\n\
         version 7 pieces 0\n\
         version 8 pieces 0\n\
         list 8 0\n\
         1 -200 -200 200 -200\n\
         1 200 -200 200 200\n\
         1 200 200 -200 200\n\
         1 -200 200 -200 -200\n",
        0,
    ),
];

pub const SHEETS: [Row; 6] = [
    // A sheet begins at its least corner and has nothing on it.
    (
        "2 0 -200 0 200\n\
         4 0 0 1 0\n\
         sheet 100 0 0 100 -100 0 0 -100\n\
         list\n\
         2 -100 0 100 0\n\
         2 0 -100 100 0\n\
         3 0 101 0 0\n\
         undo\n\
         undo\n\
         list\n\
         2 0 150 100 150\n",
        "version 1 pieces 1\n\
         version 2 pieces 2\n\
         version 3 pieces 0\n\
         list 3 0\n\
         1 -100 0 0 -100\n\
         1 0 -100 100 0\n\
         1 100 0 0 100\n\
         1 0 100 -100 0\n\
         version 4 pieces 1\n\
         refused onborder\n\
         refused outsidesheet\n\
         version 3 pieces 0\n\
         version 2 pieces 2\n\
         list 2 2\n\
         1 -200 -200 200 -200\n\
         1 200 -200 200 200\n\
         1 200 200 -200 200\n\
         1 -200 200 -200 -200\n\
         2 0 -200 0 200\n\
         4 0 0 1 0\n\
         version 5 pieces 4\n",
        1,
    ),
    // A regular octagon, and an octagon whose sides run in the directions between.
    (
        "sheet 200 200-200r2 200 -200+200r2 -200+200r2 200 200-200r2 200 -200 -200+200r2 -200 200-200r2 \
         200-200r2 -200 -200+200r2 -200\n\
         list\n\
         2 -200 0 200 0\n\
         2 -200 -200 200 200\n\
         2 -100r2 -100r2 100r2 100r2\n\
         sheet 0 0 100 -100+100r2 100r2 100r2 100 100+100r2 0 200r2 -100 100+100r2 -100r2 100r2 -100 \
         -100+100r2\n\
         list\n",
        "version 1 pieces 0\n\
         list 1 0\n\
         1 -200 200-200r2 200-200r2 -200\n\
         1 200-200r2 -200 -200+200r2 -200\n\
         1 -200+200r2 -200 200 200-200r2\n\
         1 200 200-200r2 200 -200+200r2\n\
         1 200 -200+200r2 -200+200r2 200\n\
         1 -200+200r2 200 200-200r2 200\n\
         1 200-200r2 200 -200 -200+200r2\n\
         1 -200 -200+200r2 -200 200-200r2\n\
         version 2 pieces 1\n\
         refused outsidesheet\n\
         version 3 pieces 4\n\
         version 4 pieces 0\n\
         list 4 0\n\
         1 -100r2 100r2 -100 -100+100r2\n\
         1 -100 -100+100r2 0 0\n\
         1 0 0 100 -100+100r2\n\
         1 100 -100+100r2 100r2 100r2\n\
         1 100r2 100r2 100 100+100r2\n\
         1 100 100+100r2 0 200r2\n\
         1 0 200r2 -100 100+100r2\n\
         1 -100 100+100r2 -100r2 100r2\n",
        1,
    ),
    // The first bad corner: a side without a direction, or a turn of none, of eight units or to the right.
    (
        "sheet 0 0 100 50 0 100\n\
         sheet 0 0 100 0 50 75\n\
         sheet 0 0 0 0 100 0\n\
         sheet 0 0 100 0 200 0 0 200\n\
         sheet 0 0 100 0 50 0 50 50\n\
         sheet 0 0 0 100 100 0\n\
         sheet 0 0 100 0 100 100 50 50 0 100\n\
         sheet 0 0 100 0 200 0 100 50\n\
         sheet 0 0 100 0 100 0 0 100\n",
        "refused badsheet 1\n\
         refused badsheet 2\n\
         refused badsheet 1\n\
         refused badsheet 2\n\
         refused badsheet 2\n\
         refused badsheet 1\n\
         refused badsheet 4\n\
         refused badsheet 2\n\
         refused badsheet 2\n",
        1,
    ),
    // No bad corner, but the turns add to two rounds.
    (
        "sheet 0 0 100 0 100 100 0 100 0 0 100 0 100 100 0 100\n\
         sheet 0 0 100 0 0 100 0 0 100 0 0 100\n\
         sheet 0 0 100 0 0 100\n",
        "refused badsheet 0\n\
         refused badsheet 0\n\
         version 1 pieces 0\n",
        1,
    ),
    // A bad number before a bad sheet, the number of words before either; three corners to sixteen.
    (
        "sheet 0 0 0 100 x 0\n\
         sheet 0 0 0.1 100 100 0\n\
         sheet 0 99999999999 0 100 x 0\n\
         sheet 0 0 0 100 x\n\
         sheet 0 0 100 0\n\
         sheet\n\
         sheet 0 0 100 0 100 100 0 100 0 0 100 0 100 100 0 100 0 0 100 0 100 100 0 100 0 0 100 0 100 100 0 \
         100\n\
         sheet 0 0 100 0 100 100 0 100 0 0 100 0 100 100 0 100 0 0 100 0 100 100 0 100 0 0 100 0 100 100 0 \
         100 0 0\n",
        "refused badnumber 5\n\
         refused notexact 3\n\
         refused outofrange 2\n\
         refused wrongcount\n\
         refused wrongcount\n\
         refused wrongcount\n\
         refused badsheet 0\n\
         refused wrongcount\n",
        1,
    ),
    // Sixteen corners, each a turn of 22.5 degrees.
    (
        "sheet 0 0 50 0 100 -50+50r2 150 50r2 100+50r2 50+50r2 100+50r2 100+50r2 150 150+50r2 100 200+50r2 \
         50 150+100r2 0 150+100r2 -50 200+50r2 -100 150+50r2 -50-50r2 100+50r2 -50-50r2 50+50r2 -100 50r2 \
         -50 -50+50r2\n\
         list\n\
         3 0 0 0 150+100r2\n\
         2 0 0 150 50r2\n",
        "version 1 pieces 0\n\
         list 1 0\n\
         1 -50-50r2 50+50r2 -100 50r2\n\
         1 -100 50r2 -50 -50+50r2\n\
         1 -50 -50+50r2 0 0\n\
         1 0 0 50 0\n\
         1 50 0 100 -50+50r2\n\
         1 100 -50+50r2 150 50r2\n\
         1 150 50r2 100+50r2 50+50r2\n\
         1 100+50r2 50+50r2 100+50r2 100+50r2\n\
         1 100+50r2 100+50r2 150 150+50r2\n\
         1 150 150+50r2 100 200+50r2\n\
         1 100 200+50r2 50 150+100r2\n\
         1 50 150+100r2 0 150+100r2\n\
         1 0 150+100r2 -50 200+50r2\n\
         1 -50 200+50r2 -100 150+50r2\n\
         1 -100 150+50r2 -50-50r2 100+50r2\n\
         1 -50-50r2 100+50r2 -50-50r2 50+50r2\n\
         version 2 pieces 1\n\
         refused baddirection\n",
        1,
    ),
];
