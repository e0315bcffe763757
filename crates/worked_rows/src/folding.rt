//! Folding jobs: patterns that fold and that do not, their layer orders, and jobs beside edits.

use crate::runs::Row;

pub const FOLDINGS: [Row; 20] = [
    // Nothing on the sheet: one face, and one order of no signs.
    (
        "fold\n\
         another 1\n\
         wait 1\n\
         another 1\n\
         wait 1\n",
        "job 1 version 0 faces 1 pairs 0\n\
         asked 1\n\
         job 1 version 0 order 1 .\n\
         asked 1\n\
         job 1 version 0 no more\n",
        0,
    ),
    // A mountain, and a valley.
    (
        "2 0 -200 0 200\n\
         fold\n\
         another 1\n\
         wait 1\n\
         another 1\n\
         wait 1\n",
        "version 1 pieces 1\n\
         job 1 version 1 faces 2 pairs 1\n\
         asked 1\n\
         job 1 version 1 order 1 +\n\
         asked 1\n\
         job 1 version 1 no more\n",
        0,
    ),
    (
        "3 0 -200 0 200\n\
         fold\n\
         another 1\n\
         wait 1\n\
         another 1\n\
         wait 1\n",
        "version 1 pieces 1\n\
         job 1 version 1 faces 2 pairs 1\n\
         asked 1\n\
         job 1 version 1 order 1 -\n\
         asked 1\n\
         job 1 version 1 no more\n",
        0,
    ),
    // Two valleys 200 apart: faces 1 and 3 only touch.
    (
        "3 -100 -200 -100 200\n\
         3 100 -200 100 200\n\
         fold\n\
         another 1\n\
         wait 1\n\
         another 1\n\
         wait 1\n",
        "version 1 pieces 1\n\
         version 2 pieces 2\n\
         job 1 version 2 faces 3 pairs 2\n\
         asked 1\n\
         job 1 version 2 order 1 -+\n\
         asked 1\n\
         job 1 version 2 no more\n",
        0,
    ),
    // Two valleys 100 apart: each wing covers more than the face between, and neither can be the outer one.
    (
        "3 -50 -200 -50 200\n\
         3 50 -200 50 200\n\
         fold\n\
         another 1\n\
         wait 1\n",
        "version 1 pieces 1\n\
         version 2 pieces 2\n\
         job 1 version 2 faces 3 pairs 3\n\
         asked 1\n\
         job 1 version 2 no more\n",
        0,
    ),
    // A mountain and a valley as near as these.
    (
        "2 -50 -200 -50 200\n\
         3 50 -200 50 200\n\
         fold\n\
         another 1\n\
         wait 1\n\
         another 1\n\
         wait 1\n",
        "version 1 pieces 1\n\
         version 2 pieces 2\n\
         job 1 version 2 faces 3 pairs 3\n\
         asked 1\n\
         job 1 version 2 order 1 +++\n\
         asked 1\n\
         job 1 version 2 no more\n",
        0,
    ),
    // Four strips, folded to one side each time.
    (
        "2 -100 -200 -100 200\n\
         2 0 -200 0 200\n\
         2 100 -200 100 200\n\
         budget 16\n\
         fold\n\
         another 1\n\
         wait 1\n\
         another 1\n\
         wait 1\n\
         another 1\n\
         wait 1\n\
         another 1\n\
         wait 1\n",
        "version 1 pieces 1\n\
         version 2 pieces 2\n\
         version 3 pieces 3\n\
         budget 16\n\
         job 1 version 3 faces 4 pairs 6\n\
         asked 1\n\
         job 1 version 3 order 1 +++--+\n\
         asked 1\n\
         job 1 version 3 order 2 +-+-++\n\
         asked 1\n\
         job 1 version 3 order 3 +----+\n\
         asked 1\n\
         job 1 version 3 no more\n",
        0,
    ),
    // A cross, with three mountains.
    (
        "2 0 -200 0 200\n\
         2 -200 0 0 0\n\
         3 0 0 200 0\n\
         check\n\
         fold\n\
         another 1\n\
         wait 1\n\
         another 1\n\
         wait 1\n",
        "version 1 pieces 1\n\
         version 2 pieces 3\n\
         version 3 pieces 4\n\
         check 3 0\n\
         job 1 version 3 faces 4 pairs 6\n\
         asked 1\n\
         job 1 version 3 order 1 +++--+\n\
         asked 1\n\
         job 1 version 3 no more\n",
        0,
    ),
    // A cross of mountains alone.
    (
        "2 0 -200 0 200\n\
         2 -200 0 0 0\n\
         2 0 0 200 0\n\
         check\n\
         fold\n\
         another 1\n\
         wait 1\n",
        "version 1 pieces 1\n\
         version 2 pieces 3\n\
         version 3 pieces 4\n\
         check 3 1\n\
         0 0 maekawa 4 0\n\
         job 1 version 3 faces 4 pairs 6\n\
         asked 1\n\
         job 1 version 3 no more\n",
        0,
    ),
    // A waterbomb base.
    (
        "load\n\
         1 -200.0 -200.0 200.0 -200.0\n\
         1 200.0 -200.0 200.0 200.0\n\
         1 200.0 200.0 -200.0 200.0\n\
         1 -200.0 200.0 -200.0 -200.0\n\
         3 -200.0 -200.0 200.0 200.0\n\
         3 -200.0 200.0 200.0 -200.0\n\
         2 -200.0 0.0 200.0 0.0\n\
         end\n\
         fold\n\
         another 1\n\
         wait 1\n\
         another 1\n\
         wait 1\n",
        "version 1 pieces 6\n\
         job 1 version 1 faces 6 pairs 11\n\
         asked 1\n\
         job 1 version 1 order 1 --------+++\n\
         asked 1\n\
         job 1 version 1 no more\n",
        0,
    ),
    // A crease that ends inside the sheet.
    (
        "2 0 -200 0 0\n\
         check\n\
         fold\n",
        "version 1 pieces 1\n\
         check 1 2\n\
         0 0 kawasaki\n\
         0 0 maekawa 1 0\n\
         refused notconvex 0 -200 4\n",
        1,
    ),
    // A job keeps its version, whatever is done to the pattern meanwhile.
    (
        "2 0 -200 0 200\n\
         fold\n\
         another 1\n\
         delete 0 200 0 -200\n\
         wait 1\n\
         undo\n\
         list\n",
        "version 1 pieces 1\n\
         job 1 version 1 faces 2 pairs 1\n\
         asked 1\n\
         version 2 pieces 0\n\
         job 1 version 1 order 1 +\n\
         version 1 pieces 1\n\
         list 1 1\n\
         1 -200 -200 200 -200\n\
         1 200 -200 200 200\n\
         1 200 200 -200 200\n\
         1 -200 200 -200 -200\n\
         2 0 -200 0 200\n",
        0,
    ),
    // An ask is open until it is answered, and a cancelled job answers nothing.
    (
        "fold\n\
         another 1\n\
         another 1\n\
         cancel 1\n\
         another 1\n\
         wait 9\n",
        "job 1 version 0 faces 1 pairs 0\n\
         asked 1\n\
         refused busy 1\n\
         cancelled 1\n\
         refused cancelled 1\n\
         refused nosuchjob 9\n",
        1,
    ),
    // An open ask is running until it is waited for.
    (
        "2 0 -200 0 200\n\
         fold\n\
         another 1\n\
         peek 1\n\
         wait 1\n\
         peek 1\n",
        "version 1 pieces 1\n\
         job 1 version 1 faces 2 pairs 1\n\
         asked 1\n\
         job 1 version 1 running\n\
         job 1 version 1 order 1 +\n\
         refused nothingasked 1\n",
        1,
    ),
    // A pattern that does not fold: the reflections do not close.
    (
        "2 -200 0 200 0\n\
         2 0 -200 0 0\n\
         fold\n",
        "version 1 pieces 1\n\
         version 2 pieces 3\n\
         refused doesnotclose 3\n",
        1,
    ),
    // A corner that would come to lie on no exact point.
    (
        "2 -200 -199.9999847412109375 200 -599.9999847412109375+400r2\n\
         fold\n",
        "version 1 pieces 1\n\
         refused foldrange 2\n",
        1,
    ),
    // Another sheet.
    (
        "sheet 0 0 0 100 100 0\n\
         sheet 0 0 100 0 0 100\n\
         2 0 0 50 50\n\
         fold\n\
         another 1\n\
         wait 1\n",
        "refused badsheet 1\n\
         version 1 pieces 0\n\
         version 2 pieces 1\n\
         job 1 version 2 faces 2 pairs 1\n\
         asked 1\n\
         job 1 version 2 order 1 +\n",
        1,
    ),
    // Words of each kind that are refused.
    (
        "2 0 0 0 0\n\
         2 0 0 100 50\n\
         1 0 0 100 0\n\
         2 0 0 300 0\n\
         2 -200 -200 200 -200\n\
         delete 0 0 1 0\n\
         9 0 0 1 1\n\
         fly\n\
         undo 3\n\
         peek x\n",
        "refused zerolength\n\
         refused baddirection\n\
         refused edgeoffborder\n\
         refused outsidesheet\n\
         refused onborder\n\
         refused nosuchpiece\n\
         refused badkind\n\
         refused unknownword\n\
         refused wrongcount\n\
         refused badnumber 1\n",
        1,
    ),
    // Numbers of jobs and budgets, and what an ask answers once all orders were shown.
    (
        "budget 1\n\
         budget 0001000000\n\
         budget 1000000000\n\
         budget 1000000001\n\
         budget 0\n\
         budget 00000000001\n\
         budget -1\n\
         budget\n\
         budget 1 1\n\
         fold x\n\
         another 0\n\
         another 1\n\
         another 4294967295\n\
         another 4294967296\n\
         peek 1\n\
         wait\n\
         cancel x\n\
         cancel 1\n\
         fold\n\
         peek 1\n\
         another 01\n\
         wait 1\n\
         wait 1\n\
         another 1\n\
         wait 1\n\
         another 1\n\
         peek 1\n\
         cancel 1\n\
         cancel 1\n\
         peek 1\n\
         wait 1\n",
        "budget 1\n\
         budget 1000000\n\
         budget 1000000000\n\
         refused badnumber 1\n\
         refused badnumber 1\n\
         refused badnumber 1\n\
         refused badnumber 1\n\
         refused wrongcount\n\
         refused wrongcount\n\
         refused wrongcount\n\
         refused nosuchjob 0\n\
         refused nosuchjob 1\n\
         refused nosuchjob 4294967295\n\
         refused badnumber 1\n\
         refused nosuchjob 1\n\
         refused wrongcount\n\
         refused badnumber 1\n\
         refused nosuchjob 1\n\
         job 1 version 0 faces 1 pairs 0\n\
         refused nothingasked 1\n\
         asked 1\n\
         job 1 version 0 order 1 .\n\
         refused nothingasked 1\n\
         asked 1\n\
         job 1 version 0 no more\n\
         asked 1\n\
         job 1 version 0 no more\n\
         cancelled 1\n\
         refused cancelled 1\n\
         refused cancelled 1\n\
         refused cancelled 1\n",
        1,
    ),
    // Two jobs of two versions, asked side by side; each keeps its own version and its own orders.
    (
        "3 -100 -200 -100 200\n\
         fold\n\
         2 100 -200 100 200\n\
         fold\n\
         another 1\n\
         another 2\n\
         set 3 100 -200 100 200\n\
         undo\n\
         undo\n\
         wait 2\n\
         another 2\n\
         wait 1\n\
         fold\n\
         cancel 1\n\
         another 3\n\
         wait 3\n\
         wait 2\n",
        "version 1 pieces 1\n\
         job 1 version 1 faces 2 pairs 1\n\
         version 2 pieces 2\n\
         job 2 version 2 faces 3 pairs 2\n\
         asked 1\n\
         asked 2\n\
         version 3 pieces 2\n\
         version 2 pieces 2\n\
         version 1 pieces 1\n\
         job 2 version 2 order 1 --\n\
         asked 2\n\
         job 1 version 1 order 1 -\n\
         job 3 version 1 faces 2 pairs 1\n\
         cancelled 1\n\
         asked 3\n\
         job 3 version 1 order 1 -\n\
         job 2 version 2 no more\n",
        0,
    ),
];
