//! Unassigned creases: patterns in which some creases may fold as mountains or as valleys, and maps, which fold in as many
//! ways as are known.

use crate::runs::{ROOM, Row, answer};
use std::alloc::{AllocError, Global};
use std::str;
use std::test::Fail;

pub const UNASSIGNED: [Row; 7] = [
    // One crease folds both ways.
    (
        "5 0 -200 0 200\n\
         fold\n\
         another 1\n\
         wait 1\n\
         another 1\n\
         wait 1\n\
         another 1\n\
         wait 1\n",
        "version 1 pieces 1\n\
         job 1 version 1 faces 2 pairs 1\n\
         asked 1\n\
         job 1 version 1 order 1 +\n\
         asked 1\n\
         job 1 version 1 order 2 -\n\
         asked 1\n\
         job 1 version 1 no more\n",
        0,
    ),
    // A cross, which is a map of two by two: all eight ways in which it folds.
    (
        "5 0 -200 0 200\n\
         5 -200 0 200 0\n\
         check\n\
         fold\n\
         another 1\n\
         wait 1\n\
         another 1\n\
         wait 1\n\
         another 1\n\
         wait 1\n\
         another 1\n\
         wait 1\n\
         another 1\n\
         wait 1\n\
         another 1\n\
         wait 1\n\
         another 1\n\
         wait 1\n\
         another 1\n\
         wait 1\n\
         another 1\n\
         wait 1\n",
        "version 1 pieces 1\n\
         version 2 pieces 4\n\
         check 2 0\n\
         job 1 version 2 faces 4 pairs 6\n\
         asked 1\n\
         job 1 version 2 order 1 +++++-\n\
         asked 1\n\
         job 1 version 2 order 2 +++--+\n\
         asked 1\n\
         job 1 version 2 order 3 +-+-++\n\
         asked 1\n\
         job 1 version 2 order 4 +-----\n\
         asked 1\n\
         job 1 version 2 order 5 -+++++\n\
         asked 1\n\
         job 1 version 2 order 6 -+-+--\n\
         asked 1\n\
         job 1 version 2 order 7 ---++-\n\
         asked 1\n\
         job 1 version 2 order 8 -----+\n\
         asked 1\n\
         job 1 version 2 no more\n",
        0,
    ),
    // A cross with three mountains: the fourth crease has to be a valley.
    (
        "2 0 -200 0 200\n\
         2 -200 0 0 0\n\
         5 0 0 200 0\n\
         check\n\
         fold\n\
         another 1\n\
         wait 1\n\
         another 1\n\
         wait 1\n",
        "version 1 pieces 1\n\
         version 2 pieces 3\n\
         version 3 pieces 4\n\
         check 3 0\n\
         job 1 version 3 faces 4 pairs 6\n\
         asked 1\n\
         job 1 version 3 order 1 +++--+\n\
         asked 1\n\
         job 1 version 3 no more\n",
        0,
    ),
    // A crease that ends breaks both theorems, whatever it is.
    (
        "5 0 -200 0 0\n\
         check\n",
        "version 1 pieces 1\n\
         check 1 2\n\
         0 0 kawasaki\n\
         0 0 maekawa 0 0 1\n",
        0,
    ),
    // The newest kind wins, and a crease may be set back to unassigned. Pieces of one kind become one.
    (
        "2 0 -200 0 200\n\
         5 0 -100 0 100\n\
         list\n\
         5 0 100 0 -100\n\
         set 5 0 -200 0 -100\n\
         set 5 0 200 0 100\n\
         merge\n\
         3 0 0 0 200\n\
         list\n",
        "version 1 pieces 1\n\
         version 2 pieces 3\n\
         list 2 3\n\
         1 -200 -200 200 -200\n\
         1 200 -200 200 200\n\
         1 200 200 -200 200\n\
         1 -200 200 -200 -200\n\
         2 0 -200 0 -100\n\
         5 0 -100 0 100\n\
         2 0 100 0 200\n\
         version 3 pieces 3\n\
         version 4 pieces 3\n\
         version 5 pieces 3\n\
         version 6 pieces 1\n\
         version 7 pieces 2\n\
         list 7 2\n\
         1 -200 -200 200 -200\n\
         1 200 -200 200 200\n\
         1 200 200 -200 200\n\
         1 -200 200 -200 -200\n\
         5 0 -200 0 0\n\
         3 0 0 0 200\n",
        0,
    ),
    // Maekawa's theorem is broken where no choice meets it; a small sector is a fault only between two mountains or two
    // valleys.
    (
        "5 0 0 200 0\n\
         5 0 0 200 200\n\
         3 0 0 -200 200\n\
         5 0 -200 0 0\n\
         check\n\
         set 2 0 0 200 0\n\
         check\n\
         set 2 0 0 200 200\n\
         check\n\
         set 3 0 -200 0 0\n\
         check\n\
         5 0 0 -200 0\n\
         check\n",
        "version 1 pieces 1\n\
         version 2 pieces 2\n\
         version 3 pieces 3\n\
         version 4 pieces 4\n\
         check 4 0\n\
         version 5 pieces 4\n\
         check 5 0\n\
         version 6 pieces 4\n\
         check 6 1\n\
         0 0 biglittlebig 0\n\
         version 7 pieces 4\n\
         check 7 2\n\
         0 0 maekawa 2 2\n\
         0 0 biglittlebig 0\n\
         version 8 pieces 5\n\
         check 8 3\n\
         0 0 kawasaki\n\
         0 0 maekawa 2 2 1\n\
         0 0 biglittlebig 0\n",
        0,
    ),
    // What is refused of other creases is refused of an unassigned one.
    (
        "5 -200 -200 200 -200\n\
         5 0 0 300 0\n\
         5 0 0 100 50\n\
         5 0 0\n\
         5 0 0 x 0\n\
         6 0 0 1 1\n\
         set 5 0 0 1 0\n\
         set 1 0 0 1 0\n\
         set 4 0 0 1 0\n",
        "refused onborder\n\
         refused outsidesheet\n\
         refused baddirection\n\
         refused wrongcount\n\
         refused badnumber 3\n\
         refused badkind\n\
         refused nosuchpiece\n\
         refused badkind\n\
         refused badkind\n",
        1,
    ),
];

/// A map of square fields with all its creases unassigned, and so many asks of a job of it.
fn map_script(alloc: Global, columns: u32, rows: u32, asks: u32) -> Result<String, AllocError> {
    let mut script = String::new(alloc);
    let width = columns.saturating_mul(100);
    let height = rows.saturating_mul(100);
    writeln!(script, "budget 1000000000")?;
    writeln!(script, "sheet 0 0 {width} 0 {width} {height} 0 {height}")?;
    for column in 1..columns {
        let x = column.saturating_mul(100);
        writeln!(script, "5 {x} 0 {x} {height}")?;
    }
    for row in 1..rows {
        let y = row.saturating_mul(100);
        writeln!(script, "5 0 {y} {width} {y}")?;
    }
    script.push_str("fold\n")?;
    for _ in 0..asks {
        script.push_str("another 1\nwait 1\n")?;
    }
    Ok(script)
}

/// Columns, rows, and in how many ways the map folds, numbered fields told apart (sequences A000136, A001415 and A001418
/// of the encyclopedia of integer sequences).
const MAPS: [(u32, u32, u32); 5] = [
    (7, 1, 462),
    (2, 2, 8),
    (3, 2, 60),
    (4, 2, 320),
    (3, 3, 1368),
];

/// Of one ask more than there are orders the last alone is answered by "no more", and none by a pause.
#[test]
fn maps_fold_in_all_ways(rt: HostRuntime) -> Result<(), Fail> {
    for (columns, rows, ways) in MAPS {
        let script = map_script(rt.alloc(), columns, rows, ways.saturating_add(1))?;
        let bytes = script.as_bytes();
        let (status, sink) = answer(&rt, rt.alloc(), bytes, ROOM, 4 * ROOM, &[], &[])?;
        let text = str::from_utf8(sink.bytes()).unwrap_or("no text");
        let mut others = 0u32;
        for line in text.split('\n') {
            if line.ends_with(" no more") || line.ends_with(" paused") {
                others = others.saturating_add(1);
            }
        }
        assert_eq!(rt; (status, others), (0, 1), "{columns} by {rows}");
        assert!(rt; text.ends_with(" no more\n"), "{columns} by {rows}");
    }
    Ok(())
}
