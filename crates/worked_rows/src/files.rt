//! Runs with words: files that are read first, samples, and words that are refused.

use crate::runs::{CountedSink, ROOM, has_text};
use oriedita_cli::run;
use oriedita_io::{MemFile, MemOpener, MemSink, MemSource};
use std::alloc::{AllocError, Global};
use std::process::Abort;
use std::sync::Wait;
use std::test::Fail;
use std::thread::Threads;
use task_board::NoGate;

// The waterbomb base, with the sides of its sheet first.
const WATERBOMB: &str = "1 -200.0 -200.0 200.0 -200.0
1 200.0 -200.0 200.0 200.0
1 200.0 200.0 -200.0 200.0
1 -200.0 200.0 -200.0 -200.0
3 -200.0 -200.0 200.0 200.0
3 -200.0 200.0 200.0 -200.0
2 -200.0 0.0 200.0 0.0
";

const ROUNDED: &str = "1 -200.0 -200.0 200.0 -200.0\n2 0 -82.84271247461902 0 200\n2 0 0 1 1\n";

const FOLDED: &str = "fold\nanother 1\nwait 1\nanother 1\nwait 1\n";

const FOLDED_REPLIES: &str = "version 1 pieces 6
job 1 version 1 faces 6 pairs 11
asked 1
job 1 version 1 order 1 --------+++
asked 1
job 1 version 1 no more
";

// The words, parted by spaces; the script; the replies and the status. Where the status is 2, 3 or 5 nothing is written; at 3
// the output is finished all the same.
const RUNS: [(&str, &str, &str, u8); 22] = [
    ("--cp waterbomb.cp", FOLDED, FOLDED_REPLIES, 0),
    ("--workers 0 --cp=waterbomb.cp", FOLDED, FOLDED_REPLIES, 0),
    ("--cp waterbomb.cp --workers=8", FOLDED, FOLDED_REPLIES, 0),
    ("--cp waterbomb.cp", "", "version 1 pieces 6\n", 0),
    (
        "--cp rounded.cp",
        "undo\n",
        "refused load 2 notexact 2\nrefused nothingtoundo\n",
        1,
    ),
    ("--cp empty.cp", "", "version 1 pieces 0\n", 0),
    ("--cp ended.cp", "", "refused load 1 unknownword\n", 1),
    ("--workers 0", "", "", 0),
    ("--workers 8", "undo\n", "refused nothingtoundo\n", 1),
    ("--workers 9", "undo\n", "", 2),
    ("--cp none.cp", "undo\n", "", 3),
    ("--cp long.cp", "undo\n", "", 5),
    ("--cp none.cp --workers 9", "undo\n", "", 2),
    ("--cp waterbomb.cp --cp waterbomb.cp", "undo\n", "", 2),
    ("--cp", "undo\n", "", 2),
    ("--cp=", "undo\n", "", 2),
    ("--pieces 1", "undo\n", "", 2),
    ("--sample 4", "undo\n", "", 2),
    ("--sample 3 --cp waterbomb.cp", "undo\n", "", 2),
    (
        "--sample 1 --workers 0",
        "undo\n",
        "sample 1 faces 2 pairs 1 orders 1\n",
        0,
    ),
    (
        "--workers=8 --sample=2",
        "undo\n",
        "sample 2 faces 4 pairs 6 orders 1\n",
        0,
    ),
    (
        "--sample 3",
        "undo\n",
        "sample 3 faces 8 pairs 28 orders 1\n",
        0,
    ),
];

fn file(alloc: Global, path: &str, bytes: &[u8]) -> Result<MemFile, AllocError> {
    Ok(MemFile {
        path: String::from_str(alloc, path)?,
        bytes: bytes.to_vec(alloc)?,
    })
}

fn opener(alloc: Global) -> Result<MemOpener, AllocError> {
    let mut files = Vec::new(alloc);
    files.push(file(alloc, "waterbomb.cp", WATERBOMB.as_bytes())?)?;
    files.push(file(alloc, "rounded.cp", ROUNDED.as_bytes())?)?;
    files.push(file(alloc, "ended.cp", b"end\n")?)?;
    files.push(file(alloc, "empty.cp", b"")?)?;
    files.push(MemFile {
        path: String::from_str(alloc, "long.cp")?,
        bytes: vec![in alloc; b' '; 4_194_305]?,
    })?;
    Ok(MemOpener::new(files, Vec::new(alloc)))
}

fn meets<R: Abort + Threads + Wait + Sync>(
    rt: &R,
    alloc: Global,
    line: &str,
    script: &str,
    replies: &str,
    status: u8,
) -> Result<(), AllocError> {
    let mut words = Vec::new(alloc);
    for word in line.split(' ') {
        words.push(String::from_str(alloc, word)?)?;
    }
    let mut source = MemSource::new(script.as_bytes().to_vec(alloc)?, 7, Vec::new(alloc));
    let mut sink = CountedSink::new(MemSink::new(alloc, 7, ROOM, Vec::new(alloc))?);
    let mut files = opener(alloc)?;
    let ended = run(
        rt,
        alloc,
        words.as_slice(),
        &mut source,
        &mut files,
        &mut sink,
        &NoGate,
    );
    assert_eq!(rt; ended.status, status, "{line}");
    has_text(rt, &sink, replies, line);
    let finishes = if status < 2 || status == 3 { 1 } else { 0 };
    assert_eq!(rt; sink.finishes(), finishes, "{line}");
    Ok(())
}

#[test]
fn files_come_before_the_script(rt: HostRuntime) -> Result<(), Fail> {
    for (line, script, replies, status) in RUNS {
        meets(&rt, rt.alloc(), line, script, replies, status)?;
    }
    Ok(())
}
