//! Sessions over helpers that answer by a list.

use crate::runs::ROOM;
use oriedita_cli::{Folding, session};
use oriedita_io::MemSink;
use script_lang::read_script;
use std::alloc::{AllocError, Global};
use std::process::Abort;
use std::str;
use std::test::*;
use std::thread::Threads;
use task_board::Planned;

/// A script, the calls of `fetch` that miss, the text of the replies and the exit status.
type HelpedRow = (&'static str, &'static [u64], &'static str, u8);

const HELPED: [HelpedRow; 5] = [
    // A fetch that misses answers a peek: running.
    (
        "2 0 -200 0 200\n\
         fold\n\
         another 1\n\
         peek 1\n\
         wait 1\n\
         peek 1\n",
        &[1],
        "version 1 pieces 1\n\
         job 1 version 1 faces 2 pairs 1\n\
         asked 1\n\
         job 1 version 1 running\n\
         job 1 version 1 order 1 +\n\
         refused nothingasked 1\n",
        1,
    ),
    // One that finds the outcome answers it by the order.
    (
        "2 0 -200 0 200\n\
         fold\n\
         another 1\n\
         peek 1\n\
         wait 1\n\
         peek 1\n",
        &[],
        "version 1 pieces 1\n\
         job 1 version 1 faces 2 pairs 1\n\
         asked 1\n\
         job 1 version 1 order 1 +\n\
         refused nothingasked 1\n\
         refused nothingasked 1\n",
        1,
    ),
    // Each peek that misses is one fetch, and the third finds it.
    (
        "fold\n\
         another 1\n\
         peek 1\n\
         peek 1\n\
         peek 1\n\
         another 1\n\
         peek 1\n",
        &[1, 2],
        "job 1 version 0 faces 1 pairs 0\n\
         asked 1\n\
         job 1 version 0 running\n\
         job 1 version 0 running\n\
         job 1 version 0 order 1 .\n\
         asked 1\n\
         job 1 version 0 no more\n",
        0,
    ),
    // The outcome of a cancelled job is not waited for, nor does it answer another job.
    (
        "fold\n\
         fold\n\
         another 1\n\
         another 2\n\
         cancel 1\n\
         peek 1\n\
         wait 2\n\
         wait 1\n",
        &[1],
        "job 1 version 0 faces 1 pairs 0\n\
         job 2 version 0 faces 1 pairs 0\n\
         asked 1\n\
         asked 2\n\
         cancelled 1\n\
         refused cancelled 1\n\
         job 2 version 0 order 1 .\n\
         refused cancelled 1\n",
        1,
    ),
    // A fetch that is made without need would miss: none is, and an ask that is refused puts nothing again.
    (
        "fold\n\
         peek 1\n\
         another 1\n\
         another 1\n\
         peek 1\n\
         peek 1\n",
        &[2],
        "job 1 version 0 faces 1 pairs 0\n\
         refused nothingasked 1\n\
         asked 1\n\
         refused busy 1\n\
         job 1 version 0 order 1 .\n\
         refused nothingasked 1\n",
        1,
    ),
];

fn helped_by<R: Abort + Threads + Sync>(
    rt: &R,
    alloc: Global,
    row: HelpedRow,
) -> Result<(), AllocError> {
    let (script, missing, replies, status) = row;
    let bytes = script.as_bytes();
    assert!(rt; bytes.len() <= ROOM, "{script}");
    let commands = read_script(alloc, bytes)?;
    let mut helpers = Planned::new(alloc, Folding, missing.to_vec(alloc)?);
    let mut sink = MemSink::new(alloc, ROOM, ROOM, Vec::new(alloc))?;
    let ended = session(rt, alloc, 1, commands, &mut helpers, &mut sink);
    let taken = str::from_utf8(sink.bytes()).unwrap_or("no text");
    assert_eq!(rt; taken, replies, "the replies to {script}");
    assert_eq!(rt; ended.status, status, "the status of {script}");
    assert!(rt; sink.finished(), "{script}");
    Ok(())
}

#[test]
fn helpers_answer_by_their_list(rt: HostRuntime) -> Result<(), Fail> {
    for row in HELPED {
        helped_by(&rt, rt.alloc(), row)?;
    }
    Ok(())
}
