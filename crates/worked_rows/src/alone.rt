//! The calls below the top one, each by itself.

use crate::runs::ROOM;
use oriedita_cli::{Folding, run_alone, sample_run};
use oriedita_io::{MemOpener, MemSink, MemSource};
use program_words::Options;
use std::str;
use std::test::Fail;
use task_board::Alone;

// A script, the replies and the status. No worker searches, however many the options ask for.
const SCRIPTS: [(&str, &str, u8); 3] = [
    ("", "", 0),
    ("undo\n", "refused nothingtoundo\n", 1),
    (
        "2 0 -200 0 200\n\
         fold\n\
         another 1\n\
         peek 1\n\
         wait 1\n",
        "version 1 pieces 1\n\
         job 1 version 1 faces 2 pairs 1\n\
         asked 1\n\
         job 1 version 1 running\n\
         job 1 version 1 order 1 +\n",
        0,
    ),
];

#[test]
fn a_run_without_workers(rt: HostRuntime) -> Result<(), Fail> {
    let alloc = rt.alloc();
    for (script, replies, status) in SCRIPTS {
        let options = Options {
            cp: None,
            workers: 3,
            sample: None,
        };
        let bytes = script.as_bytes().to_vec(alloc)?;
        let mut source = MemSource::new(bytes, 7, Vec::new(alloc));
        let mut files = MemOpener::new(Vec::new(alloc), Vec::new(alloc));
        let mut sink = MemSink::new(alloc, 7, ROOM, Vec::new(alloc))?;
        let ended = run_alone(&rt, alloc, &options, &mut source, &mut files, &mut sink);
        assert_eq!(rt; ended.status, status, "{script}");
        let taken = str::from_utf8(sink.bytes()).unwrap_or("no text");
        assert_eq!(rt; taken, replies, "{script}");
        assert!(rt; sink.finished(), "{script}");
    }
    Ok(())
}

#[test]
fn a_sample_by_itself(rt: HostRuntime) -> Result<(), Fail> {
    let alloc = rt.alloc();
    let mut helpers = Alone::<Folding>::new(alloc);
    let mut sink = MemSink::new(alloc, 7, ROOM, Vec::new(alloc))?;
    let ended = sample_run(&rt, alloc, 1, 2, &mut helpers, &mut sink);
    assert_eq!(rt; ended.status, 0);
    let taken = str::from_utf8(sink.bytes()).unwrap_or("no text");
    assert_eq!(rt; taken, "sample 2 faces 4 pairs 6 orders 1\n");
    assert!(rt; sink.finished());
    Ok(())
}
