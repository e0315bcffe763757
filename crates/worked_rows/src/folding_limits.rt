//! What is too much to fold, and how many jobs and asks a session has.

use crate::runs::{ROOM, answer, has_text};
use std::alloc::{AllocError, Global};
use std::test::Fail;

// Adds a number of 256ths that is -51,200 or more.
fn push_256ths(text: &mut String, parts: u32) -> Result<(), AllocError> {
    let (sign, parts) = if parts < 51_200 {
        ("-", 51_200_u32.saturating_sub(parts))
    } else {
        ("", parts.saturating_sub(51_200))
    };
    let whole = parts / 256;
    let fraction = parts % 256 * 390_625;
    write!(text, "{sign}{whole}.{fraction:08}")?;
    Ok(())
}

// A block of upright mountains, and a job of it. They stand so many 256ths to the right of the left side: a step for each
// line, and for line k besides k * k of a second step.
fn strips(alloc: Global, lines: u32, step: u32, growth: u32) -> Result<String, AllocError> {
    let mut script = String::new(alloc);
    script.push_str("load\n")?;
    for before in 0..lines {
        let line = before.saturating_add(1);
        let parts = line.saturating_mul(line).saturating_mul(growth);
        let parts = parts.saturating_add(line.saturating_mul(step));
        script.push_str("2 ")?;
        push_256ths(&mut script, parts)?;
        script.push_str(" -200 ")?;
        push_256ths(&mut script, parts)?;
        script.push_str(" 200\n")?;
    }
    script.push_str("end\nfold\n")?;
    Ok(script)
}

/// So many lines, two steps, and the text of the replies.
type Row = (u32, u32, u32, &'static str);

const TOO_MUCH: [Row; 4] = [
    // At -200 + k * (k + 1) / 128.
    (
        200,
        2,
        2,
        "version 1 pieces 200\n\
         refused toomanylines 204\n",
    ),
    // At -200 + k * (k + 1) / 256, as many as there may be for 256 faces.
    (
        255,
        1,
        1,
        "version 1 pieces 255\n\
         refused toomanylines 259\n",
    ),
    // A unit apart.
    (
        256,
        256,
        0,
        "version 1 pieces 256\n\
         refused toomanyfaces 257\n",
    ),
    // Two units apart: each two of the 129 strips are a pair.
    (
        128,
        512,
        0,
        "version 1 pieces 128\n\
         refused toomanypairs 8256\n",
    ),
];

#[test]
fn too_much_is_not_folded(rt: HostRuntime) -> Result<(), Fail> {
    let alloc = rt.alloc();
    for (lines, step, growth, replies) in TOO_MUCH {
        let script = strips(alloc, lines, step, growth)?;
        let (status, sink) = answer(&rt, alloc, script.as_bytes(), ROOM, ROOM, &[], &[])?;
        has_text(&rt, &sink, replies, "upright mountains");
        assert_eq!(rt; status, 1, "{lines}");
    }
    Ok(())
}

// Each three of forty strips lie on one another: 9,880 rules of transitivity alone. They find room, and the search begins.
#[test]
fn forty_strips_are_searched(rt: HostRuntime) -> Result<(), Fail> {
    let alloc = rt.alloc();
    let mut script = strips(alloc, 39, 2560, 0)?;
    script.push_str("budget 1\nanother 1\nwait 1\n")?;
    let (status, sink) = answer(&rt, alloc, script.as_bytes(), ROOM, ROOM, &[], &[])?;
    has_text(
        &rt,
        &sink,
        "version 1 pieces 39\n\
         job 1 version 1 faces 40 pairs 780\n\
         budget 1\n\
         asked 1\n\
         job 1 version 1 paused\n",
        "forty strips",
    );
    assert_eq!(rt; status, 0);
    Ok(())
}

// A cancelled job counts too.
#[test]
fn there_are_64_jobs_at_most(rt: HostRuntime) -> Result<(), Fail> {
    let alloc = rt.alloc();
    let mut script = String::new(alloc);
    let mut replies = String::new(alloc);
    for job in 1..=64 {
        script.push_str("fold\n")?;
        writeln!(replies, "job {job} version 0 faces 1 pairs 0")?;
    }
    script.push_str("fold\ncancel 64\nfold\nanother 65\n2 0 -200 0 0\nfold\n")?;
    replies.push_str(
        "refused toomanyjobs\n\
         cancelled 64\n\
         refused toomanyjobs\n\
         refused nosuchjob 65\n\
         version 1 pieces 1\n\
         refused toomanyjobs\n",
    )?;
    let (status, sink) = answer(&rt, alloc, script.as_bytes(), ROOM, ROOM, &[], &[])?;
    has_text(&rt, &sink, replies.as_str(), "many jobs");
    assert_eq!(rt; status, 1);
    Ok(())
}

// All jobs together have so many asks. One that is refused for another reason is none.
#[test]
fn there_are_ten_thousand_asks_at_most(rt: HostRuntime) -> Result<(), Fail> {
    let alloc = rt.alloc();
    let mut script = String::new(alloc);
    let mut replies = String::new(alloc);
    script.push_str("fold\nanother 2\nanother 1\nanother 1\nwait 1\n")?;
    replies.push_str(
        "job 1 version 0 faces 1 pairs 0\n\
         refused nosuchjob 2\n\
         asked 1\n\
         refused busy 1\n\
         job 1 version 0 order 1 .\n",
    )?;
    for _ in 1..10_000 {
        script.push_str("another 1\nwait 1\n")?;
        replies.push_str("asked 1\njob 1 version 0 no more\n")?;
    }
    script.push_str("another 1\nfold\nanother 2\nwait 2\n")?;
    replies.push_str(
        "refused toomanyasks\n\
         job 2 version 0 faces 1 pairs 0\n\
         refused toomanyasks\n\
         refused nothingasked 2\n",
    )?;
    let room = replies.len();
    let (status, sink) = answer(&rt, alloc, script.as_bytes(), ROOM, room, &[], &[])?;
    has_text(&rt, &sink, replies.as_str(), "many asks");
    assert_eq!(rt; status, 1);
    Ok(())
}
