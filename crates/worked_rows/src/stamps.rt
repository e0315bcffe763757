//! Strips of stamps: all layer orders of a strip that is creased from stamp to stamp, for each choice of mountains and
//! valleys, as a model gives them that shares nothing with the editor.

use crate::runs::{ROOM, answer, has_text};
use std::alloc::{AllocError, Global};
use std::process::Abort;
use std::str;
use std::sync::Wait;
use std::test::Fail;
use std::thread::Threads;

/// The creases from left to right, M a mountain and V a valley, and the layer orders in their order.
type Strip = (&'static str, &'static str);

// For two to six stamps: how many orders there are in all, how many open lists one strip has at most, and the strips.
const STAMPS: [(usize, usize, &[Strip]); 5] = [
    (2, 0, &[("M", "+"), ("V", "-")]),
    (
        6,
        3,
        &[
            ("MM", "++- +--"),
            ("MV", "+++"),
            ("VM", "---"),
            ("VV", "-++ --+"),
        ],
    ),
    (
        16,
        14,
        &[
            ("MMM", "+++--+ +-+-++ +----+"),
            ("MMV", "+++--- +-----"),
            ("MVM", "++++++"),
            ("MVV", "+++++- ++-+--"),
            ("VMM", "--+-++ -----+"),
            ("VMV", "------"),
            ("VVM", "-+++++ ---+++"),
            ("VVV", "-++++- -+-+-- ---++-"),
        ],
    ),
    (
        50,
        52,
        &[
            ("MMMM", "++++---++- +-++-++++- +-+--+-+-- +------++-"),
            ("MMMV", "++++---+++ +-++-+++++ +--+---+++ +------+++"),
            ("MMVM", "++++------ +++------- +---------"),
            ("MMVV", "++++--+-++ ++++-----+ +--+--+-++ +--------+"),
            ("MVMM", "+++++++++- ++++++-+-- +++-++-+--"),
            ("MVMV", "++++++++++"),
            ("MVVM", "+++++++--- ++--+-----"),
            ("MVVV", "+++++++--+ ++-++-+-++ ++-++----+ ++--+----+"),
            ("VMMM", "--++-++++- --+--++++- --+--+-+-- -------++-"),
            ("VMMV", "--++-+++++ -------+++"),
            ("VMVM", "----------"),
            ("VMVV", "---+--+-++ ------+-++ ---------+"),
            ("VVMM", "-++++++++- -++-++-+-- ----+++++- ----++-+--"),
            ("VVMV", "-+++++++++ ---+++++++ ----++++++"),
            ("VVVM", "-++++++--- -++-+++--- -+--+----- ----+++---"),
            ("VVVV", "-++++++--+ -+-++-+-++ -+--+----+ ----+++--+"),
        ],
    ),
    (
        144,
        144,
        &[
            (
                "MMMMM",
                "+++++----+++--+ +-+++-++++++--+ +-+-+-+-++-+-++ +-+---+--+----+ +--------+++--+",
            ),
            (
                "MMMMV",
                "+++++----+++--- +-+++-++++++--- +-++--++-+++--- +-+---+--+----- +--------+++---",
            ),
            (
                "MMMVM",
                "+++++----++++++ +-+++-+++++++++ +--++----++++++ +---+---+++++++ +--------++++++",
            ),
            (
                "MMMVV",
                "+++++----+++++- +++++----++-+-- +-+++-++++++++- +-++--++-++-+-- +--++----+++++- \
                 +--------+++++- +--------++-+--",
            ),
            (
                "MMVMM",
                "+++++------+-++ +++++---------+ +++-+---+--+-++ +++-----------+ +---+---+--+-++ \
                 +----------+-++ +-------------+",
            ),
            ("MMVMV", "+++++---------- +++------------ +--------------"),
            (
                "MMVVM",
                "+++++--++-+++++ +++++-------+++ +--++--++-+++++ +-----------+++",
            ),
            (
                "MMVVV",
                "+++++--++-++++- +++++-------++- ++++---+--+-+-- +--++--++-++++- +--+---+--++++- \
                 +--+---+--+-+-- +-----------++-",
            ),
            (
                "MVMMM",
                "++++++++++++--+ +++++++--+----+ +++-+++-++-+-++ +++-+++-++----+ +++--++--+----+",
            ),
            ("MVMMV", "++++++++++++--- +++++++--+----- +++--++--+-----"),
            ("MVMVM", "+++++++++++++++"),
            ("MVMVV", "++++++++++++++- +++++++++++-+-- ++++-+++-++-+--"),
            (
                "MVVMM",
                "+++++++++--+-++ +++++++++-----+ ++--++--+--+-++ ++---+--------+",
            ),
            ("MVVMV", "+++++++++------ ++++-+++------- ++---+---------"),
            (
                "MVVVM",
                "+++++++++---+++ ++-+++-++-+++++ ++-+++------+++ ++--++--+---+++ ++---+------+++",
            ),
            (
                "MVVVV",
                "+++++++++---++- ++-+++-++-++++- ++-+++------++- ++-+-+-+--+-+-- ++---+------++-",
            ),
            (
                "VMMMM",
                "--+++-++++++--+ --+-+-+-++-+-++ --+---++++++--+ --+---+--+----+ ---------+++--+",
            ),
            (
                "VMMMV",
                "--+++-++++++--- --++--++-+++--- --+---++++++--- --+---+--+----- ---------+++---",
            ),
            ("VMMVM", "--+++-+++++++++ ----+---+++++++ ---------++++++"),
            (
                "VMMVV",
                "--+++-++++++++- --++--++-++-+-- ---------+++++- ---------++-+--",
            ),
            ("VMVMM", "----+---+--+-++ -----------+-++ --------------+"),
            ("VMVMV", "---------------"),
            ("VMVVM", "---++--++-+++++ -------++-+++++ ------------+++"),
            (
                "VMVVV",
                "---++--++-++++- ---+---+--++++- ---+---+--+-+-- -------++-++++- ------------++-",
            ),
            (
                "VVMMM",
                "-+++++++++++--+ -++-+++-++-+-++ -++-+++-++----+ -++--++--+----+ ----+++-++-+-++ \
                 -----+++++++--+ -----++--+----+",
            ),
            (
                "VVMMV",
                "-+++++++++++--- -++--++--+----- -----+++++++--- -----++--+-----",
            ),
            ("VVMVM", "-++++++++++++++ ---++++++++++++ -----++++++++++"),
            (
                "VVMVV",
                "-+++++++++++++- -++++++++++-+-- -+++-+++-++-+-- ---+++++++++++- ---+-+++-++-+-- \
                 -----+++++++++- -----++++++-+--",
            ),
            (
                "VVVMM",
                "-++++++++--+-++ -++++++++-----+ -++--++++-----+ -+--++--+--+-++ -+---+--------+ \
                 -----++++--+-++ -----++++-----+",
            ),
            (
                "VVVMV",
                "-++++++++------ -+++-+++------- -++--++++------ -+---+--------- -----++++------",
            ),
            (
                "VVVVM",
                "-++++++++---+++ -+-+++-++-+++++ -+--++--+---+++ -+---+------+++ -----++++---+++",
            ),
            (
                "VVVVV",
                "-++++++++---++- -+-+++-++-++++- -+-+-+-+--+-+-- -+---+------++- -----++++---++-",
            ),
        ],
    ),
];

// A sheet of stamps with its creases, and a job of it.
fn folded_strip(alloc: Global, creases: &str) -> Result<String, AllocError> {
    let mut script = String::new(alloc);
    let long = creases.len().saturating_add(1).saturating_mul(100);
    writeln!(script, "sheet 0 0 {long} 0 {long} 100 0 100")?;
    let mut at = 0_u32;
    for crease in creases.bytes() {
        at = at.saturating_add(100);
        let kind = match crease {
            b'M' => 2,
            b'V' => 3,
            _ => 5,
        };
        writeln!(script, "{kind} {at} 0 {at} 100")?;
    }
    script.push_str("fold\n")?;
    Ok(script)
}

// The replies up to the job: as many pieces as versions but one, and as many pairs as there are twos of stamps.
fn job_replies(alloc: Global, creases: &str) -> Result<String, AllocError> {
    let mut replies = String::new(alloc);
    let mut pairs = 0_usize;
    for pieces in 0..=creases.len() {
        let version = pieces.saturating_add(1);
        writeln!(replies, "version {version} pieces {pieces}")?;
        pairs = pairs.saturating_add(pieces);
    }
    let stamps = creases.len().saturating_add(1);
    writeln!(
        replies,
        "job 1 version {stamps} faces {stamps} pairs {pairs}"
    )?;
    Ok(replies)
}

fn push_asks(script: &mut String, asks: usize) -> Result<(), AllocError> {
    for _ in 0..asks {
        script.push_str("another 1\nwait 1\n")?;
    }
    Ok(())
}

// Adds what is answered, from the first order on, and how many orders there are.
fn push_orders(
    replies: &mut String,
    version: usize,
    orders: &str,
    asked: &str,
) -> Result<usize, AllocError> {
    let mut number = 0_usize;
    for order in orders.split(' ') {
        number = number.saturating_add(1);
        writeln!(
            replies,
            "{asked}job 1 version {version} order {number} {order}"
        )?;
    }
    Ok(number)
}

// Asks once more than there are orders, and compares every reply. The answer is how many orders there are.
fn strip_meets<R: Abort + Threads + Wait + Sync>(
    rt: &R,
    alloc: Global,
    strip: (&str, &str),
) -> Result<usize, AllocError> {
    let (creases, orders) = strip;
    let mut script = folded_strip(alloc, creases)?;
    let mut replies = job_replies(alloc, creases)?;
    let version = creases.len().saturating_add(1);
    let number = push_orders(&mut replies, version, orders, "asked 1\n")?;
    push_asks(&mut script, number.saturating_add(1))?;
    writeln!(replies, "asked 1\njob 1 version {version} no more")?;
    let (status, sink) = answer(rt, alloc, script.as_bytes(), ROOM, ROOM, &[], &[])?;
    has_text(rt, &sink, replies.as_str(), creases);
    assert_eq!(rt; status, 0, "{creases}");
    Ok(number)
}

// A strip with as many creases, all of them unassigned.
fn free_creases(alloc: Global, strips: &[Strip]) -> Result<String, AllocError> {
    let mut creases = String::new(alloc);
    if let Some((assigned, _)) = strips.first() {
        for _ in assigned.bytes() {
            creases.push('U')?;
        }
    }
    Ok(creases)
}

// The orders of all strips in one lexicographic order.
fn all_orders(alloc: Global, strips: &[Strip]) -> Result<String, AllocError> {
    let mut all = Vec::new(alloc);
    for (_, orders) in strips {
        for order in orders.split(' ') {
            all.push(order)?;
        }
    }
    all.sort_unstable();
    let mut text = String::new(alloc);
    for (k, order) in all.iter().enumerate() {
        if k > 0 {
            text.push(' ')?;
        }
        text.push_str(order)?;
    }
    Ok(text)
}

// Each choice of mountains and valleys by itself, and then, with unassigned creases, all of them at once.
#[test]
fn stamps_fold_in_all_ways(rt: HostRuntime) -> Result<(), Fail> {
    let alloc = rt.alloc();
    for (ways, _, strips) in STAMPS {
        let mut orders = 0_usize;
        for strip in strips {
            orders = orders.saturating_add(strip_meets(&rt, alloc, *strip)?);
        }
        assert_eq!(rt; orders, ways);
        let creases = free_creases(alloc, strips)?;
        let all = all_orders(alloc, strips)?;
        assert_eq!(rt;
            strip_meets(&rt, alloc, (creases.as_str(), all.as_str()))?,
            ways
        );
    }
    Ok(())
}

// The replies without `asked` and without pauses, and how many pauses there were.
fn without_pauses(alloc: Global, text: &str) -> Result<(String, usize), AllocError> {
    let mut rest = String::new(alloc);
    let mut pauses = 0_usize;
    for line in text.split('\n') {
        if line.ends_with(" paused") {
            pauses = pauses.saturating_add(1);
        } else if !line.is_empty() && !line.starts_with("asked") {
            rest.push_str(line)?;
            rest.push('\n')?;
        }
    }
    Ok((rest, pauses))
}

const ASKS: usize = 160;

// Asks many times with a budget of one. Between pauses, of which there are so many at most, the orders come as before, and
// then "no more" to each ask.
fn pauses_pass_nothing<R: Abort + Threads + Wait + Sync>(
    rt: &R,
    alloc: Global,
    job: (&str, &str),
    version: usize,
    orders: &str,
    open: usize,
) -> Result<(), AllocError> {
    let (commands, first_replies) = job;
    let mut script = String::new(alloc);
    script.push_str("budget 1\n")?;
    script.push_str(commands)?;
    push_asks(&mut script, ASKS)?;
    let (status, sink) = answer(rt, alloc, script.as_bytes(), ROOM, ROOM, &[], &[])?;
    let (rest, pauses) = without_pauses(alloc, str::from_utf8(sink.bytes()).unwrap_or("no text"))?;
    let mut wanted = String::new(alloc);
    wanted.push_str("budget 1\n")?;
    wanted.push_str(first_replies)?;
    let number = push_orders(&mut wanted, version, orders, "")?;
    for _ in number.saturating_add(pauses)..ASKS {
        writeln!(wanted, "job 1 version {version} no more")?;
    }
    assert_eq!(rt; rest.as_str(), wanted.as_str(), "the replies to {commands}");
    assert!(rt; pauses <= open, "{pauses} pauses of {commands}");
    assert_eq!(rt; status, 0, "{commands}");
    Ok(())
}

#[test]
fn pauses_pass_no_order(rt: HostRuntime) -> Result<(), Fail> {
    let alloc = rt.alloc();
    let fours = (
        "2 -100 -200 -100 200\n\
         2 0 -200 0 200\n\
         2 100 -200 100 200\n\
         fold\n",
        "version 1 pieces 1\n\
         version 2 pieces 2\n\
         version 3 pieces 3\n\
         job 1 version 3 faces 4 pairs 6\n",
    );
    pauses_pass_nothing(&rt, alloc, fours, 3, "+++--+ +-+-++ +----+", 14)?;
    for (_, open, strips) in STAMPS {
        for (creases, orders) in strips {
            let commands = folded_strip(alloc, creases)?;
            let replies = job_replies(alloc, creases)?;
            let version = creases.len().saturating_add(1);
            let job = (commands.as_str(), replies.as_str());
            pauses_pass_nothing(&rt, alloc, job, version, orders, open)?;
        }
    }
    Ok(())
}
