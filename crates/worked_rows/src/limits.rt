//! The longest script, the last version, and the greatest pattern.

use crate::runs::{ROOM, answer, has_text};
use std::alloc::{AllocError, Global};
use std::test::Fail;

/// The room for the replies to ten thousand commands.
const LONG_ROOM: usize = 262_144;

// Empty lines and then `undo`, of a length in all.
fn long_script(alloc: Global, length: usize) -> Result<Vec<u8>, AllocError> {
    let mut script = Vec::new(alloc);
    script.resize(length.saturating_sub(4), b'\n')?;
    script.extend_from_slice(b"undo")?;
    Ok(script)
}

#[test]
fn a_script_has_four_mebibytes_at_most(rt: HostRuntime) -> Result<(), Fail> {
    let longest = long_script(rt.alloc(), 4_194_304)?;
    let (status, sink) = answer(&rt, rt.alloc(), longest.as_slice(), ROOM, ROOM, &[], &[])?;
    has_text(&rt, &sink, "refused nothingtoundo\n", "the longest script");
    assert_eq!(rt; status, 1);
    let longer = long_script(rt.alloc(), 4_194_305)?;
    let (status, sink) = answer(&rt, rt.alloc(), longer.as_slice(), ROOM, ROOM, &[], &[])?;
    has_text(&rt, &sink, "", "a longer script");
    assert_eq!(rt; status, 5);
    Ok(())
}

// Changes that leave the pattern as it was, up to a version, and the reply to each.
fn clears(alloc: Global, versions: u32) -> Result<(String, String), AllocError> {
    let mut script = String::new(alloc);
    let mut replies = String::new(alloc);
    for version in 1..=versions {
        script.push_str("clear\n")?;
        writeln!(replies, "version {version} pieces 0")?;
    }
    Ok((script, replies))
}

#[test]
fn there_are_ten_thousand_versions_at_most(rt: HostRuntime) -> Result<(), Fail> {
    let (mut script, mut replies) = clears(rt.alloc(), 10_000)?;
    script.push_str("clear\nundo\n")?;
    replies.push_str("refused full\nversion 9999 pieces 0\n")?;
    let (status, sink) = answer(
        &rt,
        rt.alloc(),
        script.as_bytes(),
        ROOM,
        LONG_ROOM,
        &[],
        &[],
    )?;
    has_text(&rt, &sink, replies.as_str(), "ten thousand clears");
    assert_eq!(rt; status, 1);
    Ok(())
}

// The last version stands, and every other change is refused. What a change would be refused for by itself comes first,
// and an undo makes no room.
#[test]
fn the_last_version_is_the_last(rt: HostRuntime) -> Result<(), Fail> {
    let (mut script, mut replies) = clears(rt.alloc(), 9_999)?;
    script.push_str(
        "2 0 -200 0 200\n\
         3 -200 0 200 0\n\
         2 0 0 0 0\n\
         undo\n\
         3 -200 0 200 0\n\
         redo\n\
         1 -200 -200 200 -200\n\
         4 0 0 100 0\n\
         4 0 0 300 0\n\
         delete 0 200 0 -200\n\
         delete 0 200 0 0\n\
         set 2 0 200 0 -200\n\
         set 2 0 200 0 0\n\
         merge\n\
         clear\n\
         sheet 0 0 100 0 0 100\n\
         sheet 0 0 100 0 0 200\n\
         load\n\
         end\n\
         load\n\
         x\n\
         end\n\
         load\n",
    )?;
    replies.push_str(
        "version 10000 pieces 1\n\
         refused full\n\
         refused zerolength\n\
         version 9999 pieces 0\n\
         refused full\n\
         version 10000 pieces 1\n\
         refused full\n\
         refused full\n\
         refused outsidesheet\n\
         refused full\n\
         refused nosuchpiece\n\
         refused full\n\
         refused nosuchpiece\n\
         refused full\n\
         refused full\n\
         refused full\n\
         refused badsheet 2\n\
         refused full\n\
         refused load 1 unknownword\n\
         refused load unended\n",
    )?;
    let (status, sink) = answer(
        &rt,
        rt.alloc(),
        script.as_bytes(),
        ROOM,
        LONG_ROOM,
        &[],
        &[],
    )?;
    has_text(&rt, &sink, replies.as_str(), "the last version");
    assert_eq!(rt; status, 1);
    Ok(())
}

// A hundred upright creases, an eighth apart, each cut once by a crease through all of them.
#[test]
fn a_crease_cuts_a_hundred_others(rt: HostRuntime) -> Result<(), Fail> {
    let mut script = String::new(rt.alloc());
    let mut replies = String::new(rt.alloc());
    for version in 1..=100 {
        let whole = version / 8;
        let thousandths = version % 8 * 125;
        writeln!(
            script,
            "3 {whole}.{thousandths:03} -200 {whole}.{thousandths:03} 200"
        )?;
        writeln!(replies, "version {version} pieces {version}")?;
    }
    script.push_str("2 -200 0 200 0\nmerge\nundo\nundo\n")?;
    replies.push_str(
        "version 101 pieces 301\n\
         version 102 pieces 301\n\
         version 101 pieces 301\n\
         version 100 pieces 100\n",
    )?;
    let (status, sink) = answer(&rt, rt.alloc(), script.as_bytes(), ROOM, ROOM, &[], &[])?;
    has_text(&rt, &sink, replies.as_str(), "upright creases");
    assert_eq!(rt; status, 0);
    Ok(())
}

// A block of as many level auxiliary lines, an eighth apart, the lowest at -199.
fn level_lines(alloc: Global, lines: u32) -> Result<String, AllocError> {
    let mut script = String::new(alloc);
    script.push_str("load\n")?;
    for line in 0..lines {
        let (sign, eighths) = if line < 1_592 {
            ("-", 1_592_u32.saturating_sub(line))
        } else {
            ("", line.saturating_sub(1_592))
        };
        let whole = eighths / 8;
        let thousandths = eighths % 8 * 125;
        writeln!(
            script,
            "4 -200 {sign}{whole}.{thousandths:03} 200 {sign}{whole}.{thousandths:03}"
        )?;
    }
    script.push_str("end\n")?;
    Ok(script)
}

// A line that is there already takes no more room, and one that goes makes some.
#[test]
fn a_pattern_has_two_thousand_pieces_at_most(rt: HostRuntime) -> Result<(), Fail> {
    let mut script = level_lines(rt.alloc(), 2_000)?;
    script.push_str(
        "4 0 0 1 0\n\
         2 0 -200 0 200\n\
         4 200 0 -200 0\n\
         delete 200 0 -200 0\n\
         2 0 -200 0 200\n\
         2 -200 0 200 0\n",
    )?;
    let (status, sink) = answer(&rt, rt.alloc(), script.as_bytes(), ROOM, ROOM, &[], &[])?;
    let replies = "version 1 pieces 2000\n\
                   refused toomanypieces 2001\n\
                   refused toomanypieces 2001\n\
                   version 2 pieces 2000\n\
                   version 3 pieces 1999\n\
                   version 4 pieces 2000\n\
                   refused toomanypieces 2003\n";
    has_text(&rt, &sink, replies, "auxiliary lines");
    assert_eq!(rt; status, 1);
    let longer = level_lines(rt.alloc(), 2_001)?;
    let (status, sink) = answer(&rt, rt.alloc(), longer.as_bytes(), ROOM, ROOM, &[], &[])?;
    has_text(
        &rt,
        &sink,
        "refused load 2001 toomanypieces 2001\n",
        "a line more",
    );
    assert_eq!(rt; status, 1);
    Ok(())
}
