//! How a script falls into lines and words, and how a line is judged.

use crate::runs::{ROOM, Row, answer, has_text};
use std::alloc::{AllocError, Global};
use std::test::Fail;

pub const LINES: [Row; 9] = [
    (
        "2 0 -200 0 200\r\nundo\r\n",
        "version 1 pieces 1\nversion 0 pieces 0\n",
        0,
    ),
    (
        "\t2\t0 \t-200  0\t200\t\n\n \t \r\n\r\n undo ",
        "version 1 pieces 1\nversion 0 pieces 0\n",
        0,
    ),
    ("redo\r", "refused nothingtoredo\n", 1),
    (
        "undo\r\r\nun\rdo\nundo\r undo\n\r \nundo",
        "refused unknownword\n\
         refused unknownword\n\
         refused unknownword\n\
         refused unknownword\n\
         refused nothingtoundo\n",
        1,
    ),
    ("\n\r\n \n\t\r\n \t", "", 0),
    (
        "é\n\u{ff}\u{7f} undo\nundo\u{a0}\n\0\nundo é\n2 0 é 0 0\n",
        "refused unknownword\n\
         refused unknownword\n\
         refused unknownword\n\
         refused unknownword\n\
         refused wrongcount\n\
         refused badnumber 2\n",
        1,
    ),
    // The first word, then the number of words, then the words from the left.
    (
        "Undo\n\
         2x 0 0 1 0\n\
         -2 0 0 1 0\n\
         0 x\n\
         02 0 0 1 0\n\
         22 0 0 1 0\n\
         6 0 0 1 0\n\
         2\n\
         2 x x x\n\
         2 0 0 1 0 0\n\
         redo redo\n",
        "refused unknownword\n\
         refused unknownword\n\
         refused unknownword\n\
         refused badkind\n\
         refused badkind\n\
         refused badkind\n\
         refused badkind\n\
         refused wrongcount\n\
         refused wrongcount\n\
         refused wrongcount\n\
         refused wrongcount\n",
        1,
    ),
    // The kind of `set` is its first word, so its coordinates stand at the places 2 to 5.
    (
        "delete 0 0 0\n\
         delete 0 0 0 0 0\n\
         delete x 0 0.1 0\n\
         delete 0 0 0 1e3\n\
         set\n\
         set 4\n\
         set 4 0 0 0 0\n\
         set x 0 0 0 0\n\
         set 02 0 0 0 0\n\
         set 4 x 0 0 0\n\
         set 2 x 0 0 0\n\
         set 3 0 0 0 0.1\n\
         set 3 0 0 99999999999\n\
         merge x\n\
         clear x\n\
         list x\n\
         sheet\n\
         sheet 0 0 1 0 0\n\
         sheet 0 0 1 0\n\
         sheet 0 0 1 0 0 x\n\
         load x\n\
         end\n\
         end x\n\
         Load\n\
         subfaces\n\
         peek x\n",
        "refused wrongcount\n\
         refused wrongcount\n\
         refused badnumber 1\n\
         refused notexact 4\n\
         refused wrongcount\n\
         refused wrongcount\n\
         refused badkind\n\
         refused badkind\n\
         refused badkind\n\
         refused badkind\n\
         refused badnumber 2\n\
         refused notexact 5\n\
         refused wrongcount\n\
         refused wrongcount\n\
         refused wrongcount\n\
         refused wrongcount\n\
         refused wrongcount\n\
         refused wrongcount\n\
         refused wrongcount\n\
         refused badnumber 6\n\
         refused wrongcount\n\
         refused unknownword\n\
         refused unknownword\n\
         refused unknownword\n\
         refused unknownword\n\
         refused badnumber 1\n",
        1,
    ),
    (
        "2 0 x 0.1 99999999999\n\
         2 0 0.1 x 99999999999\n\
         2 0 0 99999999999 x\n\
         2 0 0 0 1e3\n\
         2 .5 0 0 0\n\
         2 0 5. 0 0\n\
         2 0 0 +5 0\n\
         2 0 0 0 2r2-1\n\
         1 x 0 0 0\n\
         2 68719476736 0 68719476737 0\n",
        "refused badnumber 2\n\
         refused notexact 2\n\
         refused outofrange 3\n\
         refused notexact 4\n\
         refused badnumber 1\n\
         refused badnumber 2\n\
         refused badnumber 3\n\
         refused badnumber 4\n\
         refused badnumber 1\n\
         refused outofrange 3\n",
        1,
    ),
];

// A text, then a word filled up with spaces to a length, then the end of the line.
fn padded(
    alloc: Global,
    before: &str,
    word: &str,
    length: usize,
    end: &str,
) -> Result<Vec<u8>, AllocError> {
    let mut line = word.as_bytes().to_vec(alloc)?;
    line.resize(length, b' ')?;
    let mut script = before.as_bytes().to_vec(alloc)?;
    script.extend_from_slice(line.as_slice())?;
    script.extend_from_slice(end.as_bytes())?;
    Ok(script)
}

// What stands before a line, its word, its length, the end of the line, and the replies. A long `load` begins no block,
// and a long `end` is a bad line of a block and ends none.
const LENGTHS: [(&str, &str, usize, &str, &str); 17] = [
    ("", "undo", 1_000, "\n", "refused nothingtoundo\n"),
    ("", "undo", 1_000, "\r\n", "refused nothingtoundo\n"),
    ("", "undo", 1_000, "\r", "refused nothingtoundo\n"),
    ("", "undo", 1_000, "", "refused nothingtoundo\n"),
    ("", "undo", 1_001, "\n", "refused longline\n"),
    ("", "undo", 1_001, "\r\n", "refused longline\n"),
    ("", "fly", 1_001, "", "refused longline\n"),
    ("", "", 1_001, "\n", ""),
    ("", "", 4_000, "\r", ""),
    ("", "load", 1_000, "\n", "refused load unended\n"),
    (
        "",
        "load",
        1_001,
        "\nundo",
        "refused longline\nrefused nothingtoundo\n",
    ),
    (
        "load\n",
        "end",
        1_000,
        "\r\nundo",
        "version 1 pieces 0\nversion 0 pieces 0\n",
    ),
    (
        "load\n",
        "end",
        1_001,
        "\nundo\nend",
        "refused load 1 longline\n",
    ),
    ("load\n", "end", 1_001, "", "refused load 1 longline\n"),
    ("load\n", "", 1_001, "\nend\n", "version 1 pieces 0\n"),
    (
        "load\n",
        "2 0 -200 0 200",
        1_000,
        "\nend\n",
        "version 1 pieces 1\n",
    ),
    (
        "load\n",
        "2 0 -200 0 200",
        1_001,
        "\nend\n",
        "refused load 1 longline\n",
    ),
];

#[test]
fn a_line_has_a_thousand_bytes_at_most(rt: HostRuntime) -> Result<(), Fail> {
    for (before, word, length, end, replies) in LENGTHS {
        let script = padded(rt.alloc(), before, word, length, end)?;
        let (status, sink) = answer(&rt, rt.alloc(), script.as_slice(), ROOM, ROOM, &[], &[])?;
        has_text(&rt, &sink, replies, word);
        let refused = u8::from(replies.starts_with("refused"));
        assert_eq!(rt; status, refused, "{word} {length}");
    }
    Ok(())
}
