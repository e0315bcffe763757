//! Tables of scripts with their commands, and of replies with their texts, worked by hand.

use cp_text::{CpLine, LineFault, append_number, write_line, write_number};
use crease_model::Kind;
use crease_store::StoreRefusal;
use plane_geometry::{Dir, Point};
use script_lang::{
    Command, Commands, Corners, LoadCause, LoadLines, LoadStop, Refusal, Reply, is_load,
    read_command, read_file, read_script, refusal_of_line, write_head,
};
use sign_rules::{Order, Sign};
use std::alloc::{AllocError, Global};
use std::test::Fail;
use surd_number::Surd;

fn put_point(out: &mut Vec<u8>, point: &Point) -> Result<(), AllocError> {
    out.push(b' ')?;
    write_number(out, &point.x)?;
    out.push(b' ')?;
    write_number(out, &point.y)
}

// A word, two points and a line feed.
fn put_ends(out: &mut Vec<u8>, word: &[u8], from: &Point, to: &Point) -> Result<(), AllocError> {
    out.extend_from_slice(word)?;
    put_point(out, from)?;
    put_point(out, to)?;
    out.extend_from_slice(b"\n")
}

fn put_kind_line(
    out: &mut Vec<u8>,
    kind: Kind,
    from: &Point,
    to: &Point,
) -> Result<(), AllocError> {
    let line = CpLine {
        kind,
        from: *from,
        to: *to,
    };
    write_line(out, &line)
}

fn put_refusal(out: &mut Vec<u8>, refusal: Refusal) -> Result<(), AllocError> {
    write_head(out, &Reply::Refused { refusal })
}

fn put_stop(out: &mut Vec<u8>, stop: LoadStop) -> Result<(), AllocError> {
    match stop {
        LoadStop::Ended => out.extend_from_slice(b"ended\n"),
        LoadStop::Unended => put_refusal(out, Refusal::LoadUnended),
        LoadStop::Bad { number, fault } => {
            let cause = LoadCause::Line { fault };
            put_refusal(out, Refusal::LoadLine { number, cause })
        }
    }
}

fn put_load(out: &mut Vec<u8>, lines: &LoadLines, stop: LoadStop) -> Result<(), AllocError> {
    out.extend_from_slice(b"load\n")?;
    for line in lines.as_slice() {
        for _ in 0..line.number {
            out.push(b'.')?;
        }
        put_kind_line(out, line.kind, &line.from, &line.to)?;
    }
    put_stop(out, stop)
}

fn put_sheet(out: &mut Vec<u8>, corners: &Corners) -> Result<(), AllocError> {
    out.extend_from_slice(b"sheet")?;
    for corner in corners.as_slice() {
        put_point(out, corner)?;
    }
    out.extend_from_slice(b"\n")
}

fn put_set(out: &mut Vec<u8>, kind: Kind, from: &Point, to: &Point) -> Result<(), AllocError> {
    out.extend_from_slice(b"set ")?;
    put_kind_line(out, kind, from, to)
}

fn put_number(out: &mut Vec<u8>, word: &[u8], n: u64) -> Result<(), AllocError> {
    out.extend_from_slice(word)?;
    append_number(out, n)?;
    out.extend_from_slice(b"\n")
}

fn put_command(out: &mut Vec<u8>, command: &Command) -> Result<(), AllocError> {
    match command {
        Command::Add { kind, from, to } => put_kind_line(out, *kind, from, to),
        Command::Delete { from, to } => put_ends(out, b"delete", from, to),
        Command::Set { kind, from, to } => put_set(out, *kind, from, to),
        Command::Merge => out.extend_from_slice(b"merge\n"),
        Command::Clear => out.extend_from_slice(b"clear\n"),
        Command::Sheet { corners } => put_sheet(out, corners),
        Command::Load { lines, stop } => put_load(out, lines, *stop),
        Command::Undo => out.extend_from_slice(b"undo\n"),
        Command::Redo => out.extend_from_slice(b"redo\n"),
        Command::List => out.extend_from_slice(b"list\n"),
        Command::Check => out.extend_from_slice(b"check\n"),
        Command::Fold => out.extend_from_slice(b"fold\n"),
        Command::Another { job } => put_number(out, b"another ", u64::from(*job)),
        Command::Budget { budget } => put_number(out, b"budget ", *budget),
        Command::Peek { job } => put_number(out, b"peek ", u64::from(*job)),
        Command::Wait { job } => put_number(out, b"wait ", u64::from(*job)),
        Command::Cancel { job } => put_number(out, b"cancel ", u64::from(*job)),
        Command::Bad { fault } => put_refusal(out, refusal_of_line(*fault)),
    }
}

// The texts of a script's commands.
fn shown(alloc: Global, script: &str) -> Result<Vec<u8>, AllocError> {
    let mut out = Vec::new(alloc);
    if script.len() < 1_000_000 {
        for command in read_script(alloc, script.as_bytes())?.as_slice() {
            put_command(&mut out, command)?;
        }
    }
    Ok(out)
}

const SCRIPTS: [(&str, &str); 18] = [
    (
        "2 0 -200 0 200\n\n4 1r2 0.50 1 -1\r\nundo\nredo\n list \nmerge\ncheck\nclear\ncheck 1",
        "2 0 -200 0 200\n4 1r2 0.5 1 -1\nundo\nredo\nlist\nmerge\ncheck\nclear\nrefused wrongcount\n",
    ),
    (
        "delete 0 0 1 1\ndelete 0 0 1\ndelete 0 0 1 1 1\ndelete 0 x 0.3 1\ndelete 0 0 0 0.3\n",
        "delete 0 0 1 1\n\
         refused wrongcount\n\
         refused wrongcount\n\
         refused badnumber 2\n\
         refused notexact 4\n",
    ),
    (
        "set 2 0 0 1 1\nset 3 0 0 1 1\nset 5 0 0 1 1\nset 1 x 0 1 1\nset 4 0 0 1 1\nset 02 0 0 1 1\nset\nset 5 0 0 1\nset 2 0 0 1 68719476737\n",
        "set 2 0 0 1 1\n\
         set 3 0 0 1 1\n\
         set 5 0 0 1 1\n\
         refused badkind\n\
         refused badkind\n\
         refused badkind\n\
         refused wrongcount\n\
         refused wrongcount\n\
         refused outofrange 5\n",
    ),
    (
        "sheet 0 0 1 0 0 1\nsheet 0 0 1 0\nsheet 0 0 1 0 0 1 1\nsheet 0 0 1 0 0.3 x\nmerge 1\nclear clear\n",
        "sheet 0 0 1 0 0 1\n\
         refused wrongcount\n\
         refused wrongcount\n\
         refused notexact 5\n\
         refused wrongcount\n\
         refused wrongcount\n",
    ),
    (
        "sheet 1 2 3 4 5 6 7 8 9 10 11 12 13 14 15 16 17 18 19 20 21 22 23 24 25 26 27 28 29 30 31 32\n\
         sheet 1 2 3 4 5 6 7 8 9 10 11 12 13 14 15 16 17 18 19 20 21 22 23 24 25 26 27 28 29 30 31 32 33\n\
         sheet 1 2 3 4 5 6 7 8 9 10 11 12 13 14 15 16 17 18 19 20 21 22 23 24 25 26 27 28 29 30 31 32 33 34\n",
        "sheet 1 2 3 4 5 6 7 8 9 10 11 12 13 14 15 16 17 18 19 20 21 22 23 24 25 26 27 28 29 30 31 32\n\
         refused wrongcount\n\
         refused wrongcount\n",
    ),
    (
        "fold\n\tfold \nfold 1\n",
        "fold\nfold\nrefused wrongcount\n",
    ),
    // A job is any number of 32 bits, with zeros in front up to ten digits.
    (
        "another 1\nanother 0\nanother 0000000012\nanother 4294967295\nanother 4294967296\nanother 9999999999\n\
         another 00000000012\nanother 42949672950\nanother\nanother 1 2\nanother x 2\n",
        "another 1\n\
         another 0\n\
         another 12\n\
         another 4294967295\n\
         refused badnumber 1\n\
         refused badnumber 1\n\
         refused badnumber 1\n\
         refused badnumber 1\n\
         refused wrongcount\n\
         refused wrongcount\n\
         refused wrongcount\n",
    ),
    (
        "another x\nanother -1\nanother 1.0\nanother 1r2\nanother +1\nanother 0.3\nanother 1e3\nanother 1x\n",
        "refused badnumber 1\n\
         refused badnumber 1\n\
         refused badnumber 1\n\
         refused badnumber 1\n\
         refused badnumber 1\n\
         refused badnumber 1\n\
         refused badnumber 1\n\
         refused badnumber 1\n",
    ),
    (
        "budget 1\nbudget 1000000000\nbudget 0000000016\nbudget 0\nbudget 0000000000\nbudget 1000000001\n\
         budget 01000000000\nbudget -5\nbudget x\nbudget\nbudget 1 1\n",
        "budget 1\n\
         budget 1000000000\n\
         budget 16\n\
         refused badnumber 1\n\
         refused badnumber 1\n\
         refused badnumber 1\n\
         refused badnumber 1\n\
         refused badnumber 1\n\
         refused badnumber 1\n\
         refused wrongcount\n\
         refused wrongcount\n",
    ),
    (
        "peek 3\nwait 4294967295\ncancel 007\npeek 4294967296\nwait x\ncancel 4294967296\npeek\nwait 1 2\ncancel\n",
        "peek 3\n\
         wait 4294967295\n\
         cancel 7\n\
         refused badnumber 1\n\
         refused badnumber 1\n\
         refused badnumber 1\n\
         refused wrongcount\n\
         refused wrongcount\n\
         refused wrongcount\n",
    ),
    // Words in capitals and longer ones are others, and a bad word comes before a bad count.
    (
        "Fold\nfolds\nanothe 1\nsubfaces 1\npeek1\nbudgets\n",
        "refused unknownword\n\
         refused unknownword\n\
         refused unknownword\n\
         refused unknownword\n\
         refused unknownword\n\
         refused unknownword\n",
    ),
    // Blank lines are counted, and what follows `end` is no part of the block.
    (
        "load\n2 0 0 1 1\n\n \t\r\n 1 0 0 1 0 \n end \nend\nundo\n",
        "load\n.2 0 0 1 1\n....1 0 0 1 0\nended\nrefused unknownword\nundo\n",
    ),
    // A bad line ends the lines, and the block goes on to its end.
    (
        "load\r\n2 0 0 1 1\n9 0 0 1 1\n3 0 0 1 1\nundo\nend\r\nredo\n",
        "load\n.2 0 0 1 1\nrefused load 2 badkind\nredo\n",
    ),
    // In a block no other line is a command, `load` and a longer `end` among them.
    ("load\nload\nend", "load\nrefused load 1 unknownword\n"),
    (
        "load\n2 0 0 1 1\nend 2\nend\n",
        "load\n.2 0 0 1 1\nrefused load 2 unknownword\n",
    ),
    ("load\n2 0 0 1 x\n", "load\nrefused load 1 badnumber 4\n"),
    ("undo\nload", "undo\nload\nrefused load unended\n"),
    (
        "load 1\nload\n2 0 0 1 1\n",
        "refused wrongcount\nload\n.2 0 0 1 1\nrefused load unended\n",
    ),
];

#[test]
fn reads_scripts(rt: HostRuntime) -> Result<(), Fail> {
    for (script, text) in SCRIPTS {
        assert_eq!(rt; shown(rt.alloc(), script)?.as_slice(), text.as_bytes());
    }
    Ok(())
}

// A file as Oriedita writes it, the sides first; then files that end in a bad line, in `end`, or that are empty.
const FILES: [(&str, &str); 4] = [
    (
        "1 -200.0 -200.0 200.0 -200.0\n1 200 -200 200 200\n\n2 0.0 -200.0 0.0 200.0\n3 0 0 1r2 0",
        "load\n.1 -200 -200 200 -200\n..1 200 -200 200 200\n....2 0 -200 0 200\n.....3 0 0 1r2 0\nended\n",
    ),
    (
        "1 -200 -200 200 -200\n2 0 -82.84271247461902 0 200\n2 0 0 1 1\n",
        "load\n.1 -200 -200 200 -200\nrefused load 2 notexact 2\n",
    ),
    ("end\n2 0 0 1 1\n", "load\nrefused load 1 unknownword\n"),
    ("", "load\nended\n"),
];

#[test]
fn reads_files(rt: HostRuntime) -> Result<(), Fail> {
    let alloc = rt.alloc();
    for (file, text) in FILES {
        let mut out = Vec::new(alloc);
        if file.len() < 1_000_000 {
            put_command(&mut out, &read_file(alloc, file.as_bytes())?)?;
        }
        assert_eq!(rt; out.as_slice(), text.as_bytes());
    }
    Ok(())
}

// A word and this many spaces.
fn padded(alloc: Global, word: &str, spaces: usize) -> Result<String, AllocError> {
    let mut line = String::from_str(alloc, word)?;
    for _ in 0..spaces {
        line.push(' ')?;
    }
    Ok(line)
}

#[test]
fn bounds_the_lines_of_a_block(rt: HostRuntime) -> Result<(), Fail> {
    let alloc = rt.alloc();
    let load = padded(alloc, "load", 996)?;
    assert!(rt; is_load(load.as_bytes()));
    let load = padded(alloc, "load", 997)?;
    assert!(rt; !is_load(load.as_bytes()));
    let script = format!(in alloc;
        "{load}\nload\n2 0 0 1 1\n{}\nend\n",
        padded(alloc, "end", 998)?
    )?;
    assert_eq!(rt;
        shown(alloc, script.as_str())?.as_slice(),
        b"refused longline\nload\n.2 0 0 1 1\nrefused load 2 longline\n".as_slice()
    );
    Ok(())
}

// Up from the middle of the lower side.
fn not_convex() -> Refusal {
    let at = Point {
        x: Surd::whole(0),
        y: Surd::whole(-200),
    };
    match Dir::new(4) {
        Some(direction) => Refusal::NotConvex { at, direction },
        None => Refusal::BadDirection,
    }
}

#[test]
fn writes_refusals(rt: HostRuntime) -> Result<(), Fail> {
    let add = LoadCause::Add {
        refusal: StoreRefusal::Crossing { piece: 7 },
    };
    let line = LoadCause::Line {
        fault: LineFault::NotExact { place: 2 },
    };
    let rows: [(Refusal, &str); 21] = [
        (Refusal::EdgeOffBorder, "refused edgeoffborder\n"),
        (Refusal::Crossing { piece: 1 }, "refused crossing 1\n"),
        (Refusal::NoSuchPiece, "refused nosuchpiece\n"),
        (Refusal::BadSheet { corner: 3 }, "refused badsheet 3\n"),
        (
            Refusal::LoadLine {
                number: 12,
                cause: add,
            },
            "refused load 12 crossing 7\n",
        ),
        (
            Refusal::LoadLine {
                number: 1,
                cause: line,
            },
            "refused load 1 notexact 2\n",
        ),
        (Refusal::LoadUnended, "refused load unended\n"),
        (
            Refusal::TooManyPieces { pieces: 2001 },
            "refused toomanypieces 2001\n",
        ),
        (Refusal::TooManyJobs, "refused toomanyjobs\n"),
        (not_convex(), "refused notconvex 0 -200 4\n"),
        (
            Refusal::TooManyFaces { faces: 257 },
            "refused toomanyfaces 257\n",
        ),
        (Refusal::Unreached { face: 2 }, "refused unreached 2\n"),
        (
            Refusal::DoesNotClose { piece: 3 },
            "refused doesnotclose 3\n",
        ),
        (Refusal::FoldRange { face: 2 }, "refused foldrange 2\n"),
        (
            Refusal::TooManyLines { lines: 204 },
            "refused toomanylines 204\n",
        ),
        (
            Refusal::TooManyPairs { pairs: 8256 },
            "refused toomanypairs 8256\n",
        ),
        (Refusal::NoSuchJob { job: 9 }, "refused nosuchjob 9\n"),
        (
            Refusal::Cancelled { job: 4294967295 },
            "refused cancelled 4294967295\n",
        ),
        (Refusal::Busy { job: 1 }, "refused busy 1\n"),
        (Refusal::NothingAsked { job: 1 }, "refused nothingasked 1\n"),
        (Refusal::TooManyAsks, "refused toomanyasks\n"),
    ];
    for (refusal, text) in rows {
        let mut out = Vec::new(rt.alloc());
        put_refusal(&mut out, refusal)?;
        assert_eq!(rt; out.as_slice(), text.as_bytes());
    }
    Ok(())
}

fn put_reply(alloc: Global, reply: &Reply) -> Result<Vec<u8>, AllocError> {
    let mut out = Vec::new(alloc);
    write_head(&mut out, reply)?;
    Ok(out)
}

#[test]
fn writes_replies(rt: HostRuntime) -> Result<(), Fail> {
    let rows: [(Reply, &str); 10] = [
        (
            Reply::Version {
                version: 3,
                pieces: 2000,
            },
            "version 3 pieces 2000\n",
        ),
        (
            Reply::Listed {
                version: 0,
                pieces: 0,
            },
            "list 0 0\n",
        ),
        (
            Reply::Checked {
                version: 3,
                faults: 1,
            },
            "check 3 1\n",
        ),
        (
            Reply::Job {
                job: 64,
                version: 1000,
                faces: 256,
                pairs: 8192,
            },
            "job 64 version 1000 faces 256 pairs 8192\n",
        ),
        (Reply::Asked { job: 2 }, "asked 2\n"),
        (Reply::Budget { budget: 1000000000 }, "budget 1000000000\n"),
        (
            Reply::NoMore { job: 1, version: 0 },
            "job 1 version 0 no more\n",
        ),
        (
            Reply::Paused { job: 1, version: 3 },
            "job 1 version 3 paused\n",
        ),
        (
            Reply::Running { job: 1, version: 1 },
            "job 1 version 1 running\n",
        ),
        (Reply::Cancelled { job: 1 }, "cancelled 1\n"),
    ];
    for (reply, text) in rows {
        assert_eq!(rt; put_reply(rt.alloc(), &reply)?.as_slice(), text.as_bytes());
    }
    Ok(())
}

#[test]
fn writes_layer_orders(rt: HostRuntime) -> Result<(), Fail> {
    let rows: [(u32, &[Sign], &str); 3] = [
        (1, &[], "job 1 version 0 order 1 .\n"),
        (2, &[Sign::Under], "job 1 version 0 order 2 -\n"),
        (
            4294967295,
            &[Sign::Over, Sign::Under, Sign::Under, Sign::Over],
            "job 1 version 0 order 4294967295 +--+\n",
        ),
    ];
    for (number, signs, text) in rows {
        let order = Order::with_room(rt.alloc(), signs, signs.len())?;
        let shown = Reply::Shown {
            job: 1,
            version: 0,
            number,
            order,
        };
        assert_eq!(rt; put_reply(rt.alloc(), &shown)?.as_slice(), text.as_bytes());
    }
    Ok(())
}

#[test]
fn takes_commands_one_by_one(rt: HostRuntime) -> Result<(), Fail> {
    let mut list = Vec::new(rt.alloc());
    if let Some(command) = read_command(rt.alloc(), b"clear")? {
        list.push(command)?;
    }
    let commands = Commands::of(list);
    assert_eq!(rt; commands.as_slice().len(), 1);
    for command in commands.into_vec() {
        assert!(rt; matches!(command, Command::Clear));
    }
    Ok(())
}
