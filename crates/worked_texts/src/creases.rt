//! Tables of numbers and lines as text, worked by hand.

use cp_text::{
    CpLine, LineFault, NumberFault, next_line, next_word, read_ends, read_kind, read_line,
    read_number, read_point, read_whole, sample, write_line, write_number, write_pattern,
    write_point,
};
use crease_model::{Kind, Pattern, Sheet};
use plane_geometry::Point;
use std::test::Fail;
use surd_number::Surd;

type Parts = (i64, i64, u8);

fn parts_of(number: &Result<Surd, NumberFault>) -> Result<Parts, NumberFault> {
    match number {
        Ok(n) => Ok(n.parts()),
        Err(fault) => Err(*fault),
    }
}

#[test]
fn reads_and_prints_numbers(rt: HostRuntime) -> Result<(), Fail> {
    let rows: [(&[u8], Parts, &[u8]); 20] = [
        (b"-600+400r2", (-600, 400, 0), b"-600+400r2"),
        (b"12.5-0.25r2", (50, -1, 2), b"12.5-0.25r2"),
        (b"-0.0", (0, 0, 0), b"0"),
        (b"0.50", (1, 0, 1), b"0.5"),
        (b"3r2", (0, 3, 0), b"3r2"),
        (b"1+0r2", (1, 0, 0), b"1"),
        (b"0.0000152587890625", (1, 0, 16), b"0.0000152587890625"),
        (
            b"0.000015258789062500000",
            (1, 0, 16),
            b"0.0000152587890625",
        ),
        (b"68719476736", (68719476736, 0, 0), b"68719476736"),
        (b"-68719476736.000", (-68719476736, 0, 0), b"-68719476736"),
        (b"0-68719476736r2", (0, -68719476736, 0), b"-68719476736r2"),
        (b"-0r2", (0, 0, 0), b"0"),
        (b"007", (7, 0, 0), b"7"),
        (b"-000.75r2", (0, -3, 2), b"-0.75r2"),
        (b"-0.5+1.5r2", (-1, 3, 1), b"-0.5+1.5r2"),
        (b"-0.25-2r2", (-1, -8, 2), b"-0.25-2r2"),
        (
            b"1-0.0000152587890625r2",
            (65536, -1, 16),
            b"1-0.0000152587890625r2",
        ),
        (b"10.125", (81, 0, 3), b"10.125"),
        (b"100+100r2", (100, 100, 0), b"100+100r2"),
        (b"4294967296.5", (8589934593, 0, 1), b"4294967296.5"),
    ];
    for (text, parts, printed) in rows {
        let number = read_number(text);
        assert_eq!(rt; parts_of(&number), Ok(parts), "{text:?}");
        if let Ok(number) = number {
            let mut out = Vec::new(rt.alloc());
            write_number(&mut out, &number)?;
            assert_eq!(rt; out.as_slice(), printed);
        }
    }
    Ok(())
}

#[test]
fn refuses_words_that_are_no_numbers(rt: HostRuntime) {
    let bad: [&[u8]; 24] = [
        b".5",
        b"5.",
        b"+5",
        b"r2",
        b"2r2-1",
        b"",
        b"-",
        b"--1",
        b"1+2",
        b"1+-1r2",
        b"1r2+1r2",
        b"1r",
        b"1r22",
        b"1R2",
        b"0x1",
        b"1e",
        b"1e+",
        b"e3",
        b"1e3r2",
        b"1+1e3r2",
        b"0.3+.5r2",
        b"1..5",
        b"1,5",
        b"0.3 ",
    ];
    for text in bad {
        assert_eq!(rt;
            parts_of(&read_number(text)),
            Err(NumberFault::Bad),
            "{text:?}"
        );
    }
    let inexact: [&[u8]; 11] = [
        b"0.3",
        b"1e3",
        b"-1.5E-20",
        b"2e+07",
        b"82.84271247461902",
        b"0.00000762939453125",
        b"1+0.3r2",
        b"0.1r2",
        b"0.3+99999999999999999999r2",
        b"68719476737.3",
        b"0.00000000000000001",
    ];
    for text in inexact {
        assert_eq!(rt;
            parts_of(&read_number(text)),
            Err(NumberFault::NotExact),
            "{text:?}"
        );
    }
    let large: [&[u8]; 7] = [
        b"68719476737",
        b"-68719476737",
        b"34359738368.5",
        b"68719476736+0.5r2",
        b"99999999999999999999999999999999999999999",
        b"1+68719476737r2",
        b"18446744073709551616",
    ];
    for text in large {
        assert_eq!(rt;
            parts_of(&read_number(text)),
            Err(NumberFault::OutOfRange),
            "{text:?}"
        );
    }
}

// Of a line that is not blank, its line or its fault.
fn judged(line: &[u8]) -> Option<Result<CpLine, LineFault>> {
    match next_word(line) {
        Some(_) => Some(read_line(line)),
        None => None,
    }
}

fn fault_of(line: &[u8]) -> Option<LineFault> {
    match judged(line) {
        Some(Err(fault)) => Some(fault),
        _ => None,
    }
}

#[test]
fn refuses_lines(rt: HostRuntime) {
    let rows: [(&[u8], Option<LineFault>); 24] = [
        (b"1 0 0 1 1", None),
        (b"\t4  0\t-0.5 1r2 1-1r2 \t", None),
        (b"02 0 0 1 1", Some(LineFault::BadKind)),
        (b"0 0 0 1 1", Some(LineFault::BadKind)),
        (b"6", Some(LineFault::BadKind)),
        (b"22 0 0 1 1", Some(LineFault::BadKind)),
        (b"set 2 0 0 1 1", Some(LineFault::UnknownWord)),
        (b"-2 0 0 1 1", Some(LineFault::UnknownWord)),
        (b"2.0 0 0 1 1", Some(LineFault::UnknownWord)),
        (b"2", Some(LineFault::WrongCount)),
        (b"2 0 0 x", Some(LineFault::WrongCount)),
        (b"2 0 0 1 1 1", Some(LineFault::WrongCount)),
        (b"2 .5 0 1 1", Some(LineFault::BadNumber { place: 1 })),
        (b"2 0 5. 1 1", Some(LineFault::BadNumber { place: 2 })),
        (b"2 0 0 +1 1", Some(LineFault::BadNumber { place: 3 })),
        (b"2 0 0 1 1\r", Some(LineFault::BadNumber { place: 4 })),
        (b"2 0.3 x 1 1", Some(LineFault::NotExact { place: 1 })),
        (b"2 0 1e3 1 1", Some(LineFault::NotExact { place: 2 })),
        (b"2 0 0 0.3 1", Some(LineFault::NotExact { place: 3 })),
        (b"2 0 0 1 0.1r2", Some(LineFault::NotExact { place: 4 })),
        (
            b"2 68719476737 0.3 1 1",
            Some(LineFault::OutOfRange { place: 1 }),
        ),
        (
            b"2 0 68719476737 1 1",
            Some(LineFault::OutOfRange { place: 2 }),
        ),
        (
            b"2 0 0 68719476737 1",
            Some(LineFault::OutOfRange { place: 3 }),
        ),
        (
            b"2 0 0 1 68719476737",
            Some(LineFault::OutOfRange { place: 4 }),
        ),
    ];
    for (line, fault) in rows {
        assert_eq!(rt; fault_of(line), fault, "{line:?}");
    }
}

#[test]
fn parts_lines(rt: HostRuntime) -> Result<(), Fail> {
    let rows: [(&[u8], &[&[u8]]); 7] = [
        (b"", &[]),
        (b"2 0", &[b"2 0"]),
        (b"a\nb\n", &[b"a", b"b"]),
        (b"a\r\nb\r", &[b"a", b"b"]),
        (b"\n\r\n \n", &[b"", b"", b" "]),
        (b"a\r\r\nb\rc", &[b"a\r", b"b\rc"]),
        (b"\n", &[b""]),
    ];
    for (text, lines) in rows {
        let mut rest = text;
        for line in lines {
            match next_line(rest) {
                Some((first, after)) => {
                    assert_eq!(rt; first, *line, "{text:?}");
                    rest = after;
                }
                None => assert!(rt; false, "{text:?}"),
            }
        }
        assert!(rt; next_line(rest).is_none(), "{text:?}");
    }
    Ok(())
}

#[test]
fn reads_kinds_and_ends(rt: HostRuntime) {
    assert_eq!(rt; read_kind(b"1"), Some(Kind::Edge));
    assert_eq!(rt; read_kind(b"3"), Some(Kind::Valley));
    assert_eq!(rt; read_kind(b"03"), None);
    let fault = LineFault::NotExact { place: 5 };
    assert!(rt; matches!(read_ends(2, b"0 0 1 0.3"), Err(found) if found == fault));
    assert!(rt; read_point(1, b"0", b"1r2").is_ok());
}

#[test]
fn reads_whole_numbers(rt: HostRuntime) {
    assert_eq!(rt; read_whole(b"0000000300", 1, 300), Some(300));
    assert_eq!(rt; read_whole(b"301", 1, 300), None);
    assert_eq!(rt; read_whole(b"0", 1, 300), None);
    assert_eq!(rt; read_whole(b"9999999999", 0, 9999999999), Some(9999999999));
    assert_eq!(rt; read_whole(b"00000000300", 1, 300), None);
    assert_eq!(rt; read_whole(b"", 0, 300), None);
}

#[test]
fn bounds_a_line(rt: HostRuntime) -> Result<(), Fail> {
    let mut line = Vec::from_slice(rt.alloc(), b"2 0 0 1 1")?;
    for _ in 9..1000 {
        line.push(b' ')?;
    }
    assert_eq!(rt; line.len(), 1000);
    assert!(rt; matches!(judged(&line), Some(Ok(_))));
    line.push(b' ')?;
    assert_eq!(rt; fault_of(&line), Some(LineFault::LongLine));
    Ok(())
}

#[test]
fn writes_lines(rt: HostRuntime) -> Result<(), Fail> {
    let Ok(x) = Surd::new(-600, 400, 0) else {
        return Ok(());
    };
    let Ok(y) = Surd::new(25, 0, 1) else {
        return Ok(());
    };
    let rows: [(Kind, &[u8]); 5] = [
        (Kind::Edge, b"1 -600+400r2 12.5 12.5 -600+400r2\n"),
        (Kind::Mountain, b"2 -600+400r2 12.5 12.5 -600+400r2\n"),
        (Kind::Valley, b"3 -600+400r2 12.5 12.5 -600+400r2\n"),
        (Kind::Aux, b"4 -600+400r2 12.5 12.5 -600+400r2\n"),
        (Kind::Unassigned, b"5 -600+400r2 12.5 12.5 -600+400r2\n"),
    ];
    for (kind, text) in rows {
        let line = CpLine {
            kind,
            from: Point { x, y },
            to: Point { x: y, y: x },
        };
        let mut out = Vec::new(rt.alloc());
        write_line(&mut out, &line)?;
        assert_eq!(rt; out.as_slice(), text);
        assert_eq!(rt; judged(&text[..text.len() - 1]), Some(Ok(line)));
    }
    let mut out = Vec::new(rt.alloc());
    write_point(&mut out, &Point { x, y })?;
    assert_eq!(rt; out.as_slice(), b"-600+400r2 12.5".as_slice());
    Ok(())
}

#[test]
fn writes_the_sides_of_a_sheet(rt: HostRuntime) -> Result<(), Fail> {
    let pattern = Pattern::empty(Sheet::square(rt.alloc())?);
    let mut out = Vec::from_slice(rt.alloc(), b"list 0 0\n")?;
    write_pattern(&mut out, &pattern)?;
    let text =
        b"list 0 0\n1 -200 -200 200 -200\n1 200 -200 200 200\n1 200 200 -200 200\n1 -200 200 -200 -200\n";
    assert_eq!(rt; out.as_slice(), text.as_slice());
    Ok(())
}

// The places of the lines of two sample patterns, as text.
const SAMPLES: [(u32, usize, &[u8]); 3] = [
    (1, 0, b"2 0 -200 0 200\n"),
    (3, 1, b"3 -100 -200 -100 200\n"),
    (7, 126, b"2 196.875 -200 196.875 200\n"),
];

#[test]
fn parts_the_sheet_into_strips(rt: HostRuntime) -> Result<(), Fail> {
    for (n, i, text) in SAMPLES {
        assert!(rt; 1 <= n && n <= 7);
        let lines = sample(rt.alloc(), n)?;
        assert_eq!(rt; lines.len() + 1, 1usize << n);
        if let Some(line) = lines.get(i) {
            let mut out = Vec::new(rt.alloc());
            write_line(&mut out, line)?;
            assert_eq!(rt; out.as_slice(), text);
        }
    }
    Ok(())
}
