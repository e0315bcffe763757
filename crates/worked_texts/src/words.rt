//! Tables of words, worked by hand.

use program_words::{WordsFault, read_words};
use std::alloc::{AllocError, Global};
use std::test::Fail;

fn owned(alloc: Global, line: &str) -> Result<Vec<String>, AllocError> {
    let mut words = Vec::new(alloc);
    for word in line.split(' ') {
        words.push(String::from_str(alloc, word)?)?;
    }
    Ok(words)
}

const ACCEPTED: [(&str, Option<&str>, u32, Option<u32>); 8] = [
    ("--workers 0", None, 0, None),
    ("--workers=8", None, 8, None),
    ("--workers 000000000003", None, 3, None),
    ("--cp a.cp", Some("a.cp"), 2, None),
    ("--cp=a=b.cp --workers 1", Some("a=b.cp"), 1, None),
    ("--workers 1 --cp =x", Some("=x"), 1, None),
    ("--sample 1", None, 2, Some(1)),
    ("--workers=4 --sample=3", None, 4, Some(3)),
];

#[test]
fn reads_accepted_words(rt: HostRuntime) -> Result<(), Fail> {
    let alloc = rt.alloc();
    let none = Vec::new(alloc);
    let options = read_words(alloc, none.as_slice())?;
    assert_eq!(rt; options.workers, 2);
    for (line, cp, workers, sample) in ACCEPTED {
        let words = owned(alloc, line)?;
        let options = read_words(alloc, words.as_slice())?;
        assert_eq!(rt;
            options.cp.as_ref().map(|path: &String| path.as_str()),
            cp,
            "{line}"
        );
        assert_eq!(rt; options.workers, workers, "{line}");
        assert_eq!(rt; options.sample, sample, "{line}");
    }
    Ok(())
}

const REFUSED: [&str; 27] = [
    "",
    "--help",
    "-h",
    "--version",
    "--",
    "x",
    "--cp",
    "--cp=",
    "--cp -x",
    "--cp=-x",
    "--cp a --cp b",
    "--workers",
    "--workers 9",
    "--workers=9",
    "--workers -1",
    "--workers +3",
    "--workers 3x",
    "--workers=",
    "--workers 1 --workers=1",
    "--sample 0",
    "--sample 4",
    "--sample 1 --cp a",
    "--cp a --sample 1",
    "--pieces 1",
    "--cp a b",
    "--work 1",
    "cp a",
];

#[test]
fn refuses_other_words(rt: HostRuntime) -> Result<(), Fail> {
    let alloc = rt.alloc();
    for line in REFUSED {
        let words = owned(alloc, line)?;
        assert!(rt;
            matches!(
                &read_words(alloc, words.as_slice()),
                Err(WordsFault::BadWords)
            ),
            "{line}"
        );
    }
    Ok(())
}

#[test]
fn faults_of_words_have_their_text(rt: HostRuntime) -> Result<(), Fail> {
    let alloc = rt.alloc();
    let refused = WordsFault::BadWords.to_string(alloc)?;
    assert_eq!(rt; refused.as_str(), "the words are not accepted");
    let memory = WordsFault::Memory.to_string(alloc)?;
    assert_eq!(rt; memory.as_str(), "out of memory");
    Ok(())
}
