use Sign::{Over, Under};
use sign_rules::{Order, Rule, Rules, Sign};
use std::alloc::{AllocError, Global};
use std::process::Abort;
use std::sync::Arc;
use std::test::Fail;
use worker_split::{End, JobAnswer, JobState, Kept, Outcome, Taken, perform, pieces};

// The rules of three parallel mountains, which part a square into four strips of one width, and their three
// orders.
const STRIPS: [Rule; 8] = [
    Rule::Fixed { p: 0, sign: Over },
    Rule::Fixed { p: 3, sign: Under },
    Rule::Fixed { p: 5, sign: Over },
    Rule::Even {
        p: 1,
        q: 3,
        r: 2,
        s: 4,
        odd: false,
    },
    Rule::NotCyclic {
        ij: 0,
        jk: 3,
        ik: 1,
    },
    Rule::NotCyclic {
        ij: 0,
        jk: 4,
        ik: 2,
    },
    Rule::NotCyclic {
        ij: 1,
        jk: 5,
        ik: 2,
    },
    Rule::NotCyclic {
        ij: 3,
        jk: 5,
        ik: 4,
    },
];

const ORDERS: [&str; 3] = ["+++--+", "+-+-++", "+----+"];

fn four_strips(alloc: Global) -> Result<Arc<Rules>, AllocError> {
    Ok(Arc::new(alloc, Rules::new(alloc, 6, STRIPS.to_vec(alloc)?)?)?)
}

/// A job of number 1 on version 3.
fn four_strips_job(alloc: Global) -> Result<JobState, AllocError> {
    JobState::open(alloc, 1, 3, four_strips(alloc)?, 1)
}

#[test]
fn one_piece(rt: HostRuntime) -> Result<(), Fail> {
    let rules = four_strips(rt.alloc())?;
    let found = pieces(rt.alloc(), &rules, 1)?;
    assert_eq!(rt; found.len(), 1);
    assert_eq!(rt; found[0].as_slice(), [Over].as_slice());
    Ok(())
}

fn copied(x: &Outcome) -> Result<Outcome, AllocError> {
    Ok(Outcome {
        job: x.job,
        version: x.version,
        piece: x.piece,
        from: x.from.copy()?,
        budget: x.budget,
        end: copied_end(&x.end)?,
    })
}

fn copied_end(end: &End) -> Result<End, AllocError> {
    match end {
        End::Found { order, position } => Ok(End::Found {
            order: order.copy()?,
            position: position.copy()?,
        }),
        End::Done => Ok(End::Done),
        End::Paused { position } => Ok(End::Paused {
            position: position.copy()?,
        }),
    }
}

/// Performs the task of the first piece, where it has one, and posts its outcome. A copy, where that is accepted.
fn performed(alloc: Global, job: &mut JobState) -> Result<Option<Outcome>, AllocError> {
    let Some(task) = job.task(1)? else {
        return Ok(None);
    };
    let outcome = perform(alloc, &task)?;
    let copy = copied(&outcome)?;
    match job.accept(outcome) {
        Taken::Accepted => Ok(Some(copy)),
        Taken::Stranger { .. } => Ok(None),
    }
}

/// What the job tells of the piece of an outcome that it does not take.
fn told(rt: &impl Abort, job: &mut JobState, x: Outcome) -> Option<Kept> {
    assert!(rt; !job.matches(&x));
    match job.accept(x) {
        Taken::Accepted => None,
        Taken::Stranger { kept, .. } => Some(kept),
    }
}

/// What an outcome may name in place of what the last task has.
#[derive(Clone, Copy, Debug)]
enum Change {
    Job,
    Version,
    NoPiece,
    SecondPiece,
    Budget,
    Place,
}

fn changed(x: &Outcome, change: Change) -> Result<Outcome, AllocError> {
    let mut other = copied(x)?;
    match change {
        Change::Job => other.job = 2,
        Change::Version => other.version = 2,
        Change::NoPiece => other.piece = 0,
        Change::SecondPiece => other.piece = 2,
        Change::Budget => other.budget = 15,
        Change::Place => other.from.past = true,
    }
    Ok(other)
}

/// The first of so many pieces, asked with this budget.
fn first_piece(budget: u64, answered: bool) -> Kept {
    Kept {
        job: 1,
        version: 3,
        piece: 1,
        pieces: 1,
        budget,
        answered,
    }
}

const NO_PIECE: Kept = Kept {
    job: 1,
    version: 3,
    piece: 0,
    pieces: 1,
    budget: 0,
    answered: false,
};

#[test]
fn foreign_outcomes(rt: HostRuntime) -> Result<(), Fail> {
    let mut job = four_strips_job(rt.alloc())?;
    assert!(rt; job.ask(16));
    let task = job.task(1)?.ok_or("no task")?;
    let x = perform(rt.alloc(), &task)?;
    for (change, kept) in [
        (Change::Job, first_piece(16, false)),
        (Change::Version, first_piece(16, false)),
        (Change::NoPiece, NO_PIECE),
        (Change::SecondPiece, NO_PIECE),
        (Change::Budget, first_piece(16, false)),
        (Change::Place, first_piece(16, false)),
    ] {
        let other = changed(&x, change)?;
        assert_eq!(rt; told(&rt, &mut job, other), Some(kept), "{change:?}");
    }
    assert_eq!(rt; job.needs(), Some(1));
    Ok(())
}

#[test]
fn an_outcome_is_taken_once(rt: HostRuntime) -> Result<(), Fail> {
    let mut job = four_strips_job(rt.alloc())?;
    assert_eq!(rt; job.kept(1), first_piece(0, false));
    assert!(rt; !job.asked());
    assert!(rt; job.ask(16) && !job.ask(16));
    assert_eq!(rt; job.needs(), Some(1));
    let x = performed(rt.alloc(), &mut job)?.ok_or("not accepted")?;
    assert_eq!(rt; told(&rt, &mut job, x), Some(first_piece(16, true)));
    assert!(rt; job.asked() && job.needs().is_none());
    assert_eq!(rt; answered(&mut job), "+++--+");
    assert!(rt; !job.asked());
    Ok(())
}

/// What the open ask comes to.
fn answered(job: &mut JobState) -> &'static str {
    if !job.asked() {
        return "noask";
    }
    match job.answer() {
        JobAnswer::Shown(order) => name_of(&order),
        JobAnswer::NoMore => "nomore",
        JobAnswer::Paused => "paused",
        JobAnswer::NotReady(_) => "notready",
    }
}

fn name_of(order: &Order) -> &'static str {
    for name in ORDERS {
        if has_name(order.as_slice(), name) {
            return name;
        }
    }
    "another"
}

fn has_name(signs: &[Sign], name: &str) -> bool {
    let bytes = name.as_bytes();
    for (place, sign) in signs.iter().enumerate() {
        let byte = if *sign == Over { b'+' } else { b'-' };
        if bytes.get(place) != Some(&byte) {
            return false;
        }
    }
    signs.len() == bytes.len()
}

// Steps, and what each comes to: `a` asks with the budget 16 and a digit with that one; `p` performs the task
// and posts its outcome; `r` posts the last outcome again and `f` the first one; `w` asks what it came to.
const SEQUENCES: [(&str, &str); 7] = [
    (
        "apwapwapwapwrapwf",
        "asked taken +++--+ asked taken +-+-++ asked taken +----+ asked taken nomore stranger asked \
         none nomore stranger",
    ),
    (
        "awpwapraw",
        "asked notready taken +++--+ asked taken stranger open +-+-++",
    ),
    (
        "1pw1pw1pw1pw1pw1pw1pw",
        "asked taken paused asked taken paused asked taken paused asked taken paused asked taken +++--+ \
         asked taken paused asked taken paused",
    ),
    (
        "2pw4pw2pw9pw",
        "asked taken paused asked taken +++--+ asked taken paused asked taken +-+-++",
    ),
    (
        "waapprwwapf",
        "noask asked open taken none stranger +++--+ noask asked taken stranger",
    ),
    ("1pwa1pw", "asked taken paused asked open taken +++--+"),
    (
        "apfw3pfrwfr1w",
        "asked taken stranger +++--+ asked taken stranger stranger paused stranger stranger asked notready",
    ),
];

#[test]
fn sequences(rt: HostRuntime) -> Result<(), Fail> {
    for (steps, replies) in SEQUENCES {
        walk(&rt, rt.alloc(), steps, replies)?;
    }
    Ok(())
}

fn walk(rt: &impl Abort, alloc: Global, steps: &str, replies: &str) -> Result<(), Fail> {
    assert_eq!(rt; replies.split(' ').count(), steps.len(), "{steps}");
    let mut job = four_strips_job(alloc)?;
    let mut posted = Vec::new(alloc);
    for (step, expected) in steps.bytes().zip(replies.split(' ')) {
        let reply = reply(rt, alloc, &mut job, &mut posted, step)?;
        assert_eq!(rt; reply, expected, "{steps}");
    }
    Ok(())
}

fn reply(
    rt: &impl Abort,
    alloc: Global,
    job: &mut JobState,
    posted: &mut Vec<Outcome>,
    step: u8,
) -> Result<&'static str, AllocError> {
    match step {
        b'1'..=b'9' => Ok(if job.ask(u64::from(step - b'0')) {
            "asked"
        } else {
            "open"
        }),
        b'a' => Ok(if job.ask(16) { "asked" } else { "open" }),
        b'p' => match performed(alloc, job)? {
            Some(x) => {
                posted.push(x)?;
                Ok("taken")
            }
            None => Ok("none"),
        },
        b'f' => repeated(rt, job, posted.first()),
        b'r' => repeated(rt, job, posted.last()),
        _ => Ok(answered(job)),
    }
}

fn repeated(
    rt: &impl Abort,
    job: &mut JobState,
    x: Option<&Outcome>,
) -> Result<&'static str, AllocError> {
    let Some(x) = x else {
        return Ok("nothing");
    };
    match told(rt, job, copied(x)?) {
        Some(_) => Ok("stranger"),
        None => Ok("taken"),
    }
}
