use fold_jobs::{FoldAnswer, JobRefusal, Jobs, OpenFault};
use sign_rules::{Order, Rule, Rules, Sign};
use std::alloc::{AllocError, Global};
use std::process::Abort;
use std::sync::Arc;
use std::test::Fail;
use worker_split::{Outcome, Taken, Task, perform};

/// Two pairs without a rule, which have four orders.
fn two_pairs(alloc: Global) -> Result<Arc<Rules>, AllocError> {
    Ok(Arc::new(alloc, Rules::new(alloc, 2, Vec::new(alloc))?)?)
}

/// A pair that no sign suits.
fn no_order(alloc: Global) -> Result<Arc<Rules>, AllocError> {
    let signs = [
        Rule::Fixed {
            p: 0,
            sign: Sign::Over,
        },
        Rule::Fixed {
            p: 0,
            sign: Sign::Under,
        },
    ];
    Ok(Arc::new(alloc, Rules::new(alloc, 1, signs.to_vec(alloc)?)?)?)
}

fn name_of_refusal(refusal: JobRefusal) -> &'static str {
    match refusal {
        JobRefusal::NoSuchJob => "nosuchjob",
        JobRefusal::Cancelled => "cancelled",
        JobRefusal::Busy => "busy",
        JobRefusal::NothingAsked => "nothingasked",
        JobRefusal::TooManyAsks => "toomanyasks",
    }
}

fn name_of_order(order: &Order) -> &'static str {
    match order.as_slice() {
        [Sign::Over, Sign::Over] => "++",
        [Sign::Over, Sign::Under] => "+-",
        [Sign::Under, Sign::Over] => "-+",
        [Sign::Under, Sign::Under] => "--",
        _ => "another",
    }
}

/// What the open ask of a job came to: the version, and an order with its number.
fn answered(alloc: Global, jobs: &mut Jobs, job: u32) -> Result<String, AllocError> {
    match jobs.answer(job) {
        Ok(
            FoldAnswer::Shown {
                version,
                number,
                order,
            },
        ) => format!(in alloc; "v{version}:{number}{}", name_of_order(&order)),
        Ok(FoldAnswer::NoMore { version }) => format!(in alloc; "v{version}:nomore"),
        Ok(FoldAnswer::Paused { version }) => format!(in alloc; "v{version}:paused"),
        Ok(FoldAnswer::NotReady { version, piece }) => {
            format!(in alloc; "v{version}:notready{piece}")
        }
        Err(refusal) => String::from_str(alloc, name_of_refusal(refusal)),
    }
}

/// The task of the piece that a job needs, if it needs one.
fn needed(jobs: &Jobs, job: u32) -> Result<Option<Task>, AllocError> {
    match jobs.needs(job) {
        Some(piece) => jobs.task(job, piece),
        None => Ok(None),
    }
}

/// Posts an outcome of the task that a job needs done, and keeps another one.
fn performed(
    alloc: Global,
    jobs: &mut Jobs,
    kept: &mut Vec<Outcome>,
    job: u32,
) -> Result<&'static str, AllocError> {
    let Some(piece) = jobs.needs(job) else {
        return Ok("none");
    };
    let Some(task) = jobs.task(job, piece)? else {
        return Ok("none");
    };
    let outcome = perform(alloc, &task)?;
    kept.push(perform(alloc, &task)?)?;
    match jobs.post(outcome) {
        Taken::Accepted => Ok("taken"),
        Taken::Stranger { .. } => Ok("stranger"),
    }
}

/// Posts an outcome that answers no task.
fn refused(rt: &impl Abort, jobs: &mut Jobs, x: Outcome) -> Option<Outcome> {
    assert!(rt; !jobs.matches(&x));
    match jobs.post(x) {
        Taken::Accepted => None,
        Taken::Stranger { came, .. } => Some(came),
    }
}

/// Posts the last kept outcome, which answers no task any more, and keeps it.
fn posted_again(
    rt: &impl Abort,
    jobs: &mut Jobs,
    kept: &mut Vec<Outcome>,
) -> Result<&'static str, AllocError> {
    let Some(x) = kept.pop() else {
        return Ok("none");
    };
    match refused(rt, jobs, x) {
        Some(came) => {
            kept.push(came)?;
            Ok("stranger")
        }
        None => Ok("taken"),
    }
}

/// Opens a job on two pairs.
fn opened(alloc: Global, jobs: &mut Jobs, version: u32) -> Result<String, AllocError> {
    match jobs.open(alloc, version, two_pairs(alloc)?) {
        Ok(number) => format!(in alloc; "job{number}"),
        Err(OpenFault::TooManyJobs) => String::from_str(alloc, "toomanyjobs"),
        Err(OpenFault::Memory) => Err(AllocError),
    }
}

/// The piece that a job needs, and the budget of its task.
fn told_need(alloc: Global, jobs: &Jobs, job: u32) -> Result<String, AllocError> {
    match needed(jobs, job)? {
        Some(task) => format!(in alloc; "piece{}/{}", task.piece, task.budget),
        None => String::from_str(alloc, "none"),
    }
}

fn kept_only(
    alloc: Global,
    jobs: &Jobs,
    kept: &mut Vec<Outcome>,
    job: u32,
) -> Result<&'static str, AllocError> {
    let Some(task) = needed(jobs, job)? else {
        return Ok("none");
    };
    kept.push(perform(alloc, &task)?)?;
    Ok("kept")
}

fn renumbered(mut x: Outcome, job: u32) -> Outcome {
    x.job = job;
    x
}

fn name_of_done(answer: Result<(), JobRefusal>, done: &'static str) -> &'static str {
    match answer {
        Ok(()) => done,
        Err(refusal) => name_of_refusal(refusal),
    }
}

/// One step: `o3` opens a job on version 3, `a1` asks job 1 and `w1` asks what it came to, `c1` cancels it, `b7` sets
/// the budget 7, `n1` asks which piece job 1 needs; `p1` performs its task and posts the outcome, `k1` only performs
/// it; both keep an outcome of it, which `l0` posts, and `j2` with the number of job 2.
fn step(
    rt: &impl Abort,
    alloc: Global,
    jobs: &mut Jobs,
    kept: &mut Vec<Outcome>,
    command: u8,
    number: u32,
) -> Result<String, AllocError> {
    let reply = match command {
        b'o' => return opened(alloc, jobs, number),
        b'w' => return answered(alloc, jobs, number),
        b'n' => return told_need(alloc, jobs, number),
        b'a' => name_of_done(jobs.ask(number), "asked"),
        b'c' => name_of_done(jobs.cancel(number), "stopped"),
        b'p' => performed(alloc, jobs, kept, number)?,
        b'k' => kept_only(alloc, jobs, kept, number)?,
        b'l' => posted_again(rt, jobs, kept)?,
        b'j' => {
            if let Some(x) = kept.pop() {
                kept.push(renumbered(x, number))?;
            }
            posted_again(rt, jobs, kept)?
        }
        _ => {
            jobs.set_budget(u64::from(number.clamp(1, 9)));
            "set"
        }
    };
    String::from_str(alloc, reply)
}

// Steps, and what each comes to. The orders of two pairs without a rule are all lists of two signs; before the first
// stand two lists that are open, the empty one and the first sign, and one before each second.
const RUNS: [(&str, &str); 8] = [
    // all orders with their numbers and version, then no more, as often as it is asked
    (
        "o3 a1 p1 w1 a1 p1 w1 a1 p1 w1 a1 p1 w1 a1 p1 w1 a1 n1 w1",
        "job1 asked taken v3:1++ asked taken v3:2+- asked taken v3:3-+ asked taken v3:4-- asked taken v3:nomore \
         asked none v3:nomore",
    ),
    // refusals
    (
        "a1 w1 c1 n1 o3 a0 a2 w1 a1 a1 w1 c1 a1 w1 c1 n1",
        "nosuchjob nosuchjob nosuchjob none job1 nosuchjob nosuchjob nothingasked asked busy v3:notready1 stopped \
         cancelled cancelled cancelled none",
    ),
    // an outcome of a cancelled job
    (
        "o3 o4 a1 k1 c1 l0 a2 p2 w2",
        "job1 job2 asked kept stopped stranger asked taken v4:1++",
    ),
    // an outcome that was taken is not taken twice, nor later
    (
        "o3 a1 p1 l0 w1 l0 a1 l0 n1 w1 p1 w1",
        "job1 asked taken stranger v3:1++ stranger asked stranger piece1/100000 v3:notready1 taken v3:2+-",
    ),
    // an outcome for another job
    (
        "o3 o4 a1 a2 k1 j2 j3 j0 n2 n1 w2 p1 w1 w2",
        "job1 job2 asked asked kept stranger stranger stranger piece1/100000 piece1/100000 v4:notready1 taken \
         v3:1++ v4:notready1",
    ),
    // jobs do not see one another's orders
    (
        "o3 o3 a1 p1 w1 a1 a2 p2 w2 p1 w1",
        "job1 job2 asked taken v3:1++ asked asked taken v3:1++ taken v3:2+-",
    ),
    // a budget is of the asks that come later
    (
        "o3 o3 a1 b7 n1 a2 n2 p1 w1 a1 n1",
        "job1 job2 asked set piece1/100000 asked piece1/7 taken v3:1++ asked piece1/7",
    ),
    // pauses
    (
        "o3 b1 a1 p1 w1 a1 p1 w1 a1 p1 w1 b2 a1 p1 w1",
        "job1 set asked taken v3:paused asked taken v3:1++ asked taken v3:2+- set asked taken v3:3-+",
    ),
];

#[test]
fn runs(rt: HostRuntime) -> Result<(), Fail> {
    for (steps, replies) in RUNS {
        walk(&rt, rt.alloc(), steps, replies)?;
    }
    Ok(())
}

fn walk(rt: &impl Abort, alloc: Global, steps: &str, replies: &str) -> Result<(), Fail> {
    assert_eq!(rt;
        replies.split(' ').count(),
        steps.split(' ').count(),
        "{steps}"
    );
    let mut jobs = Jobs::new(alloc, 1);
    let mut kept = Vec::new(alloc);
    for (word, expected) in steps.split(' ').zip(replies.split(' ')) {
        let [command, digit] = word.as_bytes() else {
            return Err("not a step".into());
        };
        let number = u32::from(digit.saturating_sub(b'0'));
        let reply = step(rt, alloc, &mut jobs, &mut kept, *command, number)?;
        assert_eq!(rt; reply.as_str(), expected, "{steps}");
    }
    Ok(())
}

#[test]
fn sixty_four_jobs(rt: HostRuntime) -> Result<(), Fail> {
    let mut jobs = Jobs::new(rt.alloc(), 1);
    let rules = no_order(rt.alloc())?;
    for number in 1..=64 {
        assert!(rt; !jobs.is_full());
        let opened = jobs.open(rt.alloc(), 1, Arc::try_clone(&rules)?);
        assert_eq!(rt; opened, Ok(number));
    }
    assert!(rt; jobs.is_full());
    // a cancelled job keeps its number
    assert_eq!(rt; jobs.cancel(64), Ok(()));
    let opened = jobs.open(rt.alloc(), 1, rules);
    assert_eq!(rt; opened, Err(OpenFault::TooManyJobs));
    Ok(())
}

/// Whether the answer is that there are no more orders.
fn is_no_more(answer: &Result<FoldAnswer, JobRefusal>) -> bool {
    matches!(answer, Ok(FoldAnswer::NoMore { .. }))
}

#[test]
fn ten_thousand_asks(rt: HostRuntime) -> Result<(), Fail> {
    let mut jobs = Jobs::new(rt.alloc(), 1);
    let rules = no_order(rt.alloc())?;
    for number in 1..=2 {
        let opened = jobs.open(rt.alloc(), 1, Arc::try_clone(&rules)?);
        assert_eq!(rt; opened, Ok(number));
    }
    // the asks of all jobs together
    for ask in 0..10_000 {
        let job = ask % 2 + 1;
        assert_eq!(rt; jobs.ask(job), Ok(()));
        assert!(rt; is_no_more(&jobs.answer(job)));
    }
    assert_eq!(rt; jobs.ask(1), Err(JobRefusal::TooManyAsks));
    assert_eq!(rt; jobs.ask(2), Err(JobRefusal::TooManyAsks));
    assert_eq!(rt; jobs.ask(3), Err(JobRefusal::NoSuchJob));
    assert_eq!(rt; jobs.answer(1).err(), Some(JobRefusal::NothingAsked));
    Ok(())
}
