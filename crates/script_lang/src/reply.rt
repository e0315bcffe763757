//! Replies, and the first line of their texts.

ghost use Rattle.std.specs.Prelude.{◌≡◌, ◌++◌, map, codes, decimal, OnOk, OnErr};
ghost use Rattle.cp_text.specs.Growth.{KeepsFront};
ghost use Rattle.script_lang.specs.Replies.{sign_byte, signs_text, job_text, head_text};

use crate::refusal::{Refusal, append_refusal};
use cp_text::{all_or_nothing, append_number};
use sign_rules::{Order, Sign};
use std::alloc::AllocError;

/// The answer to one command. Numbers of pieces count crease pieces and auxiliary lines.
#[derive(Drop)]
pub enum Reply {
    /// The version that is current now.
    Version {
        version: u32,
        pieces: u32,
    },
    /// The version whose pattern is listed.
    Listed {
        version: u32,
        pieces: u32,
    },
    /// The version whose vertices were checked, and the number of faults.
    Checked {
        version: u32,
        faults: u32,
    },
    /// A new folding job of this version, with how many faces it has, and how many pairs of them need a sign.
    Job {
        job: u32,
        version: u32,
        faces: u32,
        pairs: u32,
    },
    /// The job looks for its next layer order.
    Asked {
        job: u32,
    },
    /// The budget of the asks that follow.
    Budget {
        budget: u64,
    },
    /// The layer order of the job that has this number, from 1.
    Shown {
        job: u32,
        version: u32,
        number: u32,
        order: Order,
    },
    /// All layer orders of the job were shown.
    NoMore {
        job: u32,
        version: u32,
    },
    /// The budget is spent.
    Paused {
        job: u32,
        version: u32,
    },
    /// No answer is there yet.
    Running {
        job: u32,
        version: u32,
    },
    Cancelled {
        job: u32,
    },
    Refused {
        refusal: Refusal,
    },
}

// Here and below, on an error a part of the text may stand behind the old bytes.
fn append_counts(
    out: &mut Vec<u8>,
    word: &[u8],
    version: u32,
    between: &[u8],
    pieces: u32,
) -> Result<(), AllocError>
    ensures ok { OnOk result (out.new.items
        ≡ out.old.items ++ word.now ++ decimal version ++ between.now ++ decimal pieces ++ codes "\n") }
    ensures err { OnErr result (KeepsFront out.old.items out.new.items) }
{
    out.extend_from_slice(word)?;
    append_number(out, u64::from(version))?;
    out.extend_from_slice(between)?;
    append_number(out, u64::from(pieces))?;
    out.extend_from_slice(b"\n")
}

fn append_count(out: &mut Vec<u8>, word: &[u8], n: u64) -> Result<(), AllocError>
    ensures ok { OnOk result (out.new.items ≡ out.old.items ++ word.now ++ decimal n ++ codes "\n") }
    ensures err { OnErr result (KeepsFront out.old.items out.new.items) }
{
    out.extend_from_slice(word)?;
    append_number(out, n)?;
    out.extend_from_slice(b"\n")
}

fn append_job(out: &mut Vec<u8>, job: u32, version: u32) -> Result<(), AllocError>
    ensures ok { OnOk result (out.new.items ≡ out.old.items ++ job_text job version) }
    ensures err { OnErr result (KeepsFront out.old.items out.new.items) }
{
    out.extend_from_slice(b"job ")?;
    append_number(out, u64::from(job))?;
    out.extend_from_slice(b" version ")?;
    append_number(out, u64::from(version))
}

fn append_state(out: &mut Vec<u8>, job: u32, version: u32, state: &[u8]) -> Result<(), AllocError>
    ensures ok { OnOk result (out.new.items ≡ out.old.items ++ (job_text job version ++ state.now)) }
    ensures err { OnErr result (KeepsFront out.old.items out.new.items) }
{
    append_job(out, job, version)?;
    out.extend_from_slice(state)
}

fn append_shape(
    out: &mut Vec<u8>,
    job: u32,
    version: u32,
    faces: u32,
    pairs: u32,
) -> Result<(), AllocError>
    ensures ok { OnOk result (out.new.items
        ≡ out.old.items ++ (job_text job version ++ codes " faces " ++ decimal faces ++ codes " pairs "
        ++ decimal pairs ++ codes "\n")) }
    ensures err { OnErr result (KeepsFront out.old.items out.new.items) }
{
    append_job(out, job, version)?;
    append_counts(out, b" faces ", faces, b" pairs ", pairs)
}

fn sign_byte(sign: Sign) -> u8
    ensures { result ≡ sign_byte sign }
{
    match sign {
        Sign::Over => b'+',
        Sign::Under => b'-',
    }
}

fn append_each(out: &mut Vec<u8>, signs: &[Sign]) -> Result<(), AllocError>
    ensures ok { OnOk result (out.new.items ≡ out.old.items ++ map sign_byte signs.now) }
    ensures err { OnErr result (KeepsFront out.old.items out.new.items) }
{
    for sign in signs {
        out.push(sign_byte(*sign))?;
    }
    Ok(())
}

fn append_signs(out: &mut Vec<u8>, signs: &[Sign]) -> Result<(), AllocError>
    ensures ok { OnOk result (out.new.items ≡ out.old.items ++ signs_text signs.now) }
    ensures err { OnErr result (KeepsFront out.old.items out.new.items) }
{
    if signs.is_empty() {
        return out.extend_from_slice(b".");
    }
    append_each(out, signs)
}

// The number of a layer order, and its signs.
fn append_order(out: &mut Vec<u8>, number: u32, order: &Order) -> Result<(), AllocError>
    ensures ok { OnOk result (out.new.items ≡ out.old.items ++ codes " order " ++ decimal number
        ++ codes " " ++ signs_text order.now.list ++ codes "\n") }
    ensures err { OnErr result (KeepsFront out.old.items out.new.items) }
{
    out.extend_from_slice(b" order ")?;
    append_number(out, u64::from(number))?;
    out.extend_from_slice(b" ")?;
    append_signs(out, order.as_slice())?;
    out.extend_from_slice(b"\n")
}

fn append_shown(
    out: &mut Vec<u8>,
    job: u32,
    version: u32,
    number: u32,
    order: &Order,
) -> Result<(), AllocError>
    ensures ok { OnOk result
        (out.new.items ≡ out.old.items ++ (job_text job version ++ codes " order " ++ decimal number
        ++ codes " " ++ signs_text order.now.list ++ codes "\n")) }
    ensures err { OnErr result (KeepsFront out.old.items out.new.items) }
{
    append_job(out, job, version)?;
    append_order(out, number, order)
}

fn append_head(out: &mut Vec<u8>, reply: &Reply) -> Result<(), AllocError>
    ensures ok { OnOk result (out.new.items ≡ out.old.items ++ head_text reply.now) }
    ensures err { OnErr result (KeepsFront out.old.items out.new.items) }
{
    match reply {
        Reply::Version { version, pieces } => {
            append_counts(out, b"version ", *version, b" pieces ", *pieces)
        }
        Reply::Listed { version, pieces } => append_counts(out, b"list ", *version, b" ", *pieces),
        Reply::Checked { version, faults } => append_counts(
            out, b"check ", *version, b" ", *faults,
        ),
        Reply::Job {
            job,
            version,
            faces,
            pairs,
        } => append_shape(out, *job, *version, *faces, *pairs),
        Reply::Asked { job } => append_count(out, b"asked ", u64::from(*job)),
        Reply::Budget { budget } => append_count(out, b"budget ", *budget),
        Reply::Shown {
            job,
            version,
            number,
            order,
        } => append_shown(out, *job, *version, *number, order),
        Reply::NoMore { job, version } => append_state(out, *job, *version, b" no more\n"),
        Reply::Paused { job, version } => append_state(out, *job, *version, b" paused\n"),
        Reply::Running { job, version } => append_state(out, *job, *version, b" running\n"),
        Reply::Cancelled { job } => append_count(out, b"cancelled ", u64::from(*job)),
        Reply::Refused { refusal } => append_refusal(out, *refusal),
    }
}

/// Appends the first line of a reply. Without memory the bytes stay as they were.
pub fn write_head(out: &mut Vec<u8>, reply: &Reply) -> Result<(), AllocError>
    ensures ok { OnOk result (out.new.items ≡ out.old.items ++ head_text reply.now) }
    ensures err { OnErr result (out.new.items ≡ out.old.items) }
{
    let before = out.len();
    let written = append_head(out, reply);
    all_or_nothing(out, before, written)
}
