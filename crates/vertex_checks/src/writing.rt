//! Faults written as text.

ghost use Rattle.std.specs.Prelude.{◌≡◌, ◌++◌, OnOk, OnErr, codes, decimal};
ghost use Rattle.cp_text.specs.Growth.{KeepsFront};
ghost use Rattle.vertex_checks.specs.Text.{unassigned_text, local_text, vertex_text, fault_text, faults_text};

use crate::faults::{LocalFault, VertexFault};
use cp_text::{all_or_nothing, append_number, write_point};
use plane_geometry::Point;
use std::alloc::AllocError;

// Here and below, on an error a part of the text may stand behind the old bytes.
fn put_counts(out: &mut Vec<u8>, m: u32, v: u32) -> Result<(), AllocError>
    ensures ok { OnOk result
        (out.new.items ≡ out.old.items ++ codes "maekawa " ++ decimal m ++ codes " " ++ decimal v) }
    ensures err { OnErr result (KeepsFront out.old.items out.new.items) }
{
    out.extend_from_slice(b"maekawa ")?;
    append_number(out, u64::from(m))?;
    out.extend_from_slice(b" ")?;
    append_number(out, u64::from(v))
}

// Where there are some.
fn put_unassigned(out: &mut Vec<u8>, u: u32) -> Result<(), AllocError>
    ensures ok { OnOk result (out.new.items ≡ out.old.items ++ unassigned_text u) }
    ensures err { OnErr result (KeepsFront out.old.items out.new.items) }
{
    if u == 0 {
        return Ok(());
    }
    out.extend_from_slice(b" ")?;
    append_number(out, u64::from(u))
}

fn put_local(out: &mut Vec<u8>, fault: LocalFault) -> Result<(), AllocError>
    ensures ok { OnOk result (out.new.items ≡ out.old.items ++ local_text fault) }
    ensures err { OnErr result (KeepsFront out.old.items out.new.items) }
{
    match fault {
        LocalFault::Kawasaki => out.extend_from_slice(b"kawasaki"),
        LocalFault::Maekawa { m, v, u } => {
            put_counts(out, m, v)?;
            put_unassigned(out, u)
        }
        LocalFault::BigLittleBig { direction } => {
            out.extend_from_slice(b"biglittlebig ")?;
            append_number(out, u64::from(direction.number()))
        }
    }
}

fn put_vertex(out: &mut Vec<u8>, v: &Point) -> Result<(), AllocError>
    ensures ok { OnOk result (out.new.items ≡ out.old.items ++ vertex_text v.now) }
    ensures err { OnErr result (KeepsFront out.old.items out.new.items) }
{
    write_point(out, v)?;
    out.extend_from_slice(b" ")
}

fn put_fault(out: &mut Vec<u8>, fault: &VertexFault) -> Result<(), AllocError>
    ensures ok { OnOk result (out.new.items ≡ out.old.items ++ fault_text fault.now) }
    ensures err { OnErr result (KeepsFront out.old.items out.new.items) }
{
    put_vertex(out, &fault.vertex)?;
    put_local(out, fault.fault)?;
    out.extend_from_slice(b"\n")
}

fn put_faults(out: &mut Vec<u8>, faults: &[VertexFault]) -> Result<(), AllocError>
    ensures ok { OnOk result (out.new.items ≡ out.old.items ++ faults_text faults.now) }
    ensures err { OnErr result (KeepsFront out.old.items out.new.items) }
{
    for fault in faults {
        put_fault(out, fault)?;
    }
    Ok(())
}

/// Appends a line for each fault: the coordinates of its vertex, its word and its numbers. Without memory the bytes stay
/// as they were.
pub fn write_faults(out: &mut Vec<u8>, faults: &[VertexFault]) -> Result<(), AllocError>
    ensures ok { OnOk result (out.new.items ≡ out.old.items ++ faults_text faults.now) }
    ensures err { OnErr result (out.new.items ≡ out.old.items) }
{
    let before = out.len();
    let written = put_faults(out, faults);
    all_or_nothing(out, before, written)
}
