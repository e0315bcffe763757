//! What may be wrong at a vertex.

use plane_geometry::{Dir, Point};

/// A condition of flat folding that the creases around a vertex don't meet.
#[derive(Clone, Copy, Debug, PartialEq, Eq)]
pub enum LocalFault {
    /// The reflections in the creases, one after the other, don't give the identity.
    Kawasaki,
    /// There are m mountains, v valleys and u unassigned creases, and however the unassigned ones fold, mountains and
    /// valleys don't differ by two.
    Maekawa { m: u32, v: u32, u: u32 },
    /// The sector that begins at this crease, counterclockwise, is smaller than both beside it, and its creases are both
    /// mountains or both valleys.
    BigLittleBig { direction: Dir },
}

/// A fault and the vertex where it is.
#[derive(Clone, Copy, Debug, PartialEq, Eq)]
pub struct VertexFault {
    pub vertex: Point,
    pub fault: LocalFault,
}
