//! Isometries of the plane that keep the 16 directions: eight rotations and eight reflections, each with a shift;
//! and the shapes that faces take by them.
#![tactic(auto)]

mod folded;
mod isometries;
pub mod laws;
mod linear_parts;
mod wide_points;

pub use folded::{CreaseImage, Folded, FoldedFace, PointList};
pub use isometries::Isometry;
pub use linear_parts::Linear;
pub use wide_points::WidePoint;
