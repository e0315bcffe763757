//! Local checks of flat folding: at each vertex strictly inside the sheet, the theorems of Kawasaki and Maekawa and the
//! big-little-big lemma.
#![tactic(auto)]

mod checking;
mod fans;
mod faults;
mod laws;
mod sectors;
mod vertices;
mod writing;

pub use checking::check;
pub use fans::Ray;
pub use faults::{LocalFault, VertexFault};
pub use laws::{directions_differ, fan_is_one, vertices_are_inner_ends};
pub use writing::write_faults;
