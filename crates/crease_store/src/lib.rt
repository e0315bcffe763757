//! Changes of a crease pattern. Each call gives a new pattern and leaves the one that it was lent.
#![tactic(auto)]

mod adding;
mod changing;
mod faults;
mod laws;
mod loading;
mod merging;
mod merging_laws;
mod on_segment;
mod placing;

pub use adding::add;
pub use changing::{clear, delete, set_kind};
pub use faults::{StoreFault, StoreRefusal};
pub use laws::{added_is_one, added_meet, own_lines_are_loaded};
pub use loading::{LoadLine, LoadStoreFault, load};
pub use merging::merge;
pub use merging_laws::{loose_is_two, merged_is_one};
