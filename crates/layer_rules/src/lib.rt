//! Which folded faces lie on one another, and the rules that any order of these layers has to meet.
#![tactic(auto)]

mod circles;
mod crease_lines;
mod creases;
mod face_pairs;
mod face_places;
mod laws;
mod layer_orders;
mod layering;
mod places;
mod regions;
mod rule_lists;
mod rule_order;
mod tacos;
mod tortillas;

pub use circles::transitivity_rules;
pub use creases::crease_rules;
pub use face_pairs::{FacePair, PairsFault, pairs};
pub use laws::orders_are_of_assignments;
pub use layer_orders::order_rules;
pub use layering::{InstanceFault, Layering, instance};
pub use regions::Insides;
pub use tacos::taco_rules;
pub use tortillas::tortilla_rules;
