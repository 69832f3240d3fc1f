//! Ferroic species: which domain states a property tells apart. Source: K. Aizu, Phys. Rev. B 2 (1970) 754; International
//! Tables for Crystallography D 3.4.
#![tactic(auto)]

mod apart;
mod carried;
mod kinds;
mod laws;
mod leaders;
mod properties;
mod species;

pub use kinds::Kind;
pub use laws::{elements_are_free, same_is_equivalence};
pub use leaders::Leaders;
pub use properties::Property;
pub use species::{Species, species_of};
pub use state_marks::DifferFault;
