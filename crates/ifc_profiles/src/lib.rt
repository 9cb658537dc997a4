//! Profiles of IFC4: the loops in the plane that a sweep takes, the outer one first, or why an element is refused.
#![tactic(auto)]

mod curved;
mod loops;
mod measured;
mod profiles;

pub use profiles::named_profile;
