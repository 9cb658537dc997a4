//! Entities of IFC4 that every element needs: kinds of instances, references and lists, where the unit of length of a file
//! stands, and its elements.
#![tactic(auto)]

mod element_list;
mod kinds;
mod lists;
mod units;

pub use element_list::{element_kind, elements};
pub use kinds::{
    has_kind, instance_of_kinds, is_one_of, member_instance, named_instance, refusal_of,
    wanted_instance,
};
pub use lists::members;
pub use units::{first_project, unit_of};
