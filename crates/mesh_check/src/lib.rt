//! A page is checked: corners near their images, sound faces, balanced edges, true volumes.
#![tactic(auto)]

mod checked;
mod elements;
mod images;
#[cfg(test)]
mod tests;
mod volumes;

pub use checked::check;
