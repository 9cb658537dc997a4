ghost use Rattle.spec_step.specs.Files.{IsFile};

use spec_step::{Entry, Instance};
use sqlite_items::Items;

/// A file of ISO 10303-21 with one DATA section: its bytes, the entries of its header, and its
/// instances in file order. Head and instances are those that the grammar gives for the bytes.
#[derive(Drop)]
pub struct StepFile<'a> {
    pub source: &'a [u8],
    pub head: Items<Entry>,
    pub instances: Items<Instance>,
    ghost given: { ∥ IsFile source.now head instances ∥₁ },
}
