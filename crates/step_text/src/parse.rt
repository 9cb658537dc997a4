ghost use Rattle.std.specs.Prelude.{◌≡◌, List, IfOk, IfErr};
ghost use Rattle.spec_step.specs.Files.{IsAccepted, IsCause};
ghost use Rattle.spec_step.specs.declared.tree.Entry.{Entry};
ghost use Rattle.spec_step.specs.declared.tree.Instance.{Instance};
ghost use Rattle.spec_step.specs.declared.fault.StepFault.{StepFault};
ghost use Rattle.step_text.specs.Answers.{IsCauseOrWant, IsOkOrWant, IsFaultOrWant};

use crate::file::StepFile;
use crate::read::read_trees;
use crate::repeat::first_repeat;
use crate::schema::names_schema;
use spec_step::StepFault;
use std::alloc::Global;

/// Reads a file of ISO 10303-21 with one DATA section.
///
/// # Errors
///
/// The first place at which the text begins no file or opens its 33rd parenthesis, whichever is
/// earlier; then `Schema`, where the header names no schema that is read; then `DuplicateNumber`
/// for the first instance in file order whose number an earlier one has; and `NoMemory`.
pub fn parse_file<'a>(alloc: Global, source: &'a [u8]) -> Result<StepFile<'a>, StepFault>
    ensures source { IfOk result (λ file. file.source.now ≡ source.now) }
    ensures accepted { IfOk result (λ file. IsAccepted source.now file.head file.instances) }
    ensures accepts { (head : List Entry) (instances : List Instance) → IsAccepted source.now head instances
        → IsOkOrWant result (λ file. (file.head ≡ head) × (file.instances ≡ instances)) }
    ensures refused { IfErr result (λ fault. IsCauseOrWant source.now fault) }
    ensures refuses { (fault : StepFault) → IsCause source.now fault → IsFaultOrWant result fault }
{
    let trees = read_trees(alloc, source)?;
    if !names_schema(source, trees.head.as_slice()) {
        return Err(StepFault::Schema);
    }
    if let Some(repeat) = first_repeat(alloc, trees.instances.as_slice())? {
        return Err(StepFault::DuplicateNumber {
            number: repeat.number,
            first: repeat.first,
            second: repeat.second,
        });
    }
    Ok(StepFile {
        source,
        head: trees.head,
        instances: trees.instances,
    })
}
