ghost use Rattle.std.specs.Prelude.{◌≡◌, ◌≤◌};
ghost use Rattle.spec_table.specs.Sections.{IsSimple};
ghost use Rattle.spec_entity.specs.Reads.{members};
ghost use Rattle.entity_reader.specs.Lent.{plain_read};

use crate::kinds::refusal_of;
use spec_refusal::Refusal;
use spec_step::Param;
use step_table::Table;

/// The members of a wanted list, of which there must be one.
pub fn members<'t>(table: &'t Table<'_>, at: u64, position: usize) -> Result<&'t [Param], Refusal>
    requires simple { IsSimple table.now at }
    requires counted { 1 ≤ position }
    ensures { plain_read result ≡ members table.now at position }
{
    match table.attr_list(at, position) {
        Ok(Some(members)) if !members.is_empty() => Ok(members),
        Ok(_) => Err(Refusal::BadAttribute { at, position }),
        Err(fault) => Err(refusal_of(fault)),
    }
}
