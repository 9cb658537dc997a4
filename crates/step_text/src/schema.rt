ghost use Rattle.std.specs.Prelude.{◌≡◌, ◌↔◌, IsTrue};
ghost use Rattle.std.specs.List.{list_any};
ghost use Rattle.spec_step.specs.Files.{NamesSchema};
ghost use Rattle.step_text.specs.Schemas.{is_schema, is_schema_list, is_schema_entry};

use spec_step::{Entry, Param};
use step_token::bytes_at;

/// A text that names a schema that is read.
fn is_schema(source: &[u8], param: &Param) -> bool
    ensures { result ≡ is_schema source.now param.now }
{
    match param {
        Param::Text(span) => bytes_at(source, *span).eq_ignore_ascii_case(b"'IFC4'"),
        _ => false,
    }
}

/// Some member is such a text.
fn has_schema(source: &[u8], members: &[Param]) -> bool
    ensures { result ≡ list_any (is_schema source.now) members.now }
{
    members.iter().any(|member| is_schema(source, member))
}

/// A list with such a text.
fn is_schema_list(source: &[u8], param: &Param) -> bool
    ensures { result ≡ is_schema_list source.now param.now }
{
    match param {
        Param::List(members) => has_schema(source, members.as_slice()),
        _ => false,
    }
}

/// An entry `FILE_SCHEMA` whose first parameter is such a list.
fn is_schema_entry(source: &[u8], entry: &Entry) -> bool
    ensures { result ≡ is_schema_entry source.now entry.now }
{
    if !bytes_at(source, entry.keyword).eq_ignore_ascii_case(b"FILE_SCHEMA") {
        return false;
    }
    match entry.params.as_slice() {
        [first, ..] => is_schema_list(source, first),
        [] => false,
    }
}

/// Some entry is such an entry.
fn has_schema_entry(source: &[u8], head: &[Entry]) -> bool
    ensures { result ≡ list_any (is_schema_entry source.now) head.now }
{
    head.iter().any(|entry| is_schema_entry(source, entry))
}

/// Whether the header names a schema that is read.
pub fn names_schema(source: &[u8], head: &[Entry]) -> bool
    ensures { IsTrue result ↔ NamesSchema source.now head.now }
{
    has_schema_entry(source, head)
}
