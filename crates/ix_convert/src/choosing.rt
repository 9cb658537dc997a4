ghost use Rattle.std.specs.Prelude.{◌≡◌, ◌<◌, map, string_bytes, codes};
ghost use Rattle.std.specs.Option.{option_map};
ghost use Rattle.std.specs.Str.{bytes_eq};
ghost use Rattle.ix_words.specs.Words.{behind, format_name};
ghost use Rattle.ix_convert.specs.Conversions.{IsFirstAt, IsPlaceOf};

use mesh_out::MeshWriter;

fn is_called(writer: &Box<dyn MeshWriter>, name: &str) -> bool
    ensures { result ≡ bytes_eq (view writer.now).name name.now }
{
    writer.name() == name
}

/// The place of the first writer of a name.
fn first_called(writers: &[Box<dyn MeshWriter>], name: &str) -> Option<usize>
    ensures { IsFirstAt (map view writers.now) name.now result }
{
    for (at, writer) in writers.iter().enumerate() {
        if is_called(writer, name) {
            return Some(at);
        }
    }
    None
}

/// The name that a word says.
fn name_in(word: &str) -> Option<&str>
    ensures { option_map (λ t. t.now) result ≡ behind (codes "--format=") word.now }
{
    word.strip_prefix("--format=")
}

/// The name that the word of a format says, which stands at a place, counted from 1.
fn format_name(words: &[String], format: usize) -> Option<&str>
    requires { 0 < format }
    ensures { option_map (λ t. t.now) result ≡ format_name (map string_bytes words.now) format }
{
    if format > words.len() {
        return None;
    }
    name_in(words[format - 1].as_str())
}

/// The place of the first writer of the name that the word of a format says, which stands at a place, counted from 1.
pub(crate) fn writer_place(
    words: &[String],
    format: usize,
    writers: &[Box<dyn MeshWriter>],
) -> Option<usize>
    requires { 0 < format }
    ensures { IsPlaceOf (map string_bytes words.now) (map view writers.now) format result }
{
    match format_name(words, format) {
        Some(name) => first_called(writers, name),
        None => None,
    }
}
