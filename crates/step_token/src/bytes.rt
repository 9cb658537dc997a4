ghost use Rattle.std.specs.Prelude.{◌≡◌};
ghost use Rattle.spec_step.specs.Spans.{bytes_at};

use spec_step::Span;

/// The bytes of a span, as far as the source has them.
pub fn bytes_at(source: &[u8], span: Span) -> &[u8]
    ensures { result.now ≡ bytes_at source.now span }
{
    let from = span.from.min(source.len());
    let end = span.end.max(from).min(source.len());
    &source[from..end]
}
