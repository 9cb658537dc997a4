ghost use Rattle.std.specs.Prelude.{◌≡◌, ◌≤◌, IfOk, IfErr, IsTrue, length};
ghost use Rattle.spec_step.specs.Spelling.{is_spelled};
ghost use Rattle.spec_step.specs.Spans.{bytes_at, span_of};
ghost use Rattle.spec_step.specs.Lexemes.{lexeme_of};
ghost use Rattle.spec_step.specs.Files.{IsFile};
ghost use Rattle.step_grammar.specs.Places.{state, step};
ghost use Rattle.step_grammar.specs.Symbols.{symbol_of};
ghost use Rattle.step_text.specs.Answers.{IsCauseOrWant};
ghost use Rattle.step_text.specs.Reading.{Goes, Halts, IsWhole, IsUnfinished};

use spec_step::{Entry, Instance, Span, StepFault, Token, TokenStep};
use sqlite_items::Items;
use std::alloc::Global;
use step_grammar::{Fixed, Place, Progress, is_too_deep, step, symbol_of};
use step_token::next_token;

/// The head entries and the instances of a file.
#[derive(Drop)]
pub struct Trees {
    pub head: Items<Entry>,
    pub instances: Items<Instance>,
}

/// What was read, where the text ends at a place.
fn finish(place: &Place, progress: Progress, at: usize) -> Result<Trees, StepFault>
    ensures whole { IfOk result (λ trees. IsWhole place.now progress trees.head trees.instances) }
    ensures unfinished { IfErr result (λ fault. IsUnfinished place.now at fault) }
{
    match place {
        Place::Fixed(Fixed::Nothing) => Ok(Trees {
            head: progress.head,
            instances: progress.instances,
        }),
        _ => Err(StepFault::Syntax { at }),
    }
}

/// One token more: the next place.
///
/// # Errors
///
/// Where the token may not stand here, or opens the 33rd parenthesis.
fn read_token(
    alloc: Global,
    source: &[u8],
    token: Token,
    place: Place,
    progress: &mut Progress,
) -> Result<Place, StepFault>
    requires ordered { token.from ≤ token.end }
    requires within { token.end ≤ length source.now }
    requires spelled { IsTrue (is_spelled token.kind (bytes_at source.now (span_of token))) }
    ensures goes { IfOk result (λ next. Goes (step (state place progress.old) (symbol_of (lexeme_of source.now token)))
        (state next progress.new)) }
    ensures halts { IfErr result (λ fault. Halts (step (state place progress.old) (symbol_of (lexeme_of source.now token)))
        token.from fault) }
{
    let span = Span {
        from: token.from,
        end: token.end,
    };
    let symbol = symbol_of(token.kind, span, &source[token.from..token.end]);
    match step(alloc, place, progress, symbol)? {
        None => Err(StepFault::Syntax { at: token.from }),
        Some(next) => {
            if is_too_deep(&next, progress) {
                return Err(StepFault::Nested { at: token.from });
            }
            Ok(next)
        }
    }
}

/// Reads the head entries and the instances of a file, token by token.
///
/// # Errors
///
/// The first place at which the tokens begin no file, or open the 33rd parenthesis.
pub fn read_trees(alloc: Global, source: &[u8]) -> Result<Trees, StepFault>
    ensures file { IfOk result (λ trees. IsFile source.now trees.head trees.instances) }
    ensures cause { IfErr result (λ fault. IsCauseOrWant source.now fault) }
{
    let mut progress = Progress {
        frames: Vec::new(alloc),
        head: Items::new(alloc),
        instances: Items::new(alloc),
    };
    let mut place = Place::Fixed(Fixed::StartWord);
    let mut from = 0;
    'tokens: loop {
        match next_token(source, from) {
            TokenStep::Bad { at } => return Err(StepFault::Syntax { at }),
            TokenStep::End => return finish(&place, progress, source.len()),
            TokenStep::Got(token) => {
                place = read_token(alloc, source, token, place, &mut progress)?;
                from = token.end;
            }
        }
    }
}
