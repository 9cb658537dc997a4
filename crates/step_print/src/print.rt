ghost use Rattle.std.specs.Prelude.{◌≡◌, ◌++◌, ◌≤◌, length, IfOk, OnOk};
ghost use Rattle.spec_step.specs.Canonical.{IsCanonical, IsReprint};
ghost use Rattle.step_print.specs.Printing.{printed_token};

use spec_step::{TokenKind, TokenStep};
use std::alloc::{AllocError, Global};
use step_text::StepFile;
use step_token::next_token;

/// Appends the bytes of a token, of a keyword in capitals, and behind a semicolon a line feed.
fn put_token(page: &mut Vec<u8>, kind: TokenKind, text: &[u8]) -> Result<(), AllocError>
    ensures { OnOk result (page.new.items ≡ page.old.items ++ printed_token kind text.now) }
{
    if kind == TokenKind::Keyword {
        for byte in text {
            page.push(byte.to_ascii_uppercase())?;
        }
        return Ok(());
    }
    page.extend_from_slice(text)?;
    if kind == TokenKind::Mark && text == b";".as_slice() {
        page.push(b'\n')?;
    }
    Ok(())
}

/// Prints the canonical spelling of a file: its tokens in their order with no blanks and comments,
/// keywords in capitals, and a line feed behind each semicolon.
pub fn print_file(alloc: Global, file: &StepFile<'_>) -> Result<Vec<u8>, AllocError>
    ensures canonical { IfOk result (λ page. IsCanonical file.now.source.now page.items) }
    ensures same { IfOk result (λ page. ∥ IsReprint file.now.source.now file.now.head file.now.instances page.items ∥₁) }
    ensures again { IfOk result (λ page. IsCanonical page.items page.items) }
{
    let mut page = Vec::new(alloc);
    let mut from = 0;
    while let TokenStep::Got(token) = next_token(file.source, from) {
        put_token(&mut page, token.kind, &file.source[token.from..token.end])?;
        from = token.end;
    }
    Ok(page)
}
