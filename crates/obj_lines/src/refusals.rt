ghost use Rattle.std.specs.Prelude.{ℕ, ◌≡◌, true, MatchOption};
ghost use Rattle.spec_space.specs.declared.Vector.{Vector};
ghost use Rattle.spec_refusal.specs.declared.Refusal.{Refusal};
ghost use Rattle.obj_lines.specs.PageLines as page;
ghost use Rattle.obj_lines.specs.Readings.{IsReadingAs, IsLineOf, IsNoEarly, IsNoLate, line_of};
ghost use Rattle.obj_lines.specs.Templates.{place_count, is_template, IsTwo, IsNotTwo, IsThree, IsNotThree};

use crate::limits::{is_within, short, triangle_count, vector};
use crate::line::Line;
use crate::template::scan;
use spec_refusal::Refusal;

/// Two numbers of at most 18 digits, if a text is that of the template with them.
fn two(text: &[u8], template: &[u8]) -> Option<(u64, u64)>
    requires apart { is_template template.now ≡ true }
    requires places { place_count template.now ≡ 2 }
    ensures { MatchOption result (IsNotTwo template.now text.now) (λ found. IsTwo template.now text.now found.0 found.1) }
{
    let found = scan::<2>(text, template)?;
    let first = short(found[0])?;
    let second = short(found[1])?;
    Some((first, second))
}

/// Three numbers of at most 18 digits, if a text is that of the template with them.
fn three(text: &[u8], template: &[u8]) -> Option<(u64, u64, u64)>
    requires apart { is_template template.now ≡ true }
    requires places { place_count template.now ≡ 3 }
    ensures { MatchOption result (IsNotThree template.now text.now) (λ found. IsThree template.now text.now found.0 found.1 found.2) }
{
    let found = scan::<3>(text, template)?;
    let first = short(found[0])?;
    let second = short(found[1])?;
    let third = short(found[2])?;
    Some((first, second, third))
}

/// The line of an element that is refused by E1.
fn unsupported(text: &[u8]) -> Option<Line>
    ensures { IsReadingAs (λ (n : ℕ × ℕ). page.Refused n.0 (Refusal.Unsupported n.1)) text.now result }
{
    let (number, at) = two(text, b"#refused @ E1 Unsupported #@")?;
    Some(Line::Refused(number, Refusal::Unsupported { at }))
}

/// The line of an element that is refused by E2.
fn curved(text: &[u8]) -> Option<Line>
    ensures { IsReadingAs (λ (n : ℕ × ℕ). page.Refused n.0 (Refusal.Curved n.1)) text.now result }
{
    let (number, at) = two(text, b"#refused @ E2 Curved #@")?;
    Some(Line::Refused(number, Refusal::Curved { at }))
}

/// The line of an element that is refused by E3.
fn bad_attribute(text: &[u8]) -> Option<Line>
    ensures { IsReadingAs (λ (n : ℕ × ℕ × ℕ). page.Refused n.0 (Refusal.BadAttribute n.1 n.2)) text.now result }
{
    let (number, at, position) = three(text, b"#refused @ E3 BadAttribute #@ @")?;
    Some(Line::Refused(
        number,
        Refusal::BadAttribute {
            at,
            position: position as usize,
        },
    ))
}

/// The line of an element that is refused by E4.
fn dangling(text: &[u8]) -> Option<Line>
    ensures { IsReadingAs (λ (n : ℕ × ℕ × ℕ). page.Refused n.0 (Refusal.Dangling n.1 n.2)) text.now result }
{
    let (element, at, number) = three(text, b"#refused @ E4 Dangling #@ @")?;
    Some(Line::Refused(element, Refusal::Dangling { at, number }))
}

/// The line of an element that is refused by E5.
fn number_too_large(text: &[u8]) -> Option<Line>
    ensures { IsReadingAs (λ (n : ℕ × ℕ). page.Refused n.0 (Refusal.NumberTooLarge n.1)) text.now result }
{
    let (number, at) = two(text, b"#refused @ E5 NumberTooLarge #@")?;
    Some(Line::Refused(number, Refusal::NumberTooLarge { at }))
}

/// The line of an element that is refused by E6.
fn bad_direction(text: &[u8]) -> Option<Line>
    ensures { IsReadingAs (λ (n : ℕ × ℕ). page.Refused n.0 (Refusal.BadDirection n.1)) text.now result }
{
    let (number, at) = two(text, b"#refused @ E6 BadDirection #@")?;
    Some(Line::Refused(number, Refusal::BadDirection { at }))
}

/// The line of an element that is refused by E7.
fn scale_out_of_range(text: &[u8]) -> Option<Line>
    ensures { IsReadingAs (λ (n : ℕ × ℕ). page.Refused n.0 (Refusal.ScaleOutOfRange n.1)) text.now result }
{
    let (number, at) = two(text, b"#refused @ E7 ScaleOutOfRange #@")?;
    Some(Line::Refused(number, Refusal::ScaleOutOfRange { at }))
}

/// The line of an element that is refused by E8.
fn too_deep(text: &[u8]) -> Option<Line>
    ensures { IsReadingAs (λ (n : ℕ × ℕ). page.Refused n.0 (Refusal.TooDeep n.1)) text.now result }
{
    let (number, at) = two(text, b"#refused @ E8 TooDeep #@")?;
    Some(Line::Refused(number, Refusal::TooDeep { at }))
}

/// The line of an element that is refused by E9.
fn element_too_large(text: &[u8]) -> Option<Line>
    ensures { IsReadingAs (λ (n : ℕ × ℕ). page.Refused n.0 (Refusal.ElementTooLarge n.1)) text.now result }
{
    let found = scan::<2>(text, b"#refused @ E9 ElementTooLarge @")?;
    let number = short(found[0])?;
    let triangles = triangle_count(found[1])?;
    Some(Line::Refused(number, Refusal::ElementTooLarge { triangles }))
}

/// The line of an element that is refused by E10.
fn corner_too_far(text: &[u8]) -> Option<Line>
    ensures { IsReadingAs (λ (n : ℕ × ℕ). page.Refused n.0 (Refusal.CornerTooFar n.1)) text.now result }
{
    let (number, at) = two(text, b"#refused @ E10 CornerTooFar #@")?;
    Some(Line::Refused(number, Refusal::CornerTooFar { at }))
}

/// The line of an element that is refused by E11.
fn open_shell(text: &[u8]) -> Option<Line>
    ensures { IsReadingAs (λ (n : ℕ × ℕ × Vector × Vector). page.Refused n.0 (Refusal.OpenShell n.1 n.2 n.3)) text.now result }
{
    let found = scan::<8>(text, b"#refused @ E11 OpenShell #@ @,@,@ @,@,@")?;
    let number = short(found[0])?;
    let at = short(found[1])?;
    let from = vector(found[2], found[3], found[4]);
    if !is_within(1 << 20, &from) {
        return None;
    }
    let to = vector(found[5], found[6], found[7]);
    if !is_within(1 << 20, &to) {
        return None;
    }
    Some(Line::Refused(number, Refusal::OpenShell { at, from, to }))
}

/// The line of an element that is refused by E12.
fn plane_too_large(text: &[u8]) -> Option<Line>
    ensures { IsReadingAs (λ (n : ℕ × ℕ). page.Refused n.0 (Refusal.PlaneTooLarge n.1)) text.now result }
{
    let (number, at) = two(text, b"#refused @ E12 PlaneTooLarge #@")?;
    Some(Line::Refused(number, Refusal::PlaneTooLarge { at }))
}

/// The line of an element that is refused by E13.
fn unbounded(text: &[u8]) -> Option<Line>
    ensures { IsReadingAs (λ (n : ℕ × ℕ). page.Refused n.0 (Refusal.Unbounded n.1)) text.now result }
{
    let (number, at) = two(text, b"#refused @ E13 Unbounded #@")?;
    Some(Line::Refused(number, Refusal::Unbounded { at }))
}

/// The line of an element that is refused by E1 to E7.
fn early(text: &[u8]) -> Option<Line>
    ensures { MatchOption result (IsNoEarly text.now) (λ line. IsLineOf text.now (line_of line)) }
{
    if let Some(line) = unsupported(text) {
        return Some(line);
    }
    if let Some(line) = curved(text) {
        return Some(line);
    }
    if let Some(line) = bad_attribute(text) {
        return Some(line);
    }
    if let Some(line) = dangling(text) {
        return Some(line);
    }
    if let Some(line) = number_too_large(text) {
        return Some(line);
    }
    if let Some(line) = bad_direction(text) {
        return Some(line);
    }
    scale_out_of_range(text)
}

/// The line of an element that is refused by E8 to E13.
fn late(text: &[u8]) -> Option<Line>
    ensures { MatchOption result (IsNoLate text.now) (λ line. IsLineOf text.now (line_of line)) }
{
    if let Some(line) = too_deep(text) {
        return Some(line);
    }
    if let Some(line) = element_too_large(text) {
        return Some(line);
    }
    if let Some(line) = corner_too_far(text) {
        return Some(line);
    }
    if let Some(line) = open_shell(text) {
        return Some(line);
    }
    if let Some(line) = plane_too_large(text) {
        return Some(line);
    }
    unbounded(text)
}

/// The line of an element that is refused.
pub(crate) fn refused(text: &[u8]) -> Option<Line>
    ensures { IsReadingAs (λ (n : ℕ × Refusal). page.Refused n.0 n.1) text.now result }
{
    match early(text) {
        Some(line) => Some(line),
        None => late(text),
    }
}
