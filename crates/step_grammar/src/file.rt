ghost use Rattle.std.specs.Prelude.{◌≡◌, ◌<◌, ◌↔◌, IfOk, IsTrue};
ghost use Rattle.step_grammar.specs.Places.{place_if, is_semicolon, is_name, step_fixed, step_head, step_instances, step_numbered, step_equated, step_opened_instance, step, state, next_state, with_instance, with_entry, open_at};

use crate::entry::{Spot, entry_step};
use crate::place::{Fixed, Key, Place, Progress};
use crate::symbol::{Name, Symbol};
use spec_step::{Body, Entry, Instance};
use sqlite_items::Items;
use std::alloc::{AllocError, Global};

fn place_if(passes: bool, place: Place) -> Option<Place>
    ensures { result ≡ place_if passes place }
{
    passes.then_some(place)
}

fn is_semicolon(symbol: Symbol) -> bool
    ensures { result ≡ is_semicolon symbol }
{
    matches!(symbol, Symbol::Semicolon { .. })
}

fn is_name(symbol: Symbol, wanted: Name) -> bool
    ensures { result ≡ is_name symbol wanted }
{
    match symbol {
        Symbol::Keyword(_, name) => name == wanted,
        _ => false,
    }
}

/// One token more between the parts of a file.
fn step_fixed(fixed: Fixed, symbol: Symbol) -> Option<Place>
    ensures { result ≡ step_fixed fixed symbol }
{
    match fixed {
        Fixed::StartWord => place_if(
            matches!(symbol, Symbol::StartWord),
            Place::Fixed(Fixed::StartEnd),
        ),
        Fixed::StartEnd => place_if(is_semicolon(symbol), Place::Fixed(Fixed::Header)),
        Fixed::Header => place_if(
            is_name(symbol, Name::Header),
            Place::Fixed(Fixed::HeaderStart),
        ),
        Fixed::HeaderStart => place_if(is_semicolon(symbol), Place::Head),
        Fixed::HeaderEnd => place_if(is_semicolon(symbol), Place::Fixed(Fixed::Data)),
        Fixed::Data => place_if(is_name(symbol, Name::Data), Place::Fixed(Fixed::DataStart)),
        Fixed::DataStart => place_if(is_semicolon(symbol), Place::Instances),
        Fixed::DataEnd => place_if(is_semicolon(symbol), Place::Fixed(Fixed::EndWord)),
        Fixed::EndWord => place_if(
            matches!(symbol, Symbol::EndWord),
            Place::Fixed(Fixed::FileEnd),
        ),
        Fixed::FileEnd => place_if(is_semicolon(symbol), Place::Fixed(Fixed::Nothing)),
        Fixed::Nothing => None,
    }
}

/// One token more where a head entry or the end of the header is wanted.
fn step_head(symbol: Symbol) -> Option<Place>
    ensures { result ≡ step_head symbol }
{
    match symbol {
        Symbol::Keyword(_, Name::EndSection) => Some(Place::Fixed(Fixed::HeaderEnd)),
        Symbol::Keyword(keyword, _) => Some(Place::HeadEntry(Spot::Named(keyword))),
        _ => None,
    }
}

/// One token more where an instance or the end of the instances is wanted.
fn step_instances(symbol: Symbol) -> Option<Place>
    ensures { result ≡ step_instances symbol }
{
    match symbol {
        Symbol::Number { number, from } => Some(Place::Numbered(Key { number, from })),
        Symbol::Keyword(_, Name::EndSection) => Some(Place::Fixed(Fixed::DataEnd)),
        _ => None,
    }
}

/// One token more behind the number of an instance.
fn step_numbered(key: Key, symbol: Symbol) -> Option<Place>
    ensures { result ≡ step_numbered key symbol }
{
    match symbol {
        Symbol::Equals => Some(Place::Equated(key)),
        _ => None,
    }
}

/// One token more behind the `=` of an instance.
fn step_equated(key: Key, symbol: Symbol) -> Option<Place>
    ensures { result ≡ step_equated key symbol }
{
    match symbol {
        Symbol::Keyword(keyword, _) => Some(Place::Simple(key, Spot::Named(keyword))),
        Symbol::Open => Some(Place::Opened(key)),
        _ => None,
    }
}

/// One token more behind the parenthesis that opens a complex instance.
fn step_opened_instance(alloc: Global, key: Key, symbol: Symbol) -> Option<Place>
    ensures { result ≡ step_opened_instance key symbol }
{
    match symbol {
        Symbol::Keyword(keyword, _) => {
            let entries = Items::new(alloc);
            Some(Place::Complex(key, entries, Spot::Named(keyword)))
        }
        _ => None,
    }
}

/// One token more of a head entry.
fn step_head_entry(
    alloc: Global,
    spot: Spot,
    progress: &mut Progress,
    symbol: Symbol,
) -> Result<Option<Place>, AllocError>
    ensures { IfOk result (λ place. next_state place progress.new ≡ step (state (Place.HeadEntry spot) progress.old) symbol) }
{
    match (spot, symbol) {
        (Spot::Read(entry), Symbol::Semicolon { .. }) => {
            progress.head.push(entry)?;
            Ok(Some(Place::Head))
        }
        (spot, symbol) => {
            match entry_step(alloc, spot, &mut progress.frames, symbol)? {
                Some(next) => Ok(Some(Place::HeadEntry(next))),
                None => Ok(None),
            }
        }
    }
}

/// An instance is whole.
fn add_instance(
    key: Key,
    body: Body,
    end: usize,
    progress: &mut Progress,
) -> Result<Option<Place>, AllocError>
    ensures { IfOk result (λ place. next_state place progress.new ≡ Some (with_instance key body end (state Place.Instances progress.old))) }
{
    progress.instances.push(Instance {
        number: key.number,
        body,
        from: key.from,
        end,
    })?;
    Ok(Some(Place::Instances))
}

/// One token more of a simple instance.
fn step_simple(
    alloc: Global,
    key: Key,
    spot: Spot,
    progress: &mut Progress,
    symbol: Symbol,
) -> Result<Option<Place>, AllocError>
    ensures { IfOk result (λ place. next_state place progress.new ≡ step (state (Place.Simple key spot) progress.old) symbol) }
{
    match (spot, symbol) {
        (Spot::Read(entry), Symbol::Semicolon { end }) => {
            add_instance(key, Body::Simple(entry), end, progress)
        }
        (spot, symbol) => {
            match entry_step(alloc, spot, &mut progress.frames, symbol)? {
                Some(next) => Ok(Some(Place::Simple(key, next))),
                None => Ok(None),
            }
        }
    }
}

/// The entries, and one more.
fn with_entry(mut entries: Items<Entry>, entry: Entry) -> Result<Items<Entry>, AllocError>
    ensures { IfOk result (λ all. all ≡ with_entry entries entry) }
{
    entries.push(entry)?;
    Ok(entries)
}

/// One token more of an entry of a complex instance.
fn step_complex(
    alloc: Global,
    key: Key,
    entries: Items<Entry>,
    spot: Spot,
    progress: &mut Progress,
    symbol: Symbol,
) -> Result<Option<Place>, AllocError>
    ensures { IfOk result (λ place. next_state place progress.new ≡ step (state (Place.Complex key entries spot) progress.old) symbol) }
{
    match (spot, symbol) {
        (Spot::Read(entry), Symbol::Keyword(keyword, _)) => {
            let entries = with_entry(entries, entry)?;
            Ok(Some(Place::Complex(key, entries, Spot::Named(keyword))))
        }
        (Spot::Read(entry), Symbol::Close) => {
            let entries = with_entry(entries, entry)?;
            Ok(Some(Place::Closed(key, entries)))
        }
        (spot, symbol) => {
            match entry_step(alloc, spot, &mut progress.frames, symbol)? {
                Some(next) => Ok(Some(Place::Complex(key, entries, next))),
                None => Ok(None),
            }
        }
    }
}

/// One token more behind a complex instance.
fn step_closed(
    key: Key,
    entries: Items<Entry>,
    progress: &mut Progress,
    symbol: Symbol,
) -> Result<Option<Place>, AllocError>
    ensures { IfOk result (λ place. next_state place progress.new ≡ step (state (Place.Closed key entries) progress.old) symbol) }
{
    match symbol {
        Symbol::Semicolon { end } => add_instance(key, Body::Complex(entries), end, progress),
        _ => Ok(None),
    }
}

/// One token more of a file: the next place, where the token may stand here.
pub fn step(
    alloc: Global,
    place: Place,
    progress: &mut Progress,
    symbol: Symbol,
) -> Result<Option<Place>, AllocError>
    ensures { IfOk result (λ next. next_state next progress.new ≡ step (state place progress.old) symbol) }
{
    match place {
        Place::Fixed(fixed) => Ok(step_fixed(fixed, symbol)),
        Place::Head => Ok(step_head(symbol)),
        Place::HeadEntry(spot) => step_head_entry(alloc, spot, progress, symbol),
        Place::Instances => Ok(step_instances(symbol)),
        Place::Numbered(key) => Ok(step_numbered(key, symbol)),
        Place::Equated(key) => Ok(step_equated(key, symbol)),
        Place::Simple(key, spot) => step_simple(alloc, key, spot, progress, symbol),
        Place::Opened(key) => Ok(step_opened_instance(alloc, key, symbol)),
        Place::Complex(key, entries, spot) => {
            step_complex(alloc, key, entries, spot, progress, symbol)
        }
        Place::Closed(key, entries) => step_closed(key, entries, progress, symbol),
    }
}

/// Whether more than 32 parentheses stand open at the place.
pub fn is_too_deep(place: &Place, progress: &Progress) -> bool
    ensures { IsTrue result ↔ (32 < open_at (state place.now progress.now)) }
{
    let limit = match place {
        Place::Opened(_) | Place::Complex(..) => 31,
        _ => 32,
    };
    progress.frames.len() > limit
}
