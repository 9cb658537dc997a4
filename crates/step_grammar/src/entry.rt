ghost use Rattle.std.specs.Prelude.{◌≡◌, IfOk, reverse};
ghost use Rattle.step_grammar.specs.Entries.{at, atom_param, step_named, step_before, step_opened, step_typed, step_behind, entry_step, with_last};

use crate::symbol::{Atom, Symbol};
use spec_step::{Entry, Param, Span};
use sqlite_items::{Boxed, Items};
use std::alloc::{AllocError, Global};

/// A parenthesis that stands open in an entry, and what was read in it up to the last comma.
#[derive(Drop)]
pub enum Frame {
    /// the parameters of the entry, and its keyword
    Entry(Span, Items<Param>),
    /// the members of a list
    List(Items<Param>),
    /// the value of a keyword
    Typed(Span),
}

/// A place in an entry.
#[derive(Drop)]
pub enum Spot {
    /// behind the entry's keyword
    Named(Span),
    /// behind a parenthesis that opens a list, or the parameters of the entry
    Opened,
    /// where a parameter is wanted
    Before,
    /// behind the keyword of a typed parameter
    Typed(Span),
    /// behind a parameter
    Behind(Param),
    /// behind the entry
    Read(Entry),
}

/// The parameter that is one token.
fn atom_param(atom: Atom) -> Param
    ensures { result ≡ atom_param atom }
{
    match atom {
        Atom::Unset => Param::Unset,
        Atom::Derived => Param::Derived,
        Atom::Int(span) => Param::Int(span),
        Atom::Real(span) => Param::Real(span),
        Atom::Text(span) => Param::Text(span),
        Atom::Enumeration(span) => Param::Enumeration(span),
        Atom::Binary(span) => Param::Binary(span),
    }
}

/// The parameters, and one more.
fn with_last(mut params: Items<Param>, param: Param) -> Result<Items<Param>, AllocError>
    ensures { IfOk result (λ all. all ≡ with_last params param) }
{
    params.push(param)?;
    Ok(params)
}

/// One token more behind the keyword of an entry.
fn step_named(
    alloc: Global,
    keyword: Span,
    frames: &mut Vec<Frame>,
    symbol: Symbol,
) -> Result<Option<Spot>, AllocError>
    ensures { IfOk result (λ spot. at spot (reverse frames.new.items) ≡ step_named keyword (reverse frames.old.items) symbol) }
{
    match symbol {
        Symbol::Open => {
            frames.push(Frame::Entry(keyword, Items::new(alloc)))?;
            Ok(Some(Spot::Opened))
        }
        _ => Ok(None),
    }
}

/// One token more where a parameter is wanted.
fn step_before(
    alloc: Global,
    frames: &mut Vec<Frame>,
    symbol: Symbol,
) -> Result<Option<Spot>, AllocError>
    ensures { IfOk result (λ spot. at spot (reverse frames.new.items) ≡ step_before (reverse frames.old.items) symbol) }
{
    match symbol {
        Symbol::Atom(atom) => Ok(Some(Spot::Behind(atom_param(atom)))),
        Symbol::Number { number, .. } => Ok(Some(Spot::Behind(Param::Reference(number)))),
        Symbol::Keyword(keyword, _) => Ok(Some(Spot::Typed(keyword))),
        Symbol::Open => {
            frames.push(Frame::List(Items::new(alloc)))?;
            Ok(Some(Spot::Opened))
        }
        _ => Ok(None),
    }
}

/// A closing parenthesis behind the one that opens a list or the parameters of the entry.
fn close_empty(frames: &mut Vec<Frame>) -> Option<Spot>
    ensures { at result (reverse frames.new.items) ≡ step_opened (reverse frames.old.items) Symbol.Close }
{
    match frames.pop() {
        Some(Frame::List(members)) if members.is_empty() => {
            Some(Spot::Behind(Param::List(members)))
        }
        Some(Frame::Entry(keyword, params)) if params.is_empty() => {
            Some(Spot::Read(Entry { keyword, params }))
        }
        _ => None,
    }
}

/// One token more behind a parenthesis that opens a list or the parameters of the entry.
fn step_opened(
    alloc: Global,
    frames: &mut Vec<Frame>,
    symbol: Symbol,
) -> Result<Option<Spot>, AllocError>
    ensures { IfOk result (λ spot. at spot (reverse frames.new.items) ≡ step_opened (reverse frames.old.items) symbol) }
{
    match symbol {
        Symbol::Close => Ok(close_empty(frames)),
        _ => step_before(alloc, frames, symbol),
    }
}

/// One token more behind the keyword of a typed parameter.
fn step_typed(
    keyword: Span,
    frames: &mut Vec<Frame>,
    symbol: Symbol,
) -> Result<Option<Spot>, AllocError>
    ensures { IfOk result (λ spot. at spot (reverse frames.new.items) ≡ step_typed keyword (reverse frames.old.items) symbol) }
{
    match symbol {
        Symbol::Open => {
            frames.push(Frame::Typed(keyword))?;
            Ok(Some(Spot::Before))
        }
        _ => Ok(None),
    }
}

/// A closing parenthesis behind a parameter.
fn close(alloc: Global, param: Param, frames: &mut Vec<Frame>) -> Result<Option<Spot>, AllocError>
    ensures { IfOk result (λ spot. at spot (reverse frames.new.items) ≡ step_behind param (reverse frames.old.items) Symbol.Close) }
{
    match frames.pop() {
        Some(Frame::List(members)) => {
            let members = with_last(members, param)?;
            Ok(Some(Spot::Behind(Param::List(members))))
        }
        Some(Frame::Typed(keyword)) => {
            let value = Boxed::new(alloc, param)?;
            Ok(Some(Spot::Behind(Param::Typed(keyword, value))))
        }
        Some(Frame::Entry(keyword, params)) => {
            let params = with_last(params, param)?;
            Ok(Some(Spot::Read(Entry { keyword, params })))
        }
        None => Ok(None),
    }
}

/// A comma behind a parameter.
fn go_on(param: Param, frames: &mut Vec<Frame>) -> Result<Option<Spot>, AllocError>
    ensures { IfOk result (λ spot. at spot (reverse frames.new.items) ≡ step_behind param (reverse frames.old.items) Symbol.Comma) }
{
    match frames.pop() {
        Some(Frame::List(members)) => {
            let members = with_last(members, param)?;
            frames.push(Frame::List(members))?;
            Ok(Some(Spot::Before))
        }
        Some(Frame::Entry(keyword, params)) => {
            let params = with_last(params, param)?;
            frames.push(Frame::Entry(keyword, params))?;
            Ok(Some(Spot::Before))
        }
        _ => Ok(None),
    }
}

/// One token more behind a parameter.
fn step_behind(
    alloc: Global,
    param: Param,
    frames: &mut Vec<Frame>,
    symbol: Symbol,
) -> Result<Option<Spot>, AllocError>
    ensures { IfOk result (λ spot. at spot (reverse frames.new.items) ≡ step_behind param (reverse frames.old.items) symbol) }
{
    match symbol {
        Symbol::Close => close(alloc, param, frames),
        Symbol::Comma => go_on(param, frames),
        _ => Ok(None),
    }
}

/// One token more of an entry: the next place, where the token may stand here.
pub fn entry_step(
    alloc: Global,
    spot: Spot,
    frames: &mut Vec<Frame>,
    symbol: Symbol,
) -> Result<Option<Spot>, AllocError>
    ensures { IfOk result (λ next. at next (reverse frames.new.items) ≡ entry_step spot (reverse frames.old.items) symbol) }
{
    match spot {
        Spot::Named(keyword) => step_named(alloc, keyword, frames, symbol),
        Spot::Opened => step_opened(alloc, frames, symbol),
        Spot::Before => step_before(alloc, frames, symbol),
        Spot::Typed(keyword) => step_typed(keyword, frames, symbol),
        Spot::Behind(param) => step_behind(alloc, param, frames, symbol),
        Spot::Read(_) => Ok(None),
    }
}
