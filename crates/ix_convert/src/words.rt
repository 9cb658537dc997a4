ghost use Rattle.std.specs.Prelude.{◌≡◌, IfOk, drop};
ghost use Rattle.std.specs.Vec.Iter.{into_iter_items};
ghost use Rattle.ix_convert.specs.Starts.{words_in};

use std::alloc::{AllocError, Global};
use std::env::Args;
use std::io;

/// The arguments that are left. The error is want of memory.
fn collected(alloc: Global, args: Args) -> Result<Vec<String>, AllocError>
    ensures { IfOk result (λ words. words.items ≡ into_iter_items args) }
{
    let mut words = Vec::new(alloc);
    for word in args {
        words.push(word)?;
    }
    Ok(words)
}

/// The arguments without the first, which is the program's name. The error is want of memory.
fn words_behind_name(alloc: Global, args: Args) -> Result<Vec<String>, AllocError>
    ensures { IfOk result (λ words. words.items ≡ drop 1 (into_iter_items args)) }
{
    let mut args = args;
    drop(args.next());
    collected(alloc, args)
}

/// The words of the command line, without the program's name: none where an argument is no text. The error is want of memory.
pub(crate) fn words_of(alloc: Global, args: io::Result<Args>) -> Result<Vec<String>, AllocError>
    ensures { IfOk result (λ words. words.items ≡ words_in into_iter_items args) }
{
    match args {
        Ok(args) => words_behind_name(alloc, args),
        Err(error) if error.kind() == io::ErrorKind::OutOfMemory => Err(AllocError),
        Err(_) => Ok(Vec::new(alloc)),
    }
}
