ghost use Rattle.std.specs.Prelude.{◌≡◌, ◌↔◌, IfOk, IsTrue, drop};
ghost use Rattle.std.specs.IoError.{error_kind};
ghost use Rattle.std.specs.Vec.Iter.{into_iter_items};
ghost use Rattle.std.specs.declared.io.ErrorKind.TheVariants.{OutOfMemory as IsMemory};
ghost use Rattle.process_words.specs.Words.{ComesTo};

use base_types::OutOfMemory;
use std::alloc::Global;
use std::env::Args;
use std::io;

/// The words behind the program's name, or none where an argument isn't UTF-8.
pub fn words_among(
    alloc: Global,
    given: io::Result<Args>,
) -> Result<Option<Vec<String>>, OutOfMemory>
    ensures { ComesTo given result }
{
    match given {
        Ok(given) => Ok(Some(words_behind(alloc, given)?)),
        Err(error) => {
            if is_want_of_memory(&error) {
                Err(OutOfMemory)
            } else {
                Ok(None)
            }
        }
    }
}

// The first argument is the program's name.
fn words_behind(alloc: Global, mut given: Args) -> Result<Vec<String>, OutOfMemory>
    ensures { IfOk result (λ words. words.items ≡ drop 1 (into_iter_items given)) }
{
    let mut words = Vec::new(alloc);
    let _name = given.next();
    for word in given {
        words.push(word)?;
    }
    Ok(words)
}

fn is_want_of_memory(error: &io::Error) -> bool
    ensures { IsTrue result ↔ (error_kind error.now ≡ IsMemory) }
{
    error.kind() == io::ErrorKind::OutOfMemory
}
