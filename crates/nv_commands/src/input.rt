//! What there is to read.
ghost use Rattle.std.specs.Prelude.{◌≡◌, IfErr, IfOk, IfSome};
ghost use Rattle.nv_commands.specs.Once.{IsInput};

use crate::fault::Fault;
use std::alloc::Global;
use std::io::Read;

/// The whole input.
///
/// # Errors
///
/// [`Fault::NoMemory`] where memory for the input is refused. [`Fault::CannotRead`] where the input fails otherwise. Part of the input may
/// have been read then.
pub fn read_all<R: Read>(alloc: Global, input: &mut R) -> Result<Vec<u8>, Fault>
    ensures ok { IfOk result (λ text. IfSome (R.remaining input.old) (λ bytes. text.items ≡ bytes)) }
    ensures err { IfErr result IsInput }
{
    let mut text = Vec::new(alloc);
    match input.read_to_end(&mut text) {
        Ok(_) => Ok(text),
        Err(error) => Err(Fault::of_input(error)),
    }
}
