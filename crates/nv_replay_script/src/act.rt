//! The acts of guests, as their lines write them.
ghost use Rattle.std.specs.Prelude.{◌≡◌, ◌∷◌, [], length, replicate, IfOk, MatchResult};
ghost use Rattle.nv_once_script.specs.OnceFault.{Refuses};
ghost use Rattle.nv_once_script.specs.declared.once.fault.LineFault.TheVariants.{NoMemory};
ghost use Rattle.nv_replay_script.specs.ReplayEvents.{act_of};
ghost use Rattle.nv_replay_script.specs.ReplayVocabulary.{act_arguments};
ghost use Rattle.nv_replay_script.specs.declared.vocabulary.ActKind.TheVariants as kind;

use crate::numbers::dword;
use crate::vocabulary::ActKind;
use nv_mem::BoxedBytes;
use nv_model::Act;
use nv_once_script::FaultKind;
use nv_once_script::once::FILL_MAX;
use nv_once_script::once::fault::LineFault;
use nv_once_script::once::number::{byte, bytes, number, up_to};
use nv_once_script::once::word::Word;
use nv_once_script::once::words::Words;
use std::alloc::{AllocError, Global};

/// Makes the act from this kind and the words after its guest, which are as many as the kind needs.
///
/// # Errors
///
/// [`LineFault::Faulty`] with [`FaultKind::BadNumber`] for a number that is none, or too large; with [`FaultKind::BadBytes`] where the
/// digits of a `store` spell no bytes. [`LineFault::NoMemory`] where memory for the bytes of a `store` or `fill` is refused.
pub fn make_act(alloc: Global, kind: ActKind, mut words: Words<'_>) -> Result<Act, LineFault>
    requires { length words ≡ act_arguments kind }
    ensures { let act = act_of kind words.entry
        in MatchResult result (λ made. act ≡ Ok made) (Refuses act) }
{
    match kind {
        ActKind::Store => {
            let addr = words.next_word();
            store(alloc, addr, words.next_word())
        }
        ActKind::Fill => {
            let addr = words.next_word();
            let len = words.next_word();
            fill(alloc, addr, len, words.next_word())
        }
        ActKind::Load => {
            let addr = words.next_word();
            Ok(load(addr, words.next_word())?)
        }
        ActKind::RegRead => Ok(reg_read(words.next_word())?),
        ActKind::RegWrite => {
            let offset = words.next_word();
            Ok(reg_write(offset, words.next_word())?)
        }
        ActKind::Bell => {
            let offset = words.next_word();
            Ok(bell(offset, words.next_word())?)
        }
    }
}

/// The act of a line `store`: an address and bytes.
pub(crate) fn store(alloc: Global, addr: Word<'_>, digits: Word<'_>) -> Result<Act, LineFault>
    ensures { let act = act_of kind.Store (addr.entry ∷ digits.entry ∷ [])
        in MatchResult result (λ made. act ≡ Ok made) (Refuses act) }
{
    let addr = number(addr)?;
    let bytes = held(alloc, bytes(alloc, digits)?)?;
    Ok(Act::Store { addr, bytes })
}

/// The act of a line `fill`: an address, how many bytes, and which.
pub(crate) fn fill(
    alloc: Global,
    addr: Word<'_>,
    len: Word<'_>,
    value: Word<'_>,
) -> Result<Act, LineFault>
    ensures { let act = act_of kind.Fill (addr.entry ∷ len.entry ∷ value.entry ∷ [])
        in MatchResult result (λ made. act ≡ Ok made) (Refuses act) }
{
    let addr = number(addr)?;
    let len = up_to(len, FILL_MAX)?;
    let value = byte(value)?;
    let bytes = held(alloc, equal_bytes(alloc, len as usize, value)?)?;
    Ok(Act::Store { addr, bytes })
}

/// The act of a line `load`: an address, and how many bytes.
#[inline(always)]
pub(crate) fn load(addr: Word<'_>, len: Word<'_>) -> Result<Act, FaultKind>
    ensures { result ≡ act_of kind.Load (addr.entry ∷ len.entry ∷ []) }
{
    let addr = number(addr)?;
    let len = number(len)?;
    Ok(Act::Load { addr, len })
}

/// The act of a line `regread`: the offset of a register.
#[inline(always)]
pub(crate) fn reg_read(offset: Word<'_>) -> Result<Act, FaultKind>
    ensures { result ≡ act_of kind.RegRead (offset.entry ∷ []) }
{
    let offset = dword(offset)?;
    Ok(Act::RegRead { offset })
}

/// The act of a line `regwrite`: the offset of a register, and its value.
#[inline(always)]
pub(crate) fn reg_write(offset: Word<'_>, value: Word<'_>) -> Result<Act, FaultKind>
    ensures { result ≡ act_of kind.RegWrite (offset.entry ∷ value.entry ∷ []) }
{
    let offset = dword(offset)?;
    let value = dword(value)?;
    Ok(Act::RegWrite { offset, value })
}

/// The act of a line `bell`: the offset of a doorbell, and its value.
#[inline(always)]
pub(crate) fn bell(offset: Word<'_>, value: Word<'_>) -> Result<Act, FaultKind>
    ensures { result ≡ act_of kind.Bell (offset.entry ∷ value.entry ∷ []) }
{
    let offset = dword(offset)?;
    let value = dword(value)?;
    Ok(Act::Doorbell { offset, value })
}

// The bytes of the vector as those of an act.
fn held(alloc: Global, bytes: Vec<u8>) -> Result<BoxedBytes, LineFault>
    ensures { MatchResult result (λ held. held ≡ bytes.items) (λ fault. fault ≡ NoMemory) }
{
    let Ok(held) = BoxedBytes::new(alloc, bytes) else {
        return Err(LineFault::NoMemory);
    };
    Ok(held)
}

// So many equal bytes.
fn equal_bytes(alloc: Global, len: usize, byte: u8) -> Result<Vec<u8>, AllocError>
    ensures { IfOk result (λ bytes. bytes.items ≡ replicate len byte) }
{
    vec![in alloc; byte; len]
}
