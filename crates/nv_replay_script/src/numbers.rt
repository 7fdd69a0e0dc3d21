//! Numbers of fewer than 64 bits, as words write them.
ghost use Rattle.std.specs.Prelude.{◌≡◌};
ghost use Rattle.nv_replay_script.specs.ReplayEvents.{dword_of, status_of, word_of};

use nv_entry::Status;
use nv_once_script::FaultKind;
use nv_once_script::once::number::{byte, up_to};
use nv_once_script::once::word::Word;

/// The most of a status code type.
const SCT_MAX: u64 = 7;

/// The number of 16 bits that a word writes.
///
/// # Errors
///
/// [`FaultKind::BadNumber`] where the word is no number, or writes one of more than 16 bits.
#[inline(always)]
pub fn word(text: Word<'_>) -> Result<u16, FaultKind>
    ensures { result ≡ word_of text.entry }
{
    let value = up_to(text, u64::from(u16::MAX))?;
    Ok(value as u16)
}

/// The number of 32 bits that a word writes.
///
/// # Errors
///
/// [`FaultKind::BadNumber`] where the word is no number, or writes one of more than 32 bits.
#[inline(always)]
pub fn dword(text: Word<'_>) -> Result<u32, FaultKind>
    ensures { result ≡ dword_of text.entry }
{
    let value = up_to(text, u64::from(u32::MAX))?;
    Ok(value as u32)
}

/// The status that three words write: SCT of 3 bits, SC of 8, DNR of one.
///
/// # Errors
///
/// [`FaultKind::BadNumber`] where a word is no number, or writes one of more bits than its field has.
pub fn status(sct: Word<'_>, sc: Word<'_>, dnr: Word<'_>) -> Result<Status, FaultKind>
    ensures { result ≡ status_of sct.entry sc.entry dnr.entry }
{
    let sct = up_to(sct, SCT_MAX)?;
    let sc = byte(sc)?;
    let dnr = up_to(dnr, 1)?;
    Ok(Status::new(sct as u8, sc, dnr == 1))
}
