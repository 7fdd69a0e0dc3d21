//! The entries that hexadecimal digits spell.
ghost use Rattle.std.specs.Prelude.{◌≡◌};
ghost use Rattle.std.specs.Result.{result_ok};
ghost use Rattle.hex.specs.Hex.{decode_sized};
ghost use Rattle.nv_commands.specs.Command.{size_of};
ghost use Rattle.nv_commands.specs.declared.entry_kind.EntryKind.TheVariants.{Completion, Submission};

use hex::FromHex;
use nv_entry::{Cqe, Sqe};
use nv_model::limits::{CQE_SIZE, SQE_SIZE};

/// The bytes of a submission queue entry.
const SUBMISSION_BYTES: usize = SQE_SIZE as usize;

/// The bytes of a completion queue entry.
const COMPLETION_BYTES: usize = CQE_SIZE as usize;

/// The submission queue entry that these digits spell, or `None` where they are not 128 hexadecimal digits.
pub fn submission(digits: &str) -> Option<Sqe>
    ensures { result ≡ result_ok (decode_sized digits.now (size_of Submission)) }
{
    let bytes = <[u8; SUBMISSION_BYTES]>::from_hex(digits).ok()?;
    Some(Sqe::of(&bytes))
}

/// The completion queue entry that these digits spell, or `None` where they are not 32 hexadecimal digits.
pub fn completion(digits: &str) -> Option<Cqe>
    ensures { result ≡ result_ok (decode_sized digits.now (size_of Completion)) }
{
    let bytes = <[u8; COMPLETION_BYTES]>::from_hex(digits).ok()?;
    Some(Cqe::of(&bytes))
}
