//! Replies that are wanted twice.

ghost use Rattle.std.specs.Prelude.{◌≡◌, IfOk, IfSome, IsSome, None, OnErr, Some};
ghost use Rattle.nv_core.specs.Seat.{bytes_told};
ghost use Rattle.nv_model.specs.declared.reply.Reply.TheVariants as Reply;

use nv_mem::{Bytes, NoMemory};
use nv_model::Reply;
use std::alloc::Global;
use std::mem;

/// A reply, and once more: with the bytes that came once more, or with a copy of its own. Nothing is moved of a reply that has none.
pub(crate) fn twice(
    alloc: Global,
    reply: Reply,
    again: Option<Bytes>,
) -> Result<(Reply, Reply), NoMemory>
    requires { IfSome again (λ bytes. bytes_told reply ≡ Some bytes) }
    ensures first { IfOk result (λ both. both.0 ≡ reply) }
    ensures second { IfOk result (λ both. both.1 ≡ reply) }
    ensures err { OnErr result ((again ≡ None) × IsSome (bytes_told reply)) }
{
    match reply {
        Reply::Bytes(bytes) => bytes_twice(alloc, bytes, again),
        Reply::Done => Ok(words(Reply::Done, Reply::Done, again)),
        Reply::Idle => Ok(words(Reply::Idle, Reply::Idle, again)),
        Reply::Busy => Ok(words(Reply::Busy, Reply::Busy, again)),
        Reply::Held => Ok(words(Reply::Held, Reply::Held, again)),
        Reply::Stale => Ok(words(Reply::Stale, Reply::Stale, again)),
        Reply::Unmapped => Ok(words(Reply::Unmapped, Reply::Unmapped, again)),
        Reply::Ignored => Ok(words(Reply::Ignored, Reply::Ignored, again)),
        Reply::NoMemory => Ok(words(Reply::NoMemory, Reply::NoMemory, again)),
    }
}

// Two replies without bytes, where no bytes came a second time: nothing has to be given back, and so nothing is examined.
#[inline(always)]
fn words(first: Reply, second: Reply, none: Option<Bytes>) -> (Reply, Reply)
    requires { none ≡ None }
    ensures { result ≡ (first, second) }
{
    mem::forget(none);
    (first, second)
}

// The same of a reply with bytes.
fn bytes_twice(
    alloc: Global,
    bytes: Bytes,
    again: Option<Bytes>,
) -> Result<(Reply, Reply), NoMemory>
    requires { IfSome again (λ copy. copy ≡ bytes) }
    ensures first { IfOk result (λ both. both.0 ≡ Reply.Bytes bytes) }
    ensures second { IfOk result (λ both. both.1 ≡ Reply.Bytes bytes) }
    ensures err { OnErr result (again ≡ None) }
{
    let again = match again {
        Some(again) => again,
        None => self::bytes(alloc, &bytes)?,
    };
    Ok((Reply::Bytes(bytes), Reply::Bytes(again)))
}

// Bytes once more.
fn bytes(alloc: Global, bytes: &Bytes) -> Result<Bytes, NoMemory>
    ensures { IfOk result (λ copy. copy ≡ bytes.now) }
{
    Bytes::from_slice(alloc, bytes.as_slice())
}
