//! The event of an admin queue.

ghost use Rattle.std.specs.Prelude.{◌≡◌, ℕ, None, Some, false, length, true};
ghost use Rattle.nv_mem.specs.GuestMap.{mapped};
ghost use Rattle.nv_model.specs.Admin.{admin, is_queue_full};
ghost use Rattle.nv_model.specs.Controller.{Controller, completion_queue, is_ready, post};
ghost use Rattle.nv_model.specs.Laws.{QueuesInPlace};
ghost use Rattle.nv_model.specs.Memory.{byte_in, image, put_image};
ghost use Rattle.nv_admin.specs.Administering.{AreMapped, IsCompletionMapped, IsFetched, administered, answer_of, answered_with, command_at, completed_with, completion_behind};
ghost use Rattle.nv_admin.specs.Administering.{deletion_done, event_by, ready_done, takes_command};
ghost use Rattle.nv_admin.specs.Effect.{IsPageMapped, stored_by};
ghost use Rattle.nv_admin.specs.Event.{controller_behind, host_behind, reply_of};
ghost use Rattle.nv_vctl.specs.Vctl.{SubmissionsFit};

use crate::administered::Administered;
use crate::carried::Carried;
use crate::commands;
use crate::outcome::Outcome;
use crate::reply::Admin;
use crate::shown_page::{ShownPage, store_page};
use nv_entry::{Sqe, Status, StatusCode};
use nv_mem::{GuestMap, MemoryCell};
use nv_vctl::{Deletion, Posting, Vctl};

/// The number of the admin queue.
const ADMIN_QUEUE: u16 = 0;

/// One event of a guest's admin queue, on a namespace of `blocks` blocks. See the crate's page for what it does.
///
/// Nothing changes where the reply is [`Admin::Idle`] or [`Admin::Held`]. Of the host, no byte changes outside the map. The queues that are there
/// are in the map as before.
///
/// The caller knows that the map was made for a host of this length ([`GuestMap::host_len`] returns it), and that the queues that are there are
/// wholly in the map, as every call keeps it ([`Vctl::lies_in`] tests it).
pub fn admin<C: MemoryCell>(vctl: &mut Vctl, blocks: u64, map: &GuestMap, host: &mut [C]) -> Admin
    requires host { map.now.host_len ≡ length (C.bytes host.old) }
    requires in_place { QueuesInPlace (mapped map.now.regions) vctl.old }
    ensures reply { result ≡ reply_of (admin (mapped map.now.regions) blocks vctl.old (image map.now.regions (byte_in (C.bytes host.old)))) }
    ensures controller { vctl.new
        ≡ controller_behind vctl.old (admin (mapped map.now.regions) blocks vctl.old (image map.now.regions (byte_in (C.bytes host.old)))) }
    ensures host { let before = byte_in (C.bytes host.old) in byte_in (C.bytes host.new)
        ≡ host_behind map.now.regions before (admin (mapped map.now.regions) blocks vctl.old (image map.now.regions before)) }
    ensures len { length (C.bytes host.new) ≡ length (C.bytes host.old) }
    ensures in_place { QueuesInPlace (mapped map.now.regions) vctl.new }
{
    // With the length of the host comes what is known of every map.
    let _known = map.host_len();
    let entry = fetched(vctl, map, host);
    match administer(vctl, blocks, map, &entry) {
        Administered::Idle => Admin::Idle,
        Administered::Held => Admin::Held,
        Administered::Done { page, completion } => {
            store_page(page, map, host);
            store_completion(completion, map, host);
            Admin::Done
        }
    }
}

// Whether an event is given a command: no deletion waits, and its completion can be posted.
fn takes_command(vctl: &Vctl) -> bool
    ensures { result ≡ takes_command vctl.now }
{
    vctl.deletion().is_none() && !vctl.is_admin_full()
}

/// The guest address of the command that [`administer`] is given, which has 64 bytes; `None` where it is given none: a deletion waits, no command may
/// be taken, or the admin completion queue is full.
///
/// The caller knows that the submission queues end at 2 to the 64 at the latest, as those do that lie wholly in a map ([`Vctl::lies_in`]).
pub fn command_at(vctl: &Vctl) -> Option<u64>
    requires { SubmissionsFit vctl.now }
    ensures { result ≡ command_at vctl.now }
{
    if takes_command(vctl) {
        vctl.front(ADMIN_QUEUE)
    } else {
        None
    }
}

// The command that the event is given; zeros where there is none.
fn fetched<C: MemoryCell>(vctl: &Vctl, map: &GuestMap, host: &[C]) -> Sqe
    requires host { map.now.host_len ≡ length (C.bytes host.now) }
    requires in_place { QueuesInPlace (mapped map.now.regions) vctl.now }
    ensures { IsFetched (image map.now.regions (byte_in (C.bytes host.now))) vctl.now result }
{
    if takes_command(vctl)
        && let Some(entry) = vctl.peek_sqe(ADMIN_QUEUE, map, host)
    {
        return entry;
    }
    Sqe::of(&[0; 64])
}

/// One event of a guest's admin queue, with the command that was fetched for it, and without its memory.
///
/// The command is the one at the front of the admin queue. It is not looked at where a deletion waits, or no command may be taken, or the admin
/// completion queue is full. Nothing changes but the controller. What is to be stored is in the result, and all of it lies in the map.
///
/// The caller knows that the queues that are there are wholly in the map, as every call keeps it ([`Vctl::lies_in`] tests it).
pub fn administer(vctl: &mut Vctl, blocks: u64, map: &GuestMap, entry: &Sqe) -> Administered
    requires in_place { QueuesInPlace (mapped map.now.regions) vctl.old }
    ensures event { administered (mapped map.now.regions) blocks entry.now vctl.old ≡ event_by result vctl.new }
    ensures in_map { AreMapped (mapped map.now.regions) result }
    ensures in_place { QueuesInPlace (mapped map.now.regions) vctl.new }
{
    if !vctl.is_ready() {
        return Administered::Idle;
    }
    match vctl.deletion() {
        Some(deletion) => finish_deletion(deletion, vctl, map),
        None => do_command(vctl, blocks, map, entry),
    }
}

// Finishes the deletion that waits, once no command of its queue is taken.
fn finish_deletion(deletion: Deletion, vctl: &mut Vctl, map: &GuestMap) -> Administered
    requires in_place { QueuesInPlace (mapped map.now.regions) vctl.old }
    requires ready { is_ready vctl.old ≡ true }
    requires waits { vctl.old.deletion ≡ Some deletion }
    ensures event { deletion_done deletion vctl.old ≡ event_by result vctl.new }
    ensures in_map { AreMapped (mapped map.now.regions) result }
    ensures in_place { QueuesInPlace (mapped map.now.regions) vctl.new }
{
    if vctl.taken(deletion.queue()) != 0 {
        return Administered::Idle;
    }
    if vctl.is_admin_full() {
        return Administered::Held;
    }
    vctl.finish_deletion();
    complete(
        Carried::quiet(Ok(Outcome::Done { dw0: 0 })),
        deletion.cid(),
        vctl,
        map,
    )
}

// Takes and carries out the command at the front of the admin queue.
fn do_command(vctl: &mut Vctl, blocks: u64, map: &GuestMap, entry: &Sqe) -> Administered
    requires in_place { QueuesInPlace (mapped map.now.regions) vctl.old }
    requires ready { is_ready vctl.old ≡ true }
    requires no_deletion { vctl.old.deletion ≡ None }
    ensures event { ready_done None (mapped map.now.regions) blocks entry.now vctl.old ≡ event_by result vctl.new }
    ensures in_map { AreMapped (mapped map.now.regions) result }
    ensures in_place { QueuesInPlace (mapped map.now.regions) vctl.new }
{
    if !vctl.waits(ADMIN_QUEUE) {
        return Administered::Idle;
    }
    if vctl.is_admin_full() {
        return Administered::Held;
    }
    vctl.took(ADMIN_QUEUE);
    let carried = commands::carry_out(vctl, entry, blocks, map);
    complete(carried, entry.cid(), vctl, map)
}

// Posts the completion of an admin command, if it has one now.
fn complete(carried: Carried, cid: u16, vctl: &mut Vctl, map: &GuestMap) -> Administered
    requires in_place { QueuesInPlace (mapped map.now.regions) vctl.old }
    requires ready { is_ready vctl.old ≡ true }
    requires room { is_queue_full (completion_queue vctl.old 0) ≡ false }
    requires page { IsPageMapped (mapped map.now.regions) carried.page }
    ensures event { (before : Controller) → answered_with (answer_of carried.outcome) cid vctl.old (stored_by carried.page) before ≡ event_by result vctl.new }
    ensures in_map { AreMapped (mapped map.now.regions) result }
    ensures in_place { QueuesInPlace (mapped map.now.regions) vctl.new }
{
    let page = carried.page;
    match carried.outcome {
        Ok(outcome) => match outcome {
            Outcome::Done { dw0 } => {
                post(dw0, StatusCode::Success.status(), cid, page, vctl, map)
            }
            Outcome::Pending => Administered::Done {
                page,
                completion: None,
            },
        },
        Err(code) => post(0, code.refused(), cid, page, vctl, map),
    }
}

// Posts the completion of an admin command, for which there is room.
fn post(
    dw0: u32,
    status: Status,
    cid: u16,
    page: Option<ShownPage>,
    vctl: &mut Vctl,
    map: &GuestMap,
) -> Administered
    requires in_place { QueuesInPlace (mapped map.now.regions) vctl.old }
    requires ready { is_ready vctl.old ≡ true }
    requires room { is_queue_full (completion_queue vctl.old 0) ≡ false }
    requires page { IsPageMapped (mapped map.now.regions) page }
    ensures event { (before : Controller) → completed_with (post vctl.old 0 dw0 cid status) (stored_by page) before ≡ event_by result vctl.new }
    ensures in_map { AreMapped (mapped map.now.regions) result }
    ensures in_place { QueuesInPlace (mapped map.now.regions) vctl.new }
{
    // With the length of the host comes what is known of every map.
    let _known = map.host_len();
    match vctl.post(ADMIN_QUEUE, dw0, cid, status) {
        Some(completion) => Administered::Done {
            page,
            completion: Some(completion),
        },
        None => Administered::Held,
    }
}

// Stores a completion, if there is one. No other byte of the guest's memory or of the host changes.
fn store_completion<C: MemoryCell>(completion: Option<Posting>, map: &GuestMap, host: &mut [C])
    requires host { map.now.host_len ≡ length (C.bytes host.old) }
    requires in_map { IsCompletionMapped (mapped map.now.regions) completion }
    ensures bytes { let before = byte_in (C.bytes host.old) in byte_in (C.bytes host.new)
        ≡ put_image map.now.regions (completion_behind completion (image map.now.regions before)) before }
    ensures len { length (C.bytes host.new) ≡ length (C.bytes host.old) }
{
    // With the length of the host comes what is known of every map.
    let _known = map.host_len();
    if let Some(posting) = completion {
        nv_bounce::store(&posting.entry, posting.addr, map, host);
    }
}
