use nv_entry::Status;
use nv_model::Act;

/// One atomic step of the world. Guests, lanes, tags, slots and queues go by number; a slot of the physical controller is a physical
/// command identifier.
#[derive(Debug, Drop)]
pub enum Event {
    /// The guest acts.
    Guest(u8, Act),
    /// One admin command of the guest, or its waiting deletion.
    Admin(u8),
    /// The front entry of the guest's I/O queue is taken, with a tag of the lane for each extent that it meets: guest, queue, lane.
    Take(u8, u16, u8),
    /// Bytes of the guest's memory join the tag's transcript: lane, tag, guest address, number of bytes.
    List(u8, u8, u64, u64),
    /// The tag's plan is carried out as far as the mediator does it: lane, tag.
    Submit(u8, u8),
    /// The tag's command ends with Internal Error: lane, tag.
    GiveUp(u8, u8),
    /// The physical controller takes the front entry of the lane.
    DevTake(u8),
    /// The physical controller moves one unit: lane, slot, the unit's number.
    DevMove(u8, u8, u64),
    /// The physical controller completes a command all of whose units have moved: lane, slot.
    DevPost(u8, u8),
    /// The physical controller fails a command: lane, slot, status.
    DevFail(u8, u8, Status),
    /// A block of the disk becomes kept.
    Keep(u64),
    /// The lane's next physical completion ends its tag.
    Reap(u8),
    /// The tag's command is completed for its guest: lane, tag.
    Post(u8, u8),
}
