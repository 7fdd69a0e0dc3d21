//! Whether notes are what they should be.

use crate::bits::bit;
use crate::notes::Notes;
use crate::simulated_worlds::{GUESTS, LANES};
use nv_model::limits::TAGS;

/// Whether notes say the same of all queues and tags.
pub(crate) fn note_the_same(notes: &Notes, anew: &Notes) -> bool {
    for guest in 0..GUESTS {
        if notes.queues(guest) != anew.queues(guest) {
            return false;
        }
    }
    for lane in 0..LANES {
        if notes.used(lane) != anew.used(lane) || !note_the_same_leaders(notes, anew, lane) {
            return false;
        }
    }
    true
}

// Whether notes say the same of a lane's tags by which commands go.
fn note_the_same_leaders(notes: &Notes, anew: &Notes, lane: u8) -> bool {
    let leaders = notes.leaders(lane);
    if leaders != anew.leaders(lane) {
        return false;
    }
    for tag in 0..TAGS {
        if leaders & bit(tag) != 0 && !note_the_same_command(notes, anew, lane, tag) {
            return false;
        }
    }
    true
}

// Whether notes say the same of the command that goes by a tag.
fn note_the_same_command(notes: &Notes, anew: &Notes, lane: u8, tag: u8) -> bool {
    notes.size(lane, tag) == anew.size(lane, tag) && notes.owner(lane, tag) == anew.owner(lane, tag)
}
