//! Interrupts: which vectors are pending, and what a guest finds by the phase tags of its completion queues.

use crate::admin::bench::{Bench, brought_up};
use crate::admin::command::{Command, command};
use nv_admin::Admin;
use nv_model::limits::QUEUE_COUNT;
use std::alloc::Global;
use std::test::Fail;

/// A completion queue as its guest knows it: where its next completion comes, with which phase tag, and which vector announces it.
#[derive(Clone, Copy)]
struct Watched {
    base: u32,
    size: u16,
    head: u16,
    phase: bool,
    vector: Option<u16>,
}

/// The admin completion queue of the bench.
const ADMIN: Watched = Watched {
    base: 0x1_1000,
    size: 32,
    head: 0,
    phase: true,
    vector: Some(0),
};

/// A guest that enters commands, reads completions by their phase tags, and acknowledges what it has read.
#[derive(Drop)]
struct Guest {
    bench: Bench,
    queues: [Option<Watched>; QUEUE_COUNT],
    tails: [u16; QUEUE_COUNT],
    entered: u32,
}

impl Guest {
    /// A guest whose controller is enabled, without I/O queues.
    fn new(alloc: Global) -> Result<Self, Fail> {
        let mut guest = Guest {
            bench: Bench::new(alloc)?,
            queues: [None; QUEUE_COUNT],
            tails: [0; QUEUE_COUNT],
            entered: 0,
        };
        let _up = guest.reset();
        Ok(guest)
    }

    /// Resets the controller and enables it again.
    fn reset(&mut self) -> bool {
        self.queues = [None; QUEUE_COUNT];
        if !self.bench.write(0x14, 0) || !self.agrees() {
            return false;
        }
        self.entered = 0;
        self.queues[0] = Some(ADMIN);
        self.bench.store(u64::from(ADMIN.base), &[0; 512]) && self.bench.enable(0x001f_001f)
    }

    /// Whether the vectors that are pending are those of the queues in which the phase tag says that a completion is new.
    fn agrees(&self) -> bool {
        let pending = self.bench.pending();
        for (queue, watched) in self.queues.iter().enumerate() {
            if pending.get(queue) != Some(&announced(&self.bench, watched)) {
                return false;
            }
        }
        pending.len() == self.queues.len()
    }

    /// Reads the next completion of a queue and acknowledges it; false where none is new.
    fn read(&mut self, queue: u16) -> bool {
        let Some(Some(watched)) = self.queues.get(usize::from(queue)) else {
            return false;
        };
        if !is_new(&self.bench, watched) {
            return false;
        }
        let after = gone_on(*watched);
        if let Some(place) = self.queues.get_mut(usize::from(queue)) {
            *place = Some(after);
        }
        self.bench
            .ring(0x1004 + 8 * u32::from(queue), u32::from(after.head))
    }

    /// Reads and acknowledges all that is new.
    fn read_all(&mut self, queue: u16) {
        for _ in 0..32 {
            let _read = self.read(queue);
        }
    }

    /// Has an admin command carried out; of a full completion queue everything is read first.
    fn order(&mut self, order: &Command) -> bool {
        let slot = self.entered % 32;
        self.entered = (slot + 1) % 32;
        if !self
            .bench
            .store(0x1_0000 + 64 * u64::from(slot), &order.bytes())
            || !self.bench.ring(0x1000, self.entered)
        {
            return false;
        }
        if self.bench.admin() == Admin::Done {
            return true;
        }
        self.read_all(0);
        self.bench.admin() == Admin::Done
    }

    /// Creates queue pair 1, 2 or 3 of four slots each, the completion queue with this IEN and IV.
    fn create(&mut self, queue: u16, enables: bool, vector: u16) -> bool {
        let number = u32::from(queue % 4);
        let watched = Watched {
            base: 0x1_2000 + 0x1000 * number,
            size: 4,
            head: 0,
            phase: true,
            vector: if enables { Some(vector) } else { None },
        };
        let completion = Command {
            prp1: u64::from(watched.base),
            cdw10: 0x0003_0000 + number,
            cdw11: 0x1_0000 * u32::from(vector) + if enables { 3 } else { 1 },
            ..command!(0x05, 3)
        };
        let submission = Command {
            prp1: 0x1_6000 + 0x1000 * u64::from(number),
            cdw10: 0x0003_0000 + number,
            cdw11: 0x1_0000 * number + 1,
            ..command!(0x01, 4)
        };
        if !self.bench.store(u64::from(watched.base), &[0; 64]) || !self.order(&completion) {
            return false;
        }
        self.queues[usize::from(queue % 4)] = Some(watched);
        self.tails[usize::from(queue % 4)] = 0;
        self.agrees() && self.order(&submission)
    }

    /// Deletes a queue pair, whose commands are all completed.
    fn delete(&mut self, queue: u16) -> bool {
        let submission = Command {
            cdw10: u32::from(queue),
            ..command!(0x00, 5)
        };
        let completion = Command {
            cdw10: u32::from(queue),
            ..command!(0x04, 6)
        };
        if !self.order(&submission) || !self.agrees() || !self.order(&completion) {
            return false;
        }
        if let Some(watched) = self.queues.get_mut(usize::from(queue)) {
            *watched = None;
        }
        true
    }

    /// Has a command of a queue taken and completed; of a full completion queue everything is read first.
    fn serve(&mut self, queue: u16) -> bool {
        let Some(tail) = self.tails.get_mut(usize::from(queue)) else {
            return false;
        };
        *tail = next(*tail, 4);
        if !self
            .bench
            .ring(0x1000 + 8 * u32::from(queue), u32::from(*tail))
            || !self.bench.take(queue)
        {
            return false;
        }
        if self.bench.post(queue, 7) {
            return true;
        }
        self.read_all(queue);
        self.agrees() && self.bench.post(queue, 7)
    }

    /// One turn, by three numbers: most complete or read something, some create or delete queues, and few reset.
    fn turn(&mut self, act: u64, queue: u16, vector: u16) -> bool {
        let there = match self.queues.get(usize::from(queue)) {
            Some(watched) => watched.is_some(),
            None => false,
        };
        match act {
            0 => self.reset(),
            1..=4 => {
                self.read_all(0);
                true
            }
            5 | 6 if there => self.delete(queue),
            7..=13 if there => self.serve(queue),
            _ if there => {
                let _read = self.read(queue);
                true
            }
            _ => self.create(queue, act % 3 != 0, vector),
        }
    }
}

/// The queue after its next completion was read.
fn gone_on(watched: Watched) -> Watched {
    let head = next(watched.head, watched.size);
    let phase = if head == 0 {
        !watched.phase
    } else {
        watched.phase
    };
    Watched {
        head,
        phase,
        ..watched
    }
}

/// The slot after a slot, going round.
fn next(slot: u16, size: u16) -> u16 {
    if slot < size && size - slot > 1 {
        slot + 1
    } else {
        0
    }
}

/// Whether the next completion of a queue is there, by its phase tag: bit 16 of its last dword.
fn is_new(bench: &Bench, watched: &Watched) -> bool {
    match bench.dword(u64::from(watched.base) + 16 * u64::from(watched.head) + 12) {
        Some(dword) => (dword >> 16 & 1 == 1) == watched.phase,
        None => false,
    }
}

/// The vector that announces what is new in a queue.
fn announced(bench: &Bench, watched: &Option<Watched>) -> Option<u16> {
    match watched {
        Some(queue) if is_new(bench, queue) => queue.vector,
        _ => None,
    }
}

/// The next pseudorandom number, by a linear congruential generator.
fn draw(state: &mut u64) -> u64 {
    *state = state
        .wrapping_mul(0x5851_f42d_4c95_7f2d)
        .wrapping_add(0x1405_7b7e_f767_814f);
    *state >> 33
}

#[test]
fn vectors_are_those_of_iv_where_ien_is_1(rt: HostRuntime) -> Result<(), Fail> {
    let mut guest = Guest::new(rt.alloc())?;
    assert!(rt;
        guest.create(1, true, 0x1234) && guest.create(2, false, 0x1234) && guest.create(3, true, 0)
    );
    assert!(rt; guest.serve(1) && guest.serve(2) && guest.serve(3));
    let pending = guest.bench.pending();
    assert!(rt;
        pending
            == [
                Some(0),
                Some(0x1234),
                None,
                Some(0),
                None,
                None,
                None,
                None,
                None
            ]
    );
    assert!(rt; guest.read(1) && guest.read(2) && guest.read(3) && !guest.read(3));
    let pending = guest.bench.pending();
    assert!(rt; pending == [Some(0), None, None, None, None, None, None, None, None]);
    Ok(())
}

#[test]
fn a_queue_pair_of_bring_up_has_no_vector(rt: HostRuntime) -> Result<(), Fail> {
    let mut bench = brought_up(rt.alloc())?;
    assert!(rt; bench.ring(0x1008, 1) && bench.take(1) && bench.post(1, 7));
    let pending = bench.pending();
    assert!(rt; pending == [Some(0), None, None, None, None, None, None, None, None]);
    assert!(rt; bench.ring(0x1004, 2) && bench.pending() == [None; QUEUE_COUNT]);
    Ok(())
}

#[test]
fn pending_vectors_are_what_the_phase_tags_show(rt: HostRuntime) -> Result<(), Fail> {
    let mut guest = Guest::new(rt.alloc())?;
    let mut state = 2026;
    let mut times = [0_u32; 4];
    for _ in 0..4_000 {
        let (act, queue, vector) = (
            draw(&mut state) % 24,
            draw(&mut state) % 3,
            draw(&mut state) % 0x1_0000,
        );
        assert!(rt; guest.turn(act, queue as u16 + 1, vector as u16) && guest.agrees());
        let pending = guest.bench.pending();
        for (queue, count) in times.iter_mut().enumerate() {
            let is_pending = matches!(pending.get(queue), Some(Some(_)));
            *count = count.wrapping_add(u32::from(is_pending));
        }
    }
    // each queue's vector was pending often, and often not
    for count in times {
        assert!(rt; count > 400 && count < 3_600);
    }
    Ok(())
}
