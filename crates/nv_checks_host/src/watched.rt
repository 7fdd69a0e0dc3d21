//! A host's memory that marks the bytes which a call reads and writes, and notes its accesses in their order.

ghost use Rattle.std.specs.Prelude.{◌≡◌, IfOk};

use nv_mem::{Host, MemoryCell, NoMemory};
use std::alloc::Global;
use std::cell::Cell;
use std::marker::Model;

/// How many accesses of a call are noted at most.
pub const ROOM: usize = 1024;

/// An access of a call: whether it writes, and the bytes from one address on, up to another.
#[derive(Clone, Copy)]
pub struct Access {
    writes: bool,
    from: u64,
    to: u64,
}

impl Access {
    // Whether it is of that kind, and meets these bytes.
    fn is_at(self, writes: bool, from: u64, to: u64) -> bool {
        self.writes == writes && self.from < to && from < self.to
    }
}

/// A host's memory. It counts the bytes that a call reads though it has read or written them before, and notes the accesses of the last call.
#[derive(Drop)]
pub struct Watched {
    pub(crate) host: Host,
    // where the mediator's area begins; below it lie the guests' bytes
    mediator: u64,
    // the number of the call
    call: Cell<u32>,
    // of each byte: twice the number of the last call that read or wrote it, and one more where the call wrote it
    marks: Vec<Cell<u32>>,
    // what was counted
    guests: Cell<u32>,
    own: Cell<u32>,
    // the accesses of the call, in their order, and how many there were
    accesses: Vec<Cell<Access>>,
    count: Cell<usize>,
}

impl Model for Watched {
    ghost use Rattle.std.specs.Prelude.{ℕ, List};

    ghost Value = { List ℕ };

    ghost view = { λ w. w.host };
}

impl Watched {
    /// This memory, with the mediator's area from that address on. No byte is marked.
    ///
    /// # Errors
    ///
    /// There was no memory for the marks.
    pub fn new(alloc: Global, host: Host, mediator: u64) -> Result<Self, NoMemory>
        ensures { IfOk result (λ watched. watched ≡ host) }
    {
        Ok(Watched {
            marks: unmarked(alloc, host.len())?,
            host,
            mediator,
            call: Cell::new(1),
            guests: Cell::new(0),
            own: Cell::new(0),
            accesses: unused(alloc)?,
            count: Cell::new(0),
        })
    }

    /// A call begins.
    pub fn begin(&self) {
        self.call.set(self.call.get().wrapping_add(1) & 0x7fff_ffff);
        self.count.set(0);
    }

    /// How many bytes of guests were read though the call had read or written them.
    pub fn guests_again(&self) -> u32 {
        self.guests.get()
    }

    /// The same of bytes of the mediator's area.
    pub fn own_again(&self) -> u32 {
        self.own.get()
    }

    // The mark of a byte that the call has read.
    fn read(&self) -> u32 {
        self.call.get() << 1
    }

    // The mark of a byte that the call has written.
    fn written(&self) -> u32 {
        self.call.get() << 1 | 1
    }

    /// Marks bytes as read. How many of them the call had read or written.
    pub fn mark_read(&self, addr: u64, len: u64) -> u32 {
        let read = self.read();
        let written = self.written();
        let mut again: u32 = 0;
        for mark in marks_at(&self.marks, addr, len) {
            let was = mark.replace(read);
            if was == read || was == written {
                again = again.saturating_add(1);
            }
        }
        again
    }

    /// Whether all accesses of the call were noted.
    pub fn has_all(&self) -> bool {
        self.count.get() <= ROOM
    }

    /// The number of the call's first access that reads, or writes, any of so many bytes from an address on.
    pub fn first(&self, writes: bool, addr: u64, len: u64) -> Option<usize> {
        for number in 0..ROOM {
            if self.is_access(number, writes, addr, len) {
                return Some(number);
            }
        }
        None
    }

    /// The number of the last.
    pub fn last(&self, writes: bool, addr: u64, len: u64) -> Option<usize> {
        let mut last = None;
        for number in 0..ROOM {
            if self.is_access(number, writes, addr, len) {
                last = Some(number);
            }
        }
        last
    }

    // Whether the call's access of that number is one.
    fn is_access(&self, number: usize, writes: bool, addr: u64, len: u64) -> bool {
        let Some(access) = self.accesses.get(number) else {
            return false;
        };
        let access = access.get();
        number < self.count.get() && access.is_at(writes, addr, addr.wrapping_add(len))
    }

    // Notes an access.
    fn note(&self, writes: bool, addr: u64, len: u64) {
        let number = self.count.get();
        if let Some(access) = self.accesses.get(number) {
            access.set(Access {
                writes,
                from: addr,
                to: addr.wrapping_add(len),
            });
        }
        self.count.set(number.saturating_add(1));
    }

    // A call reads bytes: they are marked, and those that it had read or written are counted.
    fn note_read(&self, addr: u64, len: u64) {
        self.note(false, addr, len);
        let again = self.mark_read(addr, len);
        if again > 0 {
            self.count(addr, again);
        }
    }

    // Marks bytes as written.
    fn note_write(&self, addr: u64, len: u64) {
        self.note(true, addr, len);
        let written = self.written();
        for mark in marks_at(&self.marks, addr, len) {
            mark.set(written);
        }
    }

    // Counts so many bytes, of those from that address on.
    fn count(&self, addr: u64, again: u32) {
        if addr >= self.mediator {
            self.own.set(self.own.get().saturating_add(again));
            return;
        }
        self.guests.set(self.guests.get().saturating_add(again));
    }
}

// Marks for so many bytes, none of which any call has touched.
fn unmarked(alloc: Global, len: u64) -> Result<Vec<Cell<u32>>, NoMemory> {
    let mut marks = Vec::with_capacity(alloc, len as usize)?;
    for _byte in 0..len {
        marks.push(Cell::new(0))?;
    }
    Ok(marks)
}

// Room for the accesses of a call.
fn unused(alloc: Global) -> Result<Vec<Cell<Access>>, NoMemory> {
    let mut accesses = Vec::with_capacity(alloc, ROOM)?;
    for _access in 0..ROOM {
        accesses.push(Cell::new(Access {
            writes: false,
            from: 0,
            to: 0,
        }))?;
    }
    Ok(accesses)
}

// The marks of so many bytes from an address on; none where not all of them have marks.
fn marks_at(marks: &[Cell<u32>], addr: u64, len: u64) -> &[Cell<u32>] {
    let from = addr as usize;
    let to = from.saturating_add(len as usize);
    marks.get(from..to).unwrap_or(&[])
}

impl MemoryCell for Watched {
    ghost use Rattle.nv_mem.specs.Lent.{bytes_of_hosts};

    ghost bytes = { bytes_of_hosts };

    fn len(memory: &[Watched]) -> u64 {
        let Some(watched) = memory.first() else {
            return 0;
        };
        watched.host.len()
    }

    fn load(memory: &[Watched], addr: u64, out: &mut [u8]) {
        let Some(watched) = memory.first() else {
            return;
        };
        watched.note_read(addr, out.len() as u64);
        watched.host.load(addr, out);
    }

    fn store(memory: &mut [Watched], addr: u64, source: &[u8]) {
        let Some(watched) = memory.first_mut() else {
            return;
        };
        watched.note_write(addr, source.len() as u64);
        watched.host.store(addr, source);
    }

    fn copy(memory: &mut [Watched], from: u64, to: u64, len: u64) {
        let Some(watched) = memory.first_mut() else {
            return;
        };
        watched.note_read(from, len);
        watched.note_write(to, len);
        watched.host.copy(from, to, len);
    }
}

/// Loads 16 bytes from an address on, where the memory has them.
pub fn loads(memory: &[Watched], addr: u64) {
    let mut bytes = [0; 16];
    if let Some(watched) = memory.first() {
        if watched.host.holds(addr, 16) {
            Watched::load(memory, addr, &mut bytes);
        }
    }
}

// Stores 16 bytes from an address on, where the memory has them.
#[cfg(test)]
fn stores(memory: &mut [Watched], addr: u64) {
    if let Some(watched) = memory.first() {
        if watched.host.holds(addr, 16) {
            Watched::store(memory, addr, &[1; 16]);
        }
    }
}

#[test]
fn bytes_that_are_read_again_are_counted(rt: HostRuntime) {
    let host = Host::new(rt.alloc(), 8192).expect(&rt, "memory");
    let watched = Watched::new(rt.alloc(), host, 4096).expect(&rt, "memory");
    let mut memory = [watched];
    loads(&memory, 64);
    loads(&memory, 80);
    assert!(rt; memory[0].guests_again() == 0);
    loads(&memory, 88);
    assert!(rt; memory[0].guests_again() == 8);
    memory[0].begin();
    loads(&memory, 64);
    stores(&mut memory, 128);
    assert!(rt; memory[0].guests_again() == 8);
    loads(&memory, 143);
    assert!(rt; memory[0].guests_again() == 9 && memory[0].own_again() == 0);
    loads(&memory, 5000);
    loads(&memory, 5000);
    assert!(rt; memory[0].guests_again() == 9 && memory[0].own_again() == 16);
}

#[test]
fn accesses_are_noted_in_their_order(rt: HostRuntime) {
    let host = Host::new(rt.alloc(), 8192).expect(&rt, "memory");
    let watched = Watched::new(rt.alloc(), host, 4096).expect(&rt, "memory");
    let mut memory = [watched];
    loads(&memory, 64);
    stores(&mut memory, 128);
    loads(&memory, 140);
    assert_eq!(rt; memory[0].first(false, 79, 1), Some(0));
    assert_eq!(rt; memory[0].first(false, 80, 48), None);
    assert_eq!(rt; memory[0].first(true, 143, 9), Some(1));
    assert_eq!(rt; memory[0].first(false, 0, 999), Some(0));
    assert_eq!(rt; memory[0].last(false, 0, 999), Some(2));
    assert_eq!(rt; memory[0].last(true, 0, 128), None);
    assert!(rt; memory[0].has_all());
    memory[0].begin();
    assert_eq!(rt; memory[0].first(false, 0, 999), None);
}
