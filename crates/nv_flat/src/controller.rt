//! The state of the flat controller: how it is made, shown and changed outside of commands.

ghost use Rattle.std.specs.Prelude.{◌≡◌, ◌+◌, ◌%◌, ◌<◌, ◌≤◌, ◌↔◌, [], ◌∷◌, length, replicate, false, IfOk, IsTrue, slice_set};
ghost use Rattle.std.specs.List.{slice_index_or};
ghost use Rattle.nv_mem.specs.Bytes.{InMemory, after_store, bytes_at};
ghost use Rattle.nv_model.specs.Limits.{block as block_size, page};
ghost use Rattle.nv_ns.specs.Extents.{blocks_in};
ghost use Rattle.nv_flat.specs.Flat.{FitsLimits, identity_map};
ghost use Rattle.nv_disk.specs.Flat.{flat};

use nv_disk::{Blocks, Marks};
use nv_mem::{GuestMap, Host, NoMemory, PAGE_SIZE, Region};
use nv_model::limits::{BLOCK_SIZE, LARGEST_MEMORY, LARGEST_NAMESPACE};
use nv_ns::{Extent, VirtualNs};
use std::alloc::Global;
use std::marker::Model;

/// A private controller of one guest: flat memory from address 0 on, and blocks of 512 bytes with a mark `kept` each.
#[derive(Debug, Drop)]
pub struct FlatController {
    pub(crate) memory: Host,
    pub(crate) map: GuestMap,
    pub(crate) disk: Blocks,
    pub(crate) kept: Marks,
}

impl Model for FlatController {
    ghost use Rattle.nv_flat.specs.Flat.{IsWhole};
    ghost use Rattle.nv_disk.specs.Flat.{Flat, flat};

    ghost Value = { Flat };

    ghost view = { λ c. flat c.memory c.disk c.kept };

    ghost invariant = { λ c. IsWhole c.memory c.map c.disk c.kept };
}

impl FlatController {
    /// Whether a controller may have this much memory and so many blocks: whole pages of 4,096 bytes up to 16 MiB, at least one,
    /// and 1 to 65,536 blocks. It is what [`FlatController::new`] requires.
    pub fn fits(memory_len: u64, blocks: u64) -> bool
        ensures { IsTrue result ↔ FitsLimits memory_len blocks }
    {
        memory_len % PAGE_SIZE == 0
            && 0 < memory_len
            && memory_len <= LARGEST_MEMORY
            && 0 < blocks
            && blocks <= LARGEST_NAMESPACE
    }

    /// A controller with `memory_len` bytes of memory and `blocks` blocks, all zero, and no mark set.
    ///
    /// # Errors
    ///
    /// [`NoMemory`] where memory for the bytes, their map, the blocks or the marks is refused.
    pub fn new(alloc: Global, memory_len: u64, blocks: u64) -> Result<Self, NoMemory>
        requires { FitsLimits memory_len blocks }
        ensures { IfOk result (λ c. c ≡ flat (replicate memory_len 0) (replicate blocks (replicate block_size 0)) (replicate blocks false)) }
    {
        let memory = Host::new(alloc, memory_len)?;
        let map = identity(alloc, memory_len)?;
        let disk = Blocks::new(alloc, blocks as usize)?;
        let kept = Marks::new(alloc, blocks as usize)?;
        Ok(FlatController {
            memory,
            map,
            disk,
            kept,
        })
    }

    /// Whether `len` bytes from an address on lie in the memory. No bytes always do. It is what [`FlatController::store`] and
    /// [`FlatController::load`] require.
    pub fn holds(&self, addr: u64, len: u64) -> bool
        ensures { IsTrue result ↔ InMemory (length self.now.memory) addr len }
    {
        self.memory.holds(addr, len)
    }

    /// Stores bytes from an address on.
    pub fn store(&mut self, addr: u64, bytes: &[u8])
        requires { InMemory (length self.old.memory) addr (length bytes.now) }
        ensures bytes { self.new ≡ flat (after_store self.old.memory addr bytes.now) self.old.disk self.old.kept }
        ensures memory_size { length self.new.memory ≡ length self.old.memory }
    {
        self.memory.store(addr, bytes);
    }

    /// Loads the bytes from an address on, as many as `out` has.
    pub fn load(&self, addr: u64, out: &mut [u8])
        requires { InMemory (length self.now.memory) addr (length out.old) }
        ensures { out.new ≡ bytes_at self.now.memory addr (length out.old) }
    {
        self.memory.load(addr, out);
    }

    /// Fills a block with a byte. Its mark stays.
    pub fn paint(&mut self, block: u64, byte: u8)
        requires { block < length self.old.disk }
        ensures block { self.new ≡ flat self.old.memory (slice_set self.old.disk block (replicate block_size byte)) self.old.kept }
        ensures disk_size { length self.new.disk ≡ length self.old.disk }
    {
        self.disk.set(block as usize, &[byte; BLOCK_SIZE]);
    }

    /// The bytes of a block.
    pub fn block(&self, block: u64) -> &[u8; BLOCK_SIZE]
        requires { block < length self.now.disk }
        ensures { result.now ≡ slice_index_or self.now.disk block result.now }
    {
        self.disk.block(block as usize)
    }

    /// Whether a block is kept when power is lost.
    pub fn kept(&self, block: u64) -> bool
        requires { block < length self.now.disk }
        ensures { result ≡ slice_index_or self.now.kept block false }
    {
        self.kept.get(block as usize)
    }

    /// How many bytes of memory there are.
    pub fn memory_len(&self) -> u64
        ensures { result ≡ length self.now.memory }
    {
        self.memory.len()
    }

    /// How many blocks there are.
    pub fn blocks(&self) -> u64
        ensures value { result ≡ length self.now.disk }
        ensures marked { length self.now.kept ≡ length self.now.disk }
    {
        let _known = &self.kept;
        self.disk.len() as u64
    }

    /// The namespace of the guest: all blocks, as one extent.
    pub(crate) fn namespace(&self) -> VirtualNs
        ensures value { result ≡ record { base = 0; blocks = length self.now.disk } ∷ [] }
        ensures blocks { blocks_in result ≡ length self.now.disk }
    {
        VirtualNs::of(Extent::new(0, self.blocks()))
    }
}

// The map of a guest whose addresses are the memory's own.
fn identity(alloc: Global, len: u64) -> Result<GuestMap, NoMemory>
    requires pages { len % page ≡ 0 }
    requires some { 0 < len }
    ensures { IfOk result (λ map. map ≡ identity_map len) }
{
    let region = Region {
        guest: 0,
        host: 0,
        len,
    };
    match GuestMap::new(len, vec![in alloc; region]?) {
        Ok(map) => Ok(map),
        Err(_) => unreachable!(),
    }
}
