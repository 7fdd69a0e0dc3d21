//! What every controller promises that runs one command at a time.

ghost use Rattle.std.specs.Prelude.{◌≡◌, ◌<◌, ◌↔◌, ℕ, Bool, List, true, false, refl, length, replicate, slice_set, IfOk, IsTrue, OnErr};
ghost use Rattle.std.specs.List.{slice_index_or};
ghost use Rattle.nv_entry.specs.Completion.{completion};
ghost use Rattle.nv_entry.specs.Status.{StatusField};
ghost use Rattle.nv_entry.specs.Submission.{cid_of};
ghost use Rattle.nv_mem.specs.Bytes.{InMemory, after_store, bytes_at};
ghost use Rattle.nv_model.specs.Limits.{block as block_size};
ghost use Rattle.nv_flat.specs.Flat.{FitsLimits};
ghost use Rattle.nv_disk.specs.Flat.{Flat, flat};
ghost use Rattle.nv_flat.specs.One.{IsDone, every_command, is_plain};

use crate::controller::FlatController;
use nv_entry::{Cqe, Sqe};
use nv_mem::NoMemory;
use nv_model::limits::BLOCK_SIZE;
use std::alloc::Global;

/// A controller of one guest that runs one command at a time, as the guest sees it: memory from address 0 on, and blocks of 512 bytes with a mark
/// `kept` each. What they are made of is the implementation's own.
pub trait One: Drop {
    // the memory, the blocks and the marks as the guest sees them
    ghost seen: { Self → Flat };

    // the commands that the implementation carries out; it answers Internal Error to the others whose fields are in order
    ghost built: { List ℕ → Bool };

    /// Whether a controller may have this much memory and so many blocks. It is what [`One::new`] requires.
    fn fits(memory_len: u64, blocks: u64) -> bool
        ensures { IsTrue result ↔ FitsLimits memory_len blocks };

    /// A controller with `memory_len` bytes of memory and `blocks` blocks, all zero, and no mark set.
    fn new(alloc: Global, memory_len: u64, blocks: u64) -> Result<Self, NoMemory>
        requires { FitsLimits memory_len blocks }
        ensures { IfOk result (λ c. seen c ≡ flat (replicate memory_len 0) (replicate blocks (replicate block_size 0)) (replicate blocks false)) };

    /// Runs one command to its end, as the first command of a fresh queue 1: its completion has head 1 and phase 1.
    ///
    /// The completion, and the memory, the blocks and the marks after the command, are those of some run of the private controller that judges the
    /// command and moves it to its end. A command that is not built ends with Internal Error where its fields are in order, and changes nothing.
    /// Where no memory is left, nothing has changed.
    fn one(&mut self, alloc: Global, sqe: &Sqe) -> Result<Cqe, NoMemory>
        ensures ok { IfOk result (λ cqe. (st : StatusField) × (IsDone built (seen self.old) sqe.now st (seen self.new) × (cqe ≡ completion 0 1 1 (cid_of sqe.now) true st))) }
        ensures memory_size { length (seen self.new).memory ≡ length (seen self.old).memory }
        ensures disk_size { length (seen self.new).disk ≡ length (seen self.old).disk }
        ensures err { OnErr result (seen self.new ≡ seen self.old) };

    /// Whether `len` bytes from an address on lie in the memory. No bytes always do. It is what [`One::store`] and [`One::load`]
    /// require.
    fn holds(&self, addr: u64, len: u64) -> bool
        ensures { IsTrue result ↔ InMemory (length (seen self.now).memory) addr len };

    /// Stores bytes from an address on.
    fn store(&mut self, addr: u64, bytes: &[u8])
        requires { InMemory (length (seen self.old).memory) addr (length bytes.now) }
        ensures bytes { seen self.new ≡ flat (after_store (seen self.old).memory addr bytes.now) (seen self.old).disk (seen self.old).kept }
        ensures memory_size { length (seen self.new).memory ≡ length (seen self.old).memory };

    /// Loads the bytes from an address on, as many as `out` has.
    fn load(&self, addr: u64, out: &mut [u8])
        requires { InMemory (length (seen self.now).memory) addr (length out.old) }
        ensures { out.new ≡ bytes_at (seen self.now).memory addr (length out.old) };

    /// Fills a block with a byte. Its mark stays.
    fn paint(&mut self, block: u64, byte: u8)
        requires { block < length (seen self.old).disk }
        ensures block { seen self.new ≡ flat (seen self.old).memory (slice_set (seen self.old).disk block (replicate block_size byte)) (seen self.old).kept }
        ensures disk_size { length (seen self.new).disk ≡ length (seen self.old).disk };

    /// The bytes of a block.
    fn block(&self, block: u64) -> &[u8; BLOCK_SIZE]
        requires { block < length (seen self.now).disk }
        ensures { result.now ≡ slice_index_or (seen self.now).disk block result.now };

    /// Whether a block is kept when power is lost.
    fn kept(&self, block: u64) -> bool
        requires { block < length (seen self.now).disk }
        ensures { result ≡ slice_index_or (seen self.now).kept block false };

    /// How many bytes of memory there are.
    fn memory_len(&self) -> u64
        ensures { result ≡ length (seen self.now).memory };

    /// How many blocks there are.
    fn blocks(&self) -> u64
        ensures value { result ≡ length (seen self.now).disk }
        ensures marked { length (seen self.now).kept ≡ length (seen self.now).disk };

    // whatever else it leaves out, an implementation carries out a Read or Write of up to 8 blocks through one Data Block
    ghost carries: { (entry : List ℕ) → is_plain entry ≡ true → built entry ≡ true };
}

impl One for FlatController {
    ghost seen = { λ c. c };

    ghost built = { every_command };

    ghost carries = { λ entry plain. refl };

    fn fits(memory_len: u64, blocks: u64) -> bool {
        FlatController::fits(memory_len, blocks)
    }

    fn new(alloc: Global, memory_len: u64, blocks: u64) -> Result<Self, NoMemory> {
        FlatController::new(alloc, memory_len, blocks)
    }

    fn one(&mut self, alloc: Global, sqe: &Sqe) -> Result<Cqe, NoMemory> {
        FlatController::one(self, alloc, sqe)
    }

    fn holds(&self, addr: u64, len: u64) -> bool {
        FlatController::holds(self, addr, len)
    }

    fn store(&mut self, addr: u64, bytes: &[u8]) {
        FlatController::store(self, addr, bytes);
    }

    fn load(&self, addr: u64, out: &mut [u8]) {
        FlatController::load(self, addr, out);
    }

    fn paint(&mut self, block: u64, byte: u8) {
        FlatController::paint(self, block, byte);
    }

    fn block(&self, block: u64) -> &[u8; BLOCK_SIZE] {
        FlatController::block(self, block)
    }

    fn kept(&self, block: u64) -> bool {
        FlatController::kept(self, block)
    }

    fn memory_len(&self) -> u64 {
        FlatController::memory_len(self)
    }

    fn blocks(&self) -> u64 {
        FlatController::blocks(self)
    }
}
