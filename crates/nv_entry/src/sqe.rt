//! Submission queue entries: the fields of a command, read from its bytes.

ghost use Rattle.std.specs.Prelude.{◌≡◌, ◌<◌, ◌↔◌, IsTrue};
ghost use Rattle.nv_entry.specs.Submission.{cdw_of, cid_of, deallocate_of, fua_of, fuse_of, mptr_of, nlb_of, nr_of, nsid_of, opcode_of, prp1_of, prp2_of, psdt_of, sgl_of, slba_of};

use crate::data_pointer::DataPointer;
use crate::descriptor::Descriptor;
use crate::dwords;
use crate::opcode::{AdminOpcode, IoOpcode};
use std::marker::Model;

/// A submission queue entry: one command, 64 bytes (Base Specification 2.0, "Submission Queue Entry").
#[tactic(auto, using(crate::specs::Dwords::dwords_back))]
#[derive(Clone, Copy, Debug, PartialEq, Eq)]
pub struct Sqe {
    dw: [u32; 16],
}

impl Model for Sqe {
    ghost use Rattle.std.specs.Prelude.{List, ℕ};
    ghost use Rattle.std.proofs.Common.{ap};
    ghost use Rattle.nv_entry.specs.Layout.{AreDwords, bytes_of_dwords, dwords_from};
    ghost use Rattle.nv_entry.specs.Dwords.{dwords_back};

    ghost Value = { List ℕ };

    ghost view = { λ e. bytes_of_dwords e.dw };

    ghost invariant = { λ e. AreDwords 16 e.dw };

    ghost inverse = { λ bytes. record { dw = dwords_from 0 16 bytes } };

    ghost inverse_ok = { λ a h. ap (λ (d : List ℕ). record { dw = d }) (dwords_back 16 a.dw h) };
}

#[tactic(auto, using(crate::specs::Dwords::dword_back, crate::specs::Dwords::qword_back))]
impl Sqe {
    ghost use Rattle.nv_entry.specs.Opcode.{admin_opcode, data_pointer, io_opcode};

    /// The entry in these bytes.
    pub fn of(bytes: &[u8; 64]) -> Self
        ensures { result ≡ bytes.now }
    {
        let mut dw = [0; 16];
        dwords::read(bytes, &mut dw);
        Sqe { dw }
    }

    /// Its bytes.
    pub fn bytes(&self) -> [u8; 64]
        ensures { result ≡ self.now }
    {
        let mut bytes = [0; 64];
        dwords::write(&self.dw, &mut bytes);
        bytes
    }

    /// OPC, the opcode.
    pub fn opcode(&self) -> u8
        ensures { result ≡ opcode_of self.now }
    {
        dwords::bits(self.dw[0], 7, 0) as u8
    }

    /// The I/O command that the opcode names, or `None` where it names none that the mediator knows.
    pub fn io_opcode(&self) -> Option<IoOpcode>
        ensures { result ≡ io_opcode (opcode_of self.now) }
    {
        IoOpcode::of(self.opcode())
    }

    /// The admin command that the opcode names, or `None` where it names none that the mediator knows.
    pub fn admin_opcode(&self) -> Option<AdminOpcode>
        ensures { result ≡ admin_opcode (opcode_of self.now) }
    {
        AdminOpcode::of(self.opcode())
    }

    /// FUSE, the fused operation: 0 to 3, 0 for a command of its own.
    pub fn fuse(&self) -> u8
        ensures { result ≡ fuse_of self.now }
    {
        dwords::bits(self.dw[0], 9, 8) as u8
    }

    /// PSDT, PRP or SGL for data transfer: 0 to 3.
    pub fn psdt(&self) -> u8
        ensures value { result ≡ psdt_of self.now }
        ensures fits { result < 4 }
    {
        dwords::bits(self.dw[0], 15, 14) as u8
    }

    /// What PSDT announces of the data pointer.
    pub fn data_pointer(&self) -> DataPointer
        ensures { result ≡ data_pointer (psdt_of self.now) }
    {
        DataPointer::of(self.psdt())
    }

    /// CID, the command identifier.
    pub fn cid(&self) -> u16
        ensures { result ≡ cid_of self.now }
    {
        dwords::bits(self.dw[0], 31, 16) as u16
    }

    /// NSID, the namespace identifier.
    pub fn nsid(&self) -> u32
        ensures { result ≡ nsid_of self.now }
    {
        self.dw[1]
    }

    /// MPTR, the metadata pointer.
    pub fn mptr(&self) -> u64
        ensures { result ≡ mptr_of self.now }
    {
        dwords::join(self.dw[4], self.dw[5])
    }

    /// PRP1, the first PRP entry.
    pub fn prp1(&self) -> u64
        ensures { result ≡ prp1_of self.now }
    {
        dwords::join(self.dw[6], self.dw[7])
    }

    /// PRP2, the second PRP entry or a pointer to a list of them.
    pub fn prp2(&self) -> u64
        ensures { result ≡ prp2_of self.now }
    {
        dwords::join(self.dw[8], self.dw[9])
    }

    /// SGL1, the command's own SGL descriptor.
    pub fn sgl(&self) -> Descriptor
        ensures { result ≡ sgl_of self.now }
    {
        Descriptor::from_dwords(self.dw[6], self.dw[7], self.dw[8], self.dw[9])
    }

    /// Command dword 10.
    pub fn cdw10(&self) -> u32
        ensures { result ≡ cdw_of 10 self.now }
    {
        self.dw[10]
    }

    /// Command dword 11.
    pub fn cdw11(&self) -> u32
        ensures { result ≡ cdw_of 11 self.now }
    {
        self.dw[11]
    }

    /// Command dword 12.
    pub fn cdw12(&self) -> u32
        ensures { result ≡ cdw_of 12 self.now }
    {
        self.dw[12]
    }

    /// Command dword 13.
    pub fn cdw13(&self) -> u32
        ensures { result ≡ cdw_of 13 self.now }
    {
        self.dw[13]
    }

    /// Command dword 14.
    pub fn cdw14(&self) -> u32
        ensures { result ≡ cdw_of 14 self.now }
    {
        self.dw[14]
    }

    /// Command dword 15.
    pub fn cdw15(&self) -> u32
        ensures { result ≡ cdw_of 15 self.now }
    {
        self.dw[15]
    }

    /// SLBA, the starting LBA of Read, Write, Compare and Write Zeroes.
    pub fn slba(&self) -> u64
        ensures { result ≡ slba_of self.now }
    {
        dwords::join(self.dw[10], self.dw[11])
    }

    /// NLB, the number of logical blocks of Read, Write, Compare and Write Zeroes, counted from 0.
    pub fn nlb(&self) -> u16
        ensures { result ≡ nlb_of self.now }
    {
        dwords::bits(self.dw[12], 15, 0) as u16
    }

    /// FUA, force unit access, of Read, Write, Compare and Write Zeroes.
    pub fn fua(&self) -> bool
        ensures { IsTrue result ↔ (fua_of self.now ≡ 1) }
    {
        dwords::bits(self.dw[12], 30, 30) == 1
    }

    /// NR, the number of ranges of Dataset Management, counted from 0.
    pub fn nr(&self) -> u8
        ensures { result ≡ nr_of self.now }
    {
        dwords::bits(self.dw[10], 7, 0) as u8
    }

    /// AD, deallocate, of Dataset Management.
    pub fn deallocate(&self) -> bool
        ensures { IsTrue result ↔ (deallocate_of self.now ≡ 1) }
    {
        dwords::bits(self.dw[11], 2, 2) == 1
    }
}
