//! Completion queue entries: their fields, read from bytes and made.

ghost use Rattle.std.specs.Prelude.{◌≡◌, ◌<◌, ◌↔◌, ◌==◌, IsTrue};

use crate::dwords;
use crate::status::Status;
use std::marker::Model;

/// A completion queue entry: how one command ended, 16 bytes (Base Specification 2.0, "Common Completion Queue Entry").
#[tactic(auto, using(crate::specs::Dwords::dwords_back))]
#[derive(Clone, Copy, Debug, PartialEq, Eq)]
pub struct Cqe {
    dw: [u32; 4],
}

impl Model for Cqe {
    ghost use Rattle.std.specs.Prelude.{List, ℕ};
    ghost use Rattle.std.proofs.Common.{ap};
    ghost use Rattle.nv_entry.specs.Layout.{AreDwords, bytes_of_dwords, dwords_from};
    ghost use Rattle.nv_entry.specs.Dwords.{dwords_back};

    ghost Value = { List ℕ };

    ghost view = { λ e. bytes_of_dwords e.dw };

    ghost invariant = { λ e. AreDwords 4 e.dw };

    ghost inverse = { λ bytes. record { dw = dwords_from 0 4 bytes } };

    ghost inverse_ok = { λ a h. ap (λ (d : List ℕ). record { dw = d }) (dwords_back 4 a.dw h) };
}

#[tactic(auto, using(crate::specs::Dwords::dword_back))]
impl Cqe {
    ghost use Rattle.nv_entry.specs.Completion.{IsCompletion, cid_of, completion, crd_of, dnr_of, dw0_of, dw1_of, more_of, phase_of, sc_of, sct_of, sqhd_of, sqid_of, status_of};

    /// The entry with these fields: the command specific dword, the submission queue's head and identifier, the command
    /// identifier, the phase tag and the status. The reserved dword, CRD and M are 0.
    pub fn new(dw0: u32, sqhd: u16, sqid: u16, cid: u16, phase: bool, status: Status) -> Self
        ensures bytes { result ≡ completion dw0 sqhd sqid cid phase status }
        ensures fields { IsCompletion dw0 sqhd sqid cid phase status result }
    {
        let queue = dwords::pair(sqhd, sqid);
        let command = dwords::pair(cid, status.upper_half(phase));
        Cqe {
            dw: [dw0, 0, queue, command],
        }
    }

    /// The entry in these bytes.
    pub fn of(bytes: &[u8; 16]) -> Self
        ensures { result ≡ bytes.now }
    {
        let mut dw = [0; 4];
        dwords::read(bytes, &mut dw);
        Cqe { dw }
    }

    /// Its bytes.
    pub fn bytes(&self) -> [u8; 16]
        ensures { result ≡ self.now }
    {
        let mut bytes = [0; 16];
        dwords::write(&self.dw, &mut bytes);
        bytes
    }

    /// DW0, command specific.
    pub fn dw0(&self) -> u32
        ensures { result ≡ dw0_of self.now }
    {
        self.dw[0]
    }

    /// DW1, reserved.
    pub fn dw1(&self) -> u32
        ensures { result ≡ dw1_of self.now }
    {
        self.dw[1]
    }

    /// SQHD, the submission queue's head as it was when the entry was posted.
    pub fn sqhd(&self) -> u16
        ensures { result ≡ sqhd_of self.now }
    {
        dwords::bits(self.dw[2], 15, 0) as u16
    }

    /// SQID, the submission queue's identifier.
    pub fn sqid(&self) -> u16
        ensures { result ≡ sqid_of self.now }
    {
        dwords::bits(self.dw[2], 31, 16) as u16
    }

    /// CID, the command identifier.
    pub fn cid(&self) -> u16
        ensures { result ≡ cid_of self.now }
    {
        dwords::bits(self.dw[3], 15, 0) as u16
    }

    /// P, the phase tag.
    pub fn phase(&self) -> bool
        ensures { IsTrue result ↔ (phase_of self.now ≡ 1) }
    {
        dwords::bits(self.dw[3], 16, 16) == 1
    }

    /// SC, the status code.
    pub fn sc(&self) -> u8
        ensures { result ≡ sc_of self.now }
    {
        dwords::bits(self.dw[3], 24, 17) as u8
    }

    /// SCT, the status code type: 0 to 7.
    pub fn sct(&self) -> u8
        ensures value { result ≡ sct_of self.now }
        ensures fits { result < 8 }
    {
        dwords::bits(self.dw[3], 27, 25) as u8
    }

    /// CRD, the command retry delay: 0 to 3.
    pub fn crd(&self) -> u8
        ensures { result ≡ crd_of self.now }
    {
        dwords::bits(self.dw[3], 29, 28) as u8
    }

    /// M, more: whether there is more information in a log page.
    pub fn more(&self) -> bool
        ensures { IsTrue result ↔ (more_of self.now ≡ 1) }
    {
        dwords::bits(self.dw[3], 30, 30) == 1
    }

    /// DNR, do not retry.
    pub fn dnr(&self) -> bool
        ensures { result ≡ (dnr_of self.now == 1) }
    {
        dwords::bits(self.dw[3], 31, 31) == 1
    }

    /// The status: SCT, SC and DNR.
    pub fn status(&self) -> Status
        ensures { result ≡ status_of self.now }
    {
        Status::new(self.sct(), self.sc(), self.dnr())
    }
}
