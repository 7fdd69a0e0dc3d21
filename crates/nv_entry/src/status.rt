//! The status of a completion, and where it is in a completion queue entry.

ghost use Rattle.std.specs.Prelude.{◌≡◌, ◌+◌, ◌*◌, ◌^◌, ◌<◌, ◌↔◌, IsTrue, true};
ghost use Rattle.nv_entry.specs.Status.{bit, status};

use std::marker::Model;

/// The status of a completion: its type, its code, and whether the host should not retry the command
/// (Base Specification 2.0, "Status Field Definition"). The type is below 8.
#[derive(Clone, Copy, Debug, PartialEq, Eq)]
pub struct Status {
    sct: u8,
    sc: u8,
    dnr: bool,
}

impl Model for Status {
    ghost use Rattle.std.specs.Prelude.{◌<◌};
    ghost use Rattle.nv_entry.specs.Status.{StatusField};

    ghost Value = { StatusField };

    ghost view = { λ s. record { sct = s.sct; sc = s.sc; dnr = s.dnr } };

    ghost invariant = { λ s. s.sct < 8 };

    ghost inverse = { λ s. record { sct = s.sct; sc = s.sc; dnr = s.dnr } };
}

impl Status {
    /// The status of this type (0 to 7) and code.
    pub fn new(sct: u8, sc: u8, dnr: bool) -> Self
        requires { sct < 8 }
        ensures { result ≡ status sct sc dnr }
    {
        Status { sct, sc, dnr }
    }

    /// SCT, the status code type.
    pub fn sct(self) -> u8
        ensures value { result ≡ self.sct }
        ensures fits { result < 8 }
    {
        self.sct
    }

    /// SC, the status code.
    pub fn sc(self) -> u8
        ensures { result ≡ self.sc }
    {
        self.sc
    }

    /// DNR, do not retry.
    pub fn dnr(self) -> bool
        ensures { result ≡ self.dnr }
    {
        self.dnr
    }

    /// The same status with DNR set: what a refused command ends with.
    pub fn do_not_retry(self) -> Self
        ensures { result ≡ status self.sct self.sc true }
    {
        Status { dnr: true, ..self }
    }

    /// Whether the status is that of a command which succeeded, whatever DNR is.
    pub fn is_success(self) -> bool
        ensures { IsTrue result ↔ ((self.sct ≡ 0) × (self.sc ≡ 0)) }
    {
        self.sct == 0 && self.sc == 0
    }

    /// The upper half of dword 3 of a completion queue entry with this phase tag: P in bit 0, SC in bits 8:1, SCT in
    /// 11:9, CRD and M 0, DNR in bit 15.
    pub(crate) fn upper_half(self, phase: bool) -> u16
        ensures value { result ≡ bit phase + 2 * self.sc + 2 ^ 9 * self.sct + 2 ^ 15 * bit self.dnr }
        ensures type_fits { self.sct < 8 }
        ensures code_fits { self.sc < 256 }
    {
        u16::from(phase)
            | (u16::from(self.sc) << 1)
            | (u16::from(self.sct) << 9)
            | (u16::from(self.dnr) << 15)
    }
}
