//! What names the buffer of a command: region pages or a scatter gather list.

ghost use Rattle.std.specs.Prelude.{◌≡◌, ◌<◌};

/// What a command's data pointer holds (PSDT; Base Specification 2.0, "Submission Queue Entry").
#[derive(Clone, Copy, Debug, PartialEq, Eq)]
pub enum DataPointer {
    /// 00b: PRP entries
    Prp,
    /// 01b or 10b: an SGL descriptor; they differ for metadata alone, which the mediator doesn't know
    Sgl,
    /// 11b
    Reserved,
}

impl DataPointer {
    ghost use Rattle.nv_entry.specs.Opcode.{data_pointer};

    /// What this value of PSDT announces.
    pub fn of(psdt: u8) -> Self
        requires { psdt < 4 }
        ensures { result ≡ data_pointer psdt }
    {
        match psdt {
            0 => DataPointer::Prp,
            1 | 2 => DataPointer::Sgl,
            _ => DataPointer::Reserved,
        }
    }
}
