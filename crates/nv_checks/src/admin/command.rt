//! Admin commands that are made by hand.

use crate::hand;

/// The fields of an admin command that are not 0.
#[derive(Clone, Copy)]
pub(crate) struct Command {
    pub dword0: u32,
    pub nsid: u32,
    pub prp1: u64,
    pub prp2: u64,
    pub cdw10: u32,
    pub cdw11: u32,
}

/// A command of this opcode and identifier, with everything else 0.
macro_rules! command {
    ($opcode:expr, $cid:expr) => {
        crate::admin::command::Command {
            dword0: $opcode + 0x1_0000 * $cid,
            nsid: 0,
            prp1: 0,
            prp2: 0,
            cdw10: 0,
            cdw11: 0,
        }
    };
}

pub(crate) use command;

impl Command {
    /// Its 64 bytes.
    pub(crate) fn bytes(&self) -> [u8; 64] {
        hand::entry(
            self.dword0,
            self.nsid,
            [self.prp1, self.prp2],
            [self.cdw10, self.cdw11, 0],
        )
    }
}
