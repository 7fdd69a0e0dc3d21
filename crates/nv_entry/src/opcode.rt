//! The opcodes of I/O commands, both ways: as numbers and as the commands that the mediator knows.

ghost use Rattle.std.specs.Prelude.{◌≡◌};
ghost use Rattle.nv_entry.specs.Opcode.{admin_code, admin_opcode, io_code, io_opcode};

/// An I/O command that the mediator knows (NVM Command Set Specification 1.0, opcodes for NVM commands).
#[derive(Clone, Copy, Debug, PartialEq, Eq)]
pub enum IoOpcode {
    /// 00h
    Flush,
    /// 01h
    Write,
    /// 02h
    Read,
    /// 05h
    Compare,
    /// 08h
    WriteZeroes,
    /// 09h
    DatasetManagement,
}

impl IoOpcode {
    /// The command of this opcode, or `None` for every other opcode.
    pub fn of(code: u8) -> Option<Self>
        ensures { result ≡ io_opcode code }
    {
        match code {
            0x00 => Some(IoOpcode::Flush),
            0x01 => Some(IoOpcode::Write),
            0x02 => Some(IoOpcode::Read),
            0x05 => Some(IoOpcode::Compare),
            0x08 => Some(IoOpcode::WriteZeroes),
            0x09 => Some(IoOpcode::DatasetManagement),
            _ => None,
        }
    }

    /// Its opcode.
    pub fn code(self) -> u8
        ensures value { result ≡ io_code self }
        ensures read_back { io_opcode result ≡ Some self }
    {
        match self {
            IoOpcode::Flush => 0x00,
            IoOpcode::Write => 0x01,
            IoOpcode::Read => 0x02,
            IoOpcode::Compare => 0x05,
            IoOpcode::WriteZeroes => 0x08,
            IoOpcode::DatasetManagement => 0x09,
        }
    }
}

/// An admin command that the mediator knows (Base Specification 2.0, opcodes for admin commands).
#[derive(Clone, Copy, Debug, PartialEq, Eq)]
pub enum AdminOpcode {
    /// 00h
    DeleteIoSubmissionQueue,
    /// 01h
    CreateIoSubmissionQueue,
    /// 02h
    GetLogPage,
    /// 04h
    DeleteIoCompletionQueue,
    /// 05h
    CreateIoCompletionQueue,
    /// 06h
    Identify,
    /// 08h
    Abort,
    /// 09h
    SetFeatures,
    /// 0Ah
    GetFeatures,
    /// 0Ch
    AsynchronousEventRequest,
}

impl AdminOpcode {
    /// The command of this opcode, or `None` for every other opcode.
    pub fn of(code: u8) -> Option<Self>
        ensures { result ≡ admin_opcode code }
    {
        match code {
            0x00 => Some(AdminOpcode::DeleteIoSubmissionQueue),
            0x01 => Some(AdminOpcode::CreateIoSubmissionQueue),
            0x02 => Some(AdminOpcode::GetLogPage),
            0x04 => Some(AdminOpcode::DeleteIoCompletionQueue),
            0x05 => Some(AdminOpcode::CreateIoCompletionQueue),
            0x06 => Some(AdminOpcode::Identify),
            0x08 => Some(AdminOpcode::Abort),
            0x09 => Some(AdminOpcode::SetFeatures),
            0x0a => Some(AdminOpcode::GetFeatures),
            0x0c => Some(AdminOpcode::AsynchronousEventRequest),
            _ => None,
        }
    }

    /// Its opcode.
    pub fn code(self) -> u8
        ensures value { result ≡ admin_code self }
        ensures read_back { admin_opcode result ≡ Some self }
    {
        match self {
            AdminOpcode::DeleteIoSubmissionQueue => 0x00,
            AdminOpcode::CreateIoSubmissionQueue => 0x01,
            AdminOpcode::GetLogPage => 0x02,
            AdminOpcode::DeleteIoCompletionQueue => 0x04,
            AdminOpcode::CreateIoCompletionQueue => 0x05,
            AdminOpcode::Identify => 0x06,
            AdminOpcode::Abort => 0x08,
            AdminOpcode::SetFeatures => 0x09,
            AdminOpcode::GetFeatures => 0x0a,
            AdminOpcode::AsynchronousEventRequest => 0x0c,
        }
    }
}
