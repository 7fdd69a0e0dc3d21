//! The status codes that the mediator gives, by their names, and the statuses that they make.

ghost use Rattle.std.specs.Prelude.{◌≡◌, ◌<◌};

use crate::status::Status;

/// The status codes that the mediator gives (Base Specification 2.0, "Status Code"; NVM Command Set Specification 1.0,
/// for LBA Out of Range and Compare Failure).
#[derive(Clone, Copy, Debug, PartialEq, Eq)]
pub enum StatusCode {
    /// 0h/00h, Success
    Success,
    /// 0h/01h, Invalid Command Opcode
    InvalidOpcode,
    /// 0h/02h, Invalid Field in Command
    InvalidField,
    /// 0h/04h, Data Transfer Error
    DataTransferError,
    /// 0h/06h, Internal Error
    InternalError,
    /// 0h/0Bh, Invalid Namespace or Format
    InvalidNamespace,
    /// 0h/0Ch, Command Sequence Error
    CommandSequenceError,
    /// 0h/0Dh, Invalid SGL Segment Descriptor
    InvalidSglSegment,
    /// 0h/0Eh, Invalid Number of SGL Descriptors
    InvalidSglCount,
    /// 0h/0Fh, Data SGL Length Invalid
    SglLengthInvalid,
    /// 0h/11h, SGL Descriptor Type Invalid
    SglTypeInvalid,
    /// 0h/13h, PRP Offset Invalid
    PrpOffsetInvalid,
    /// 0h/80h, LBA Out of Range
    LbaOutOfRange,
    /// 1h/00h, Completion Queue Invalid
    CompletionQueueInvalid,
    /// 1h/01h, Invalid Queue Identifier
    InvalidQueueIdentifier,
    /// 1h/02h, Invalid Queue Size
    InvalidQueueSize,
    /// 1h/05h, Asynchronous Event Request Limit Exceeded
    EventLimitExceeded,
    /// 1h/09h, Invalid Log Page
    InvalidLogPage,
    /// 1h/0Ch, Invalid Queue Deletion
    InvalidQueueDeletion,
    /// 2h/81h, Unrecovered Read Error
    UnrecoveredReadError,
    /// 2h/85h, Compare Failure
    CompareFailure,
}

impl StatusCode {
    ghost use Rattle.nv_entry.specs.StatusCode.{done_with, refused_with, sc_of, sct_of};

    /// SCT, its status code type.
    pub fn sct(self) -> u8
        ensures value { result ≡ sct_of self }
        ensures fits { result < 8 }
    {
        match self {
            StatusCode::UnrecoveredReadError | StatusCode::CompareFailure => 2,
            StatusCode::CompletionQueueInvalid
            | StatusCode::InvalidQueueIdentifier
            | StatusCode::InvalidQueueSize
            | StatusCode::EventLimitExceeded
            | StatusCode::InvalidLogPage
            | StatusCode::InvalidQueueDeletion => 1,
            _ => 0,
        }
    }

    /// SC, its status code.
    pub fn sc(self) -> u8
        ensures { result ≡ sc_of self }
    {
        match self {
            StatusCode::Success => 0x00,
            StatusCode::InvalidOpcode => 0x01,
            StatusCode::InvalidField => 0x02,
            StatusCode::DataTransferError => 0x04,
            StatusCode::InternalError => 0x06,
            StatusCode::InvalidNamespace => 0x0b,
            StatusCode::CommandSequenceError => 0x0c,
            StatusCode::InvalidSglSegment => 0x0d,
            StatusCode::InvalidSglCount => 0x0e,
            StatusCode::SglLengthInvalid => 0x0f,
            StatusCode::SglTypeInvalid => 0x11,
            StatusCode::PrpOffsetInvalid => 0x13,
            StatusCode::LbaOutOfRange => 0x80,
            StatusCode::CompletionQueueInvalid => 0x00,
            StatusCode::InvalidQueueIdentifier => 0x01,
            StatusCode::InvalidQueueSize => 0x02,
            StatusCode::EventLimitExceeded => 0x05,
            StatusCode::InvalidLogPage => 0x09,
            StatusCode::InvalidQueueDeletion => 0x0c,
            StatusCode::UnrecoveredReadError => 0x81,
            StatusCode::CompareFailure => 0x85,
        }
    }

    /// The status with this code and DNR 0: what a command ends with that was carried out, or that may be tried again.
    pub fn status(self) -> Status
        ensures { result ≡ done_with self }
    {
        Status::new(self.sct(), self.sc(), false)
    }

    /// The status with this code and DNR 1: what a refused command ends with.
    pub fn refused(self) -> Status
        ensures { result ≡ refused_with self }
    {
        Status::new(self.sct(), self.sc(), true)
    }
}
