//! The limits of a set-up.

ghost use Rattle.std.specs.Prelude.{◌≡◌};
ghost use Rattle.nv_world_model.specs.SetUp.{host_limits, script_limits};

use nv_model::limits::{MOST_DISK_BLOCKS, MOST_HOST_BYTES};
use std::marker::Model;

/// The most bytes of a host's own memory: 128 TiB, what a process can address (profile).
const MOST_WINDOW_BYTES: u64 = 1 << 47;

/// The most blocks of a host's own drive (profile).
const MOST_DRIVE_BLOCKS: u64 = 1 << 48;

/// The most blocks of a guest's namespace: as many as the 32 bits of a range of Dataset Management can name.
pub(crate) const MOST_NAMESPACE_BLOCKS: u64 = 4_294_967_295;

/// The most bytes of a host's memory, and the most blocks of a disk.
#[derive(Clone, Copy, Debug, PartialEq, Eq)]
pub(crate) struct Limits {
    pub(crate) host_bytes: u64,
    pub(crate) disk_blocks: u64,
}

impl Model for Limits {
    ghost use Rattle.nv_world_model.specs.SetUp.{Limits as Most};

    ghost Value = { Most };

    ghost view = { λ l. record { host_bytes = l.host_bytes; disk_blocks = l.disk_blocks } };

    ghost inverse = { λ m. record { host_bytes = m.host_bytes; disk_blocks = m.disk_blocks } };
}

impl Limits {
    /// Those of scripts, whose memory and disk are made for them.
    pub(crate) fn of_scripts() -> Self
        ensures { result ≡ script_limits }
    {
        Limits {
            host_bytes: MOST_HOST_BYTES,
            disk_blocks: MOST_DISK_BLOCKS,
        }
    }

    /// Those of a host that has memory and a drive of its own.
    pub(crate) fn of_hosts() -> Self
        ensures { result ≡ host_limits }
    {
        Limits {
            host_bytes: MOST_WINDOW_BYTES,
            disk_blocks: MOST_DRIVE_BLOCKS,
        }
    }
}
