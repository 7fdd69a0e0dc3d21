//! One region of a memory map, and the size of the pages that it is made of.

ghost use Rattle.std.specs.Prelude.{◌≡◌};
ghost use Rattle.nv_mem.specs.GuestMap.{spans_meet};

/// How many bytes a memory page has.
pub const PAGE_SIZE: u64 = 4096;

/// `len` bytes of a guest's memory, from guest address `guest` on, that lie in the host's memory
/// from host address `host` on.
#[derive(Clone, Copy, Debug, PartialEq, Eq)]
pub struct Region {
    /// The guest address of the first byte.
    pub guest: u64,
    /// The host address of the first byte.
    pub host: u64,
    /// How many bytes the region has.
    pub len: u64,
}

impl Region {
    ghost use Rattle.nv_mem.specs.GuestMap.{covers};
    ghost use Rattle.nv_mem.specs.MapRefusal.{is_paged, is_inside, regions_meet};
    ghost use Rattle.nv_mem.specs.MapRuns.{overlap};

    /// Whether both addresses and the length are multiples of [`PAGE_SIZE`], and the length is not 0.
    pub(crate) fn is_paged(&self) -> bool
        ensures { result ≡ is_paged self.now }
    {
        self.guest % PAGE_SIZE == 0
            && self.host % PAGE_SIZE == 0
            && self.len % PAGE_SIZE == 0
            && 0 < self.len
    }

    /// Whether the region lies in a host of `host_len` bytes and in the 64 bits of a guest's
    /// addresses. A region that ends exactly at 2 to the 64 does.
    pub(crate) fn is_inside(&self, host_len: u64) -> bool
        ensures { result ≡ is_inside host_len self.now }
    {
        let Region { guest, host, len } = *self;
        len <= host_len && host <= host_len - len && (len == 0 || guest <= u64::MAX - (len - 1))
    }

    /// Whether the region's host addresses and the `len` host addresses from `host` on have one in
    /// common.
    pub fn meets_host(&self, host: u64, len: u64) -> bool
        ensures { result ≡ spans_meet self.now.host self.now.len host len }
    {
        spans_meet(self.host, self.len, host, len)
    }

    /// Whether the guest address lies in the region.
    pub fn covers(&self, addr: u64) -> bool
        ensures { result ≡ covers self.now addr }
    {
        self.guest <= addr && addr - self.guest < self.len
    }

    /// How many of the `len` guest addresses from `addr` on lie in the region.
    pub(crate) fn overlap(&self, addr: u64, len: u64) -> u64
        ensures { result ≡ overlap self.now addr len }
    {
        let Region {
            guest,
            len: region_len,
            ..
        } = *self;
        if guest <= addr {
            region_len.saturating_sub(addr - guest).min(len)
        } else {
            len.saturating_sub(guest - addr).min(region_len)
        }
    }

    /// Whether the two regions have a guest address or a host address in common.
    pub fn meets(&self, other: &Region) -> bool
        ensures { result ≡ regions_meet self.now other.now }
    {
        spans_meet(self.guest, self.len, other.guest, other.len)
            || self.meets_host(other.host, other.len)
    }
}

/// Whether `a_len` numbers from `a` on and `b_len` from `b` on have one in common.
pub fn spans_meet(a: u64, a_len: u64, b: u64, b_len: u64) -> bool
    ensures { result ≡ spans_meet a a_len b b_len }
{
    if a <= b {
        b - a < a_len && 0 < b_len
    } else {
        a - b < b_len && 0 < a_len
    }
}
