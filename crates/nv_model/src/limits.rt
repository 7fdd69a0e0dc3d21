//! The sizes and limits of the project for code, in one place; definitions have theirs in `specs/Limits`. A size counts bytes, unless it says of what.
//!
//! *Base* is NVM Express Base Specification 2.0, *NVM* the NVM Command Set Specification 1.0, *profile* the project's own choice.

pub use nv_mem::PAGE_SIZE;
pub use nv_ns::MOST_EXTENTS;

/// How many bytes a logical block has (NVM, "LBA Format"; profile: no other).
pub const BLOCK_SIZE: usize = 512;

/// How many bytes a range of Dataset Management has (NVM, "Dataset Management command").
pub const RANGE_SIZE: usize = 16;

/// The most ranges of a Dataset Management: NR has eight bits (NVM, "Dataset Management command").
pub const MOST_RANGES: usize = 256;

/// How many bytes a submission queue entry has (Base, "Submission Queue Entry").
pub const SQE_SIZE: u64 = 64;

/// How many bytes a completion queue entry has (Base, "Completion Queue Entry").
pub const CQE_SIZE: u64 = 16;

/// The most bytes of a list that are wanted at once (profile).
pub const PART_SIZE: u32 = 4096;

/// The most blocks of a command's transfer: 128 KiB, as MDTS 5 says (Base, "Identify Controller data structure"; profile).
pub const MOST_COMMAND_BLOCKS: u32 = 256;

/// The most bytes of a command's transfer.
pub const MOST_COMMAND_BYTES: u64 = BLOCK_SIZE as u64 * MOST_COMMAND_BLOCKS as u64;

/// The most entries of a PRP list: one for each page of a transfer but the first, in which it may begin anywhere (Base, "Physical Region Page Entry and
/// List").
pub const MOST_ENTRIES: usize = (MOST_COMMAND_BYTES / PAGE_SIZE) as usize;

/// The most pages in which a command's transfer lies.
pub const MOST_PAGES: usize = MOST_ENTRIES + 1;

/// The most descriptors of a list, the command's own among them (profile).
pub const MOST_DESCRIPTORS: u32 = 1024;

/// The most descriptors of a list that a guest of a world may be given (profile).
pub const MOST_LIMIT: u32 = 4096;

/// The most slots of a guest's queue, as CAP.MQES says (Base, "Controller Capabilities"; profile).
pub const MOST_SLOTS: u16 = 1024;

/// The most event requests of a guest that are held, as AERL says (Base, "Identify Controller data structure"; profile).
pub const MOST_REQUESTS: u8 = 4;

/// The number of a guest's last I/O queue. The first is 1; queue 0 is the admin queue (profile).
pub const LAST_QUEUE: u16 = 8;

/// How many numbers of queues a guest has: the admin queue's, and those of its I/O queues.
pub const QUEUE_COUNT: usize = LAST_QUEUE as usize + 1;

/// The most bytes of the memory of a controller that serves one guest alone: 16 MiB (profile).
pub const LARGEST_MEMORY: u64 = 16_777_216;

/// The most blocks of its namespace (profile).
pub const LARGEST_NAMESPACE: u64 = 65_536;

/// The most guests (profile).
pub const MOST_GUESTS: u8 = 16;

/// The most regions of a guest's map (profile).
pub const MOST_REGIONS: usize = 64;

/// The most lanes (profile).
pub const MOST_LANES: u8 = 8;

/// How many tags a lane has: the most of its commands that are under way (profile).
pub const TAGS: u8 = 64;

/// The same number as a length.
pub const TAG_COUNT: usize = TAGS as usize;

/// How many slots each ring of a lane has: one more than there are tags, so that no ring fills (profile).
pub const RING_SLOTS: u16 = TAGS as u16 + 1;

/// How many pages a lane's submission ring has: as many as its slots need.
pub const SUBMISSION_RING_PAGES: u64 = (SQE_SIZE * RING_SLOTS as u64 + PAGE_SIZE - 1) / PAGE_SIZE;

/// How many pages both rings of a lane have: those of the submission ring, and one for the completion ring.
pub const RING_PAGES: u64 = SUBMISSION_RING_PAGES + 1;

/// How many pages of a tag are there to bounce a command's bytes.
pub const BOUNCE_PAGES: u64 = MOST_COMMAND_BYTES / PAGE_SIZE;

/// How many pages a tag has: one for a list, and those to bounce.
pub const TAG_PAGES: u64 = 1 + BOUNCE_PAGES;

/// How many pages a lane has in the mediator's area: those of its rings, and then those of its tags.
pub const LANE_PAGES: u64 = RING_PAGES + TAG_PAGES * TAGS as u64;

/// How many bytes a lane has in the mediator's area.
pub const LANE_SIZE: u64 = PAGE_SIZE * LANE_PAGES;

/// The most bytes of the host's memory: 1 GiB (profile).
pub const MOST_HOST_BYTES: u64 = 1_073_741_824;

/// The most blocks of the disk: 1 GiB (profile).
pub const MOST_DISK_BLOCKS: u64 = 2_097_152;
