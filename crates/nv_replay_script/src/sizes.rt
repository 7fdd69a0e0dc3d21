//! The sizes that the set-up names.
ghost use Rattle.std.specs.Prelude.{◌≡◌};

use crate::vocabulary::Size;
use nv_once_script::FaultKind;
use nv_once_script::once::number::number;
use nv_once_script::once::word::Word;

/// The sizes of a set-up, as its lines name them.
#[derive(Clone, Copy, Debug, PartialEq, Eq)]
pub struct Sizes {
    /// how many bytes the host's memory has
    pub host: u64,
    /// the host address at which the mediator's area begins
    pub mediator: u64,
    /// how many blocks the disk has
    pub disk: u64,
    /// how many lanes there are
    pub lanes: u64,
}

/// Those of them that the lines so far have named.
#[derive(Clone, Copy, Debug, PartialEq, Eq)]
pub struct OpenSizes {
    pub host: Option<u64>,
    pub mediator: Option<u64>,
    pub disk: Option<u64>,
    pub lanes: Option<u64>,
}

impl OpenSizes {
    ghost use Rattle.nv_replay_script.specs.ReplaySetUp.{after_size, named, no_sizes, sizes_in, with_size};

    /// None.
    pub fn new() -> Self
        ensures { result ≡ no_sizes }
    {
        OpenSizes {
            host: None,
            mediator: None,
            disk: None,
            lanes: None,
        }
    }

    // This size, if it was named.
    fn get(self, size: Size) -> Option<u64>
        ensures { result ≡ named self size }
    {
        match size {
            Size::Host => self.host,
            Size::Mediator => self.mediator,
            Size::Disk => self.disk,
            Size::Lanes => self.lanes,
        }
    }

    // This size is named, too.
    fn with(self, size: Size, value: u64) -> Self
        ensures { result ≡ with_size self size value }
    {
        let value = Some(value);
        match size {
            Size::Host => OpenSizes {
                host: value,
                ..self
            },
            Size::Mediator => OpenSizes {
                mediator: value,
                ..self
            },
            Size::Disk => OpenSizes {
                disk: value,
                ..self
            },
            Size::Lanes => OpenSizes {
                lanes: value,
                ..self
            },
        }
    }

    /// The sizes after a line that names one by this word.
    ///
    /// # Errors
    ///
    /// [`FaultKind::OutOfPlace`] where the size was named before. [`FaultKind::BadNumber`] where it was not, and the word is no number.
    pub fn name(self, size: Size, word: Word<'_>) -> Result<Self, FaultKind>
        ensures { result ≡ after_size self size word.entry }
    {
        if self.get(size).is_some() {
            return Err(FaultKind::OutOfPlace);
        }
        let value = number(word)?;
        Ok(self.with(size, value))
    }

    /// The sizes, once all four are there.
    pub fn whole(self) -> Option<Sizes>
        ensures { result ≡ sizes_in self }
    {
        Some(Sizes {
            host: self.host?,
            mediator: self.mediator?,
            disk: self.disk?,
            lanes: self.lanes?,
        })
    }
}
