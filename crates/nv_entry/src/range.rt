//! Ranges of Dataset Management: their fields, read from bytes and made.

ghost use Rattle.std.specs.Prelude.{◌≡◌};
ghost use Rattle.nv_entry.specs.Range.{attributes_of, blocks_of, start_of};

use crate::dwords;
use std::marker::Model;

/// A range of blocks that Dataset Management names, 16 bytes.
#[tactic(auto, using(crate::specs::Dwords::dwords_back))]
#[derive(Clone, Copy, Debug, PartialEq, Eq)]
pub struct Range {
    dw: [u32; 4],
}

impl Model for Range {
    ghost use Rattle.std.specs.Prelude.{List, ℕ};
    ghost use Rattle.std.proofs.Common.{ap};
    ghost use Rattle.nv_entry.specs.Layout.{AreDwords, bytes_of_dwords, dwords_from};
    ghost use Rattle.nv_entry.specs.Dwords.{dwords_back};

    ghost Value = { List ℕ };

    ghost view = { λ r. bytes_of_dwords r.dw };

    ghost invariant = { λ r. AreDwords 4 r.dw };

    ghost inverse = { λ bytes. record { dw = dwords_from 0 4 bytes } };

    ghost inverse_ok = { λ a h. ap (λ (d : List ℕ). record { dw = d }) (dwords_back 4 a.dw h) };
}

#[tactic(auto, using(crate::specs::Dwords::dword_back, crate::specs::Dwords::qword_back))]
impl Range {
    /// The range in these bytes.
    pub fn of(bytes: &[u8; 16]) -> Self
        ensures { result ≡ bytes.now }
    {
        let mut dw = [0; 4];
        dwords::read(bytes, &mut dw);
        Range { dw }
    }

    /// Its bytes.
    pub fn bytes(&self) -> [u8; 16]
        ensures { result ≡ self.now }
    {
        let mut bytes = [0; 16];
        dwords::write(&self.dw, &mut bytes);
        bytes
    }

    /// The context attributes.
    pub fn attributes(&self) -> u32
        ensures { result ≡ attributes_of self.now }
    {
        self.dw[0]
    }

    /// The length in blocks.
    pub fn blocks(&self) -> u32
        ensures { result ≡ blocks_of self.now }
    {
        self.dw[1]
    }

    /// The starting LBA.
    pub fn start(&self) -> u64
        ensures { result ≡ start_of self.now }
    {
        dwords::join(self.dw[2], self.dw[3])
    }
}
