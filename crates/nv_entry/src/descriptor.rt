//! Descriptors of scatter gather lists: their fields, read from bytes and made.

ghost use Rattle.std.specs.Prelude.{◌≡◌, [], ◌∷◌};
ghost use Rattle.nv_entry.specs.Layout.{bytes_of_dwords};

use crate::descriptor_type::DescriptorType;
use crate::dwords;
use std::marker::Model;

/// An SGL descriptor, 16 bytes (Base Specification 2.0, "Scatter Gather List (SGL)").
#[tactic(auto, using(crate::specs::Dwords::dwords_back))]
#[derive(Clone, Copy, Debug, PartialEq, Eq)]
pub struct Descriptor {
    dw: [u32; 4],
}

impl Model for Descriptor {
    ghost use Rattle.std.specs.Prelude.{List, ℕ};
    ghost use Rattle.std.proofs.Common.{ap};
    ghost use Rattle.nv_entry.specs.Layout.{AreDwords, bytes_of_dwords, dwords_from};
    ghost use Rattle.nv_entry.specs.Dwords.{dwords_back};

    ghost Value = { List ℕ };

    ghost view = { λ e. bytes_of_dwords e.dw };

    ghost invariant = { λ e. AreDwords 4 e.dw };

    ghost inverse = { λ bytes. record { dw = dwords_from 0 4 bytes } };

    ghost inverse_ok = { λ a h. ap (λ (d : List ℕ). record { dw = d }) (dwords_back 4 a.dw h) };
}

#[tactic(auto, using(crate::specs::Dwords::dword_back, crate::specs::Dwords::qword_back))]
impl Descriptor {
    ghost use Rattle.nv_entry.specs.Descriptor.{address_of, kind_of, length_of, subtype_of, type_of};

    /// The descriptor in these bytes.
    pub fn of(bytes: &[u8; 16]) -> Self
        ensures { result ≡ bytes.now }
    {
        let mut dw = [0; 4];
        dwords::read(bytes, &mut dw);
        Descriptor { dw }
    }

    /// The descriptor of these dwords.
    pub(crate) fn from_dwords(dw0: u32, dw1: u32, dw2: u32, dw3: u32) -> Self
        ensures { result ≡ bytes_of_dwords (dw0 ∷ dw1 ∷ dw2 ∷ dw3 ∷ []) }
    {
        Descriptor {
            dw: [dw0, dw1, dw2, dw3],
        }
    }

    /// Its bytes.
    pub fn bytes(&self) -> [u8; 16]
        ensures { result ≡ self.now }
    {
        let mut bytes = [0; 16];
        dwords::write(&self.dw, &mut bytes);
        bytes
    }

    /// The address, of bytes or of an array of descriptors.
    pub fn address(&self) -> u64
        ensures { result ≡ address_of self.now }
    {
        dwords::join(self.dw[0], self.dw[1])
    }

    /// The length in bytes.
    pub fn length(&self) -> u32
        ensures { result ≡ length_of self.now }
    {
        self.dw[2]
    }

    /// The code of the descriptor's type: 0h to Fh.
    pub fn type_code(&self) -> u8
        ensures { result ≡ type_of self.now }
    {
        dwords::bits(self.dw[3], 31, 28) as u8
    }

    /// The code of the descriptor's subtype: 0h (Address) to Fh.
    pub fn subtype_code(&self) -> u8
        ensures { result ≡ subtype_of self.now }
    {
        dwords::bits(self.dw[3], 27, 24) as u8
    }

    /// What the descriptor names, or `None` where its subtype isn't Address or its type is another than the four.
    pub fn kind(&self) -> Option<DescriptorType>
        ensures { result ≡ kind_of self.now }
    {
        if self.subtype_code() == 0 {
            DescriptorType::of(self.type_code())
        } else {
            None
        }
    }
}
