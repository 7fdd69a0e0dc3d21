//! Bytes as a value of their own, for the replies of the crates above.

ghost use Rattle.std.specs.Prelude.{◌≡◌, ◌≤◌, IfOk, length};

use crate::few::{FEW, Few};
use crate::{BoxedBytes, NoMemory};
use std::alloc::Global;
use std::marker::Model;

/// Bytes that a reply carries. A few are stored in the value itself and take no memory. More are held by one pointer, so that what carries them
/// stays small: a log holds millions of replies, and few of them have many bytes.
#[derive(Debug, Drop)]
pub struct Bytes {
    kept: Kept,
}

impl Model for Bytes {
    ghost use Rattle.std.specs.Prelude.{List, ℕ};
    ghost use Rattle.nv_mem.specs.Kept.{kept_bytes};

    ghost Value = { List ℕ };

    ghost view = { λ b. kept_bytes b.kept };
}

// Where the bytes are stored.
#[derive(Debug, Drop)]
enum Kept {
    // in the value itself
    Few(Few),
    // held by a pointer
    Many(BoxedBytes),
}

impl Bytes {
    /// The bytes that the vector holds.
    ///
    /// # Errors
    ///
    /// There was no memory for what the pointer names, where they are more than [`FEW`].
    pub fn new(alloc: Global, bytes: Vec<u8>) -> Result<Self, NoMemory>
        ensures { IfOk result (λ made. made ≡ bytes.items) }
    {
        if bytes.len() <= FEW {
            return Ok(Bytes::few(&bytes));
        }
        let bytes = BoxedBytes::new(alloc, bytes)?;
        Ok(Bytes {
            kept: Kept::Many(bytes),
        })
    }

    /// These bytes once more.
    ///
    /// # Errors
    ///
    /// There was no memory for them, where they are more than [`FEW`].
    pub fn from_slice(alloc: Global, bytes: &[u8]) -> Result<Self, NoMemory>
        ensures { IfOk result (λ made. made ≡ bytes.now) }
    {
        if bytes.len() <= FEW {
            return Ok(Bytes::few(bytes));
        }
        Bytes::new(alloc, Vec::from_slice(alloc, bytes)?)
    }

    /// These bytes, [`FEW`] at most, which take no memory.
    pub fn few(bytes: &[u8]) -> Self
        requires { length bytes.now ≤ 7 }
        ensures { result ≡ bytes.now }
    {
        Bytes {
            kept: Kept::Few(Few::of(bytes)),
        }
    }

    /// The bytes.
    pub fn as_slice(&self) -> &[u8]
        ensures { result.now ≡ self.now }
    {
        match &self.kept {
            Kept::Few(few) => few.as_slice(),
            Kept::Many(bytes) => bytes.as_slice(),
        }
    }

    /// Puts as many other bytes in the place of these.
    pub fn copy_from_slice(&mut self, bytes: &[u8])
        requires { length bytes.now ≡ length self.old }
        ensures { self.new ≡ bytes.now }
    {
        match &mut self.kept {
            Kept::Few(few) => *few = Few::of(bytes),
            Kept::Many(kept) => kept.copy_from_slice(bytes),
        }
    }
}
