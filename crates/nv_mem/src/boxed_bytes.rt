//! Bytes held by one pointer.

ghost use Rattle.std.specs.Prelude.{◌≡◌, IfOk, length};

use crate::NoMemory;
use std::alloc::Global;
use std::marker::Model;

/// Bytes held by one pointer, so that what carries them stays small: a script holds millions of acts, and few of them carry any.
#[derive(Debug, Drop)]
pub struct BoxedBytes {
    bytes: Box<Vec<u8>>,
}

impl Model for BoxedBytes {
    ghost use Rattle.std.specs.Prelude.{List, ℕ};

    ghost Value = { List ℕ };

    ghost view = { λ b. b.bytes.value.items };
}

impl BoxedBytes {
    /// The bytes that the vector holds.
    ///
    /// # Errors
    ///
    /// There was no memory for what the pointer names.
    pub fn new(alloc: Global, bytes: Vec<u8>) -> Result<Self, NoMemory>
        ensures { IfOk result (λ made. made ≡ bytes.items) }
    {
        let bytes = Box::new(alloc, bytes)?;
        Ok(BoxedBytes { bytes })
    }

    /// These bytes once more.
    ///
    /// # Errors
    ///
    /// There was no memory for them.
    pub fn from_slice(alloc: Global, bytes: &[u8]) -> Result<Self, NoMemory>
        ensures { IfOk result (λ made. made ≡ bytes.now) }
    {
        BoxedBytes::new(alloc, Vec::from_slice(alloc, bytes)?)
    }

    /// The bytes.
    pub fn as_slice(&self) -> &[u8]
        ensures { result.now ≡ self.now }
    {
        self.bytes.as_slice()
    }

    /// Puts as many other bytes in the place of these.
    pub fn copy_from_slice(&mut self, bytes: &[u8])
        requires { length bytes.now ≡ length self.old }
        ensures { self.new ≡ bytes.now }
    {
        self.bytes.copy_from_slice(bytes);
    }
}
