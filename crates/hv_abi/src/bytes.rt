// A list of bytes.
ghost use Rattle.std.specs.Prelude.{◌≡◌, [], IfOk, OnOk, OnErr};

use std::alloc::{AllocError, Allocator};
use std::marker::Model;

/// The bytes of an input list, as a guest wrote them.
#[derive(Drop)]
pub struct Bytes<A: Allocator> {
    bytes: Vec<u8, A>,
}

impl<A: Allocator> Model for Bytes<A> {
    ghost use Rattle.std.specs.Prelude.{List, ℕ};

    ghost Value = { List ℕ };

    ghost view = { λ b. b.bytes.items };
}

impl<A: Allocator> Bytes<A> {
    /// Takes a vector's bytes, in the vector's memory.
    pub fn from_vec(bytes: Vec<u8, A>) -> Bytes<A>
        ensures { result ≡ bytes.items }
    {
        Bytes { bytes }
    }

    /// Replaces the bytes, in the memory already allocated if that is enough.
    ///
    /// If the host is out of memory, the list is empty.
    pub fn refill(&mut self, bytes: &[u8]) -> Result<(), AllocError>
        ensures ok { OnOk result (self.new ≡ bytes.now) }
        ensures err { OnErr result (self.new ≡ []) }
    {
        self.bytes.clear();
        // Most calls have no input list.
        if bytes.is_empty() {
            return Ok(());
        }
        self.bytes.extend_from_slice(bytes)
    }

    /// Returns the number of bytes that the allocated memory holds.
    pub fn capacity(&self) -> usize {
        self.bytes.capacity()
    }

    /// Returns the bytes as a vector, in the memory that they have.
    pub fn into_vec(self) -> Vec<u8, A>
        ensures { result.items ≡ self }
    {
        let Bytes { bytes } = self;
        bytes
    }

    /// Returns the bytes.
    pub fn as_slice(&self) -> &[u8]
        ensures { result.now ≡ self.now }
    {
        self.bytes.as_slice()
    }
}

impl<A: Allocator + Clone> Bytes<A> {
    /// Copies the list, on the same allocator.
    pub fn copy(&self) -> Result<Bytes<A>, AllocError>
        ensures { IfOk result (λ b. b ≡ self.now) }
    {
        let alloc = self.bytes.allocator().clone()?;
        let bytes = Vec::from_slice(alloc, self.bytes.as_slice())?;
        Ok(Bytes { bytes })
    }
}
