// A text of bounded length, put together piece by piece. Its bytes lie in the value, so it needs no allocator.
#![tactic(auto)]

ghost use Rattle.std.specs.Prelude.{◌≡◌, ℕ, ◌+◌, ◌≤◌, ◌↔◌, List, [], ◌++◌, length, IsOk, OnOk, OnErr};

use arrayvec::{ArrayVec, CapacityError};
use itoa::{Buffer, Integer};
use std::marker::Model;

#[derive(Drop)]
pub struct Text<const CAPACITY: usize> {
    bytes: ArrayVec<u8, CAPACITY>,
}

impl<const CAPACITY: usize> Model for Text<CAPACITY> {
    ghost Value = { List ℕ };

    ghost view = { λ text. text.bytes.items };
}

impl<const CAPACITY: usize> Text<CAPACITY> {
    pub fn new() -> Self
        ensures { result ≡ [] }
    {
        Text {
            bytes: ArrayVec::new(),
        }
    }

    pub fn as_bytes(&self) -> &[u8]
        ensures value { result.now ≡ self.now }
        ensures fits { length result.now ≤ CAPACITY }
    {
        self.bytes.as_slice()
    }

    // Puts a piece behind the text. One that does not fit is refused, and leaves the text as it was.
    pub fn put(&mut self, piece: &[u8]) -> Result<(), CapacityError>
        ensures fits { IsOk result ↔ (length self.old + length piece.now ≤ CAPACITY) }
        ensures put { OnOk result (self.new ≡ self.old ++ piece.now) }
        ensures refused { OnErr result (self.new ≡ self.old) }
    {
        self.bytes.try_extend_from_slice(piece)
    }

    // Puts the number in decimal, with no leading zeros, as `put` puts a piece.
    pub fn put_number<I: Integer>(&mut self, value: I) -> Result<(), CapacityError>
        ensures fits { IsOk result ↔ (length self.old + length (I.text value) ≤ CAPACITY) }
        ensures put { OnOk result (self.new ≡ self.old ++ I.text value) }
        ensures refused { OnErr result (self.new ≡ self.old) }
    {
        self.put(Buffer::new().format(value).as_bytes())
    }
}
