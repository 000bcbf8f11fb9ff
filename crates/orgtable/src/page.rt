// What is to be printed, put together in fixed memory.
ghost use Rattle.std.specs.Prelude.{ℕ, ◌≡◌, ◌+◌, ◌<◌, ◌≤◌, List, [], ◌∷◌, ◌++◌, length, take};
ghost use Rattle.orgtable.specs.Printed.{page_size};

use std::marker::Model;

// As specs/Printed has it.
const SIZE: usize = 180224;

#[derive(Drop)]
pub struct Page {
    bytes: [u8; SIZE],
    used: usize,
}

// Clauses see the bytes in use.
impl Model for Page {
    ghost Value = { List ℕ };

    ghost view = { λ p. take p.used p.bytes };

    ghost invariant = { λ p. p.used ≤ page_size };
}

impl Page {
    pub fn new() -> Self
        ensures { result ≡ [] }
    {
        Page {
            bytes: [0; SIZE],
            used: 0,
        }
    }

    pub fn as_slice(&self) -> &[u8]
        ensures { result.now ≡ self.now }
    {
        &self.bytes[..self.used]
    }

    pub fn push(&mut self, b: u8)
        requires { length self.old < page_size }
        ensures { self.new ≡ self.old ++ b ∷ [] }
    {
        self.bytes[self.used] = b;
        self.used += 1;
    }

    pub fn push_all(&mut self, bytes: &[u8])
        requires { length self.old + length bytes.now ≤ page_size }
        ensures { self.new ≡ self.old ++ bytes.now }
    {
        let end = self.used + bytes.len();
        self.bytes[self.used..end].copy_from_slice(bytes);
        self.used = end;
    }
}
