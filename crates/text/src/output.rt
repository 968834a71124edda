// A lent buffer with the place where the next byte goes.

ghost use Rattle.std.specs.Prelude.{◌≡◌, ◌+◌, ◌≤◌, min, length};
ghost use Rattle.text.specs.Writing.{cap};

use super::{copy_bytes, low_byte};

const CAP: usize = 4294967296;

// The place `n` bytes on, as far as the cap.
fn forth(at: usize, n: usize) -> usize
    ensures { result ≡ min cap (at + n) }
{
    at.saturating_add(n).min(CAP)
}

// A lent buffer and the place where the next byte goes. What falls outside is left out, and the place moves on all the
// same: so the same code measures a text, over no buffer, and writes it.
#[derive(Drop)]
pub struct Output<'a> {
    pub buffer: &'a mut [u8],
    pub at: usize,
    pub ghost few: { length buffer.now ≤ cap },
    pub ghost near: { at ≤ cap },
}

impl Output<'_> {
    ghost use Rattle.std.specs.Prelude.{[], ◌∷◌};
    ghost use Rattle.text.specs.Writing.{spaces, decimal};
    ghost use Rattle.text.specs.Outputs.{Puts};

    // The bytes of `s`.
    pub fn put(&mut self, s: &[u8])
        ensures { Puts self.old s.now self.new }
    {
        let from = self.at.min(self.buffer.len());
        let inside = s.len().min(self.buffer.len() - from);
        copy_bytes(&mut self.buffer[from..from + inside], &s[..inside]);
        self.at = forth(self.at, s.len());
    }

    // One byte.
    pub fn put_byte(&mut self, b: u8)
        ensures { Puts self.old (b ∷ []) self.new }
    {
        if self.at < self.buffer.len() {
            self.buffer[self.at] = b;
        }
        self.at = forth(self.at, 1);
    }

    // `n` spaces.
    pub fn put_spaces(&mut self, n: usize)
        ensures { Puts self.old (spaces n) self.new }
    {
        let from = self.at.min(self.buffer.len());
        let inside = n.min(self.buffer.len() - from);
        self.buffer[from..from + inside].fill(b' ');
        self.at = forth(self.at, n);
    }

    // `n` in decimal; its digits come from the last on.
    pub fn put_decimal(&mut self, n: usize)
        ensures { Puts self.old (decimal n) self.new }
    {
        let mut digits: [u8; 20] = [0; 20];
        let mut i = 20;
        let mut m = n;
        while 10 <= m {
            i -= 1;
            digits[i] = b'0' + low_byte(m % 10);
            m /= 10;
        }
        i -= 1;
        digits[i] = b'0' + low_byte(m);
        self.put(&digits[i..]);
    }
}
