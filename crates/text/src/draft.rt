// A text that is being made: bytes, labels and decimal numbers put one behind the other. What does not fit is dropped.
ghost use Rattle.std.specs.Prelude.{◌≡◌, [], ◌∷◌};
ghost use Rattle.text.specs.Drafts.{extended};
ghost use Rattle.text.specs.Decimal.{decimal_of, item_of};

use std::marker::Model;

// Every text has fewer bytes.
const ROOM: usize = 1280;

// The first bytes are the text so far.
#[derive(Drop)]
pub struct Draft {
    bytes: [u8; ROOM],
    count: usize,
}

// Clauses see the text so far.
impl Model for Draft {
    ghost use Rattle.std.specs.Prelude.{ℕ, ◌≤◌, List, take};
    ghost use Rattle.text.specs.Drafts.{text_room};

    ghost Value = { List ℕ };

    ghost view = { λ d. take d.count d.bytes };

    ghost invariant = { λ d. d.count ≤ text_room };
}

impl Draft {
    pub fn new() -> Self
        ensures { result ≡ [] }
    {
        Draft {
            bytes: [0; ROOM],
            count: 0,
        }
    }

    pub fn put(&mut self, more: &[u8])
        ensures { self.new ≡ extended self.old more.now }
    {
        let fits = more.len().min(ROOM - self.count);
        let end = self.count + fits;
        self.count += answer::put_bytes(&mut self.bytes[self.count..end], &more[..fits]);
    }

    pub fn put_byte(&mut self, byte: u8)
        ensures { self.new ≡ extended self.old (byte ∷ []) }
    {
        self.put(&[byte]);
    }

    // The number's decimal digits.
    // Kept: for all that its contract says `write!` may fail, and then nothing is known of the draft.
    pub fn put_decimal(&mut self, value: u32)
        ensures { self.new ≡ extended self.old (decimal_of value) }
    {
        if 9 < value {
            self.put_decimal(value / 10);
        }
        self.put_byte(b'0' + (value % 10) as u8);
    }

    // A space and a number.
    pub fn put_item(&mut self, value: u32)
        ensures { self.new ≡ extended self.old (item_of value) }
    {
        self.put_byte(b' ');
        self.put_decimal(value);
    }

    pub fn as_bytes(&self) -> &[u8]
        ensures { result.now ≡ self.now }
    {
        &self.bytes[..self.count]
    }
}
