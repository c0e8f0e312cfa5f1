// Text into lent bytes, one piece behind the other.
#![tactic(auto)]

ghost use Rattle.std.specs.Prelude.{◌≡◌, ◌∷◌, []};
ghost use Rattle.text.specs.Text.{decimal, spaced};
ghost use Rattle.text.specs.Writing.{Room, Puts};

use itoa::Buffer;

// Lent bytes, and the place behind the text that was put into them. Each method puts more text there, and asks that there is room.
// No Vec: the bytes are lent and list has no heap.
#[derive(Drop)]
pub struct Text<'a> {
    pub out: &'a mut [u8],
    pub at: usize,
}

// Not by write!, which says what was written only where it answers Ok, and never that it does: these cannot fail.
impl Text<'_> {
    // One byte. Public for the listing, which knows that there is room. It is stored here, since a call to copy one byte takes longer.
    pub fn put_byte(&mut self, byte: u8)
        requires { Room (byte ∷ []) self.old }
        ensures { Puts (byte ∷ []) self.old self.new }
    {
        self.out[self.at] = byte;
        self.at += 1;
    }

    // Bytes as they stand. Public for the listing, which knows that there is room.
    #[tactic(auto, using(crate::proofs::Puts::copied))]
    pub fn put_text(&mut self, text: &[u8])
        requires { Room text.now self.old }
        ensures { Puts text.now self.old self.new }
    {
        let Text { out, at } = self;
        let end = *at + text.len();
        out[*at..end].copy_from_slice(text);
        *at = end;
    }

    // A number in decimal. Public for the listing, which knows that there is room. Most numbers there are one digit, which needs no buffer.
    #[tactic(auto, using(crate::proofs::Digits::decimal_is_printed, std::proofs::lemmas::Fmt::decimal_digit))]
    pub fn put_decimal(&mut self, number: u32)
        requires { Room (decimal number) self.old }
        ensures { Puts (decimal number) self.old self.new }
    {
        if number < 10 {
            return self.put_byte(b'0' + number as u8);
        }
        let mut digits = Buffer::new();
        self.put_text(digits.format(number).as_bytes());
    }

    // A space and a number. Public for the listing, which knows that there is room.
    pub fn put_spaced(&mut self, number: u32)
        requires { Room (spaced number) self.old }
        ensures { Puts (spaced number) self.old self.new }
    {
        self.put_byte(b' ');
        self.put_decimal(number);
    }
}
