// Texts and numbers, each written into a buffer behind the one before.
#![tactic(auto, using(crate::proofs::WritesLaws::wrote_part))]

ghost use Rattle.std.specs.Prelude.{◌∷◌, ◌++◌, ◌+◌, length};
ghost use Rattle.volume.specs.Listing.{decimal, state_word};
ghost use Rattle.text.specs.Writes.{HasRoom, Wrote};

use sector::State;

// A buffer, and the position in it where the next text goes.
// That there is room is each function's clause and no invariant: each asks for another length.
#[derive(Drop)]
pub struct Writer<'a> {
    pub out: &'a mut [u8],
    pub at: usize,
}

impl Writer<'_> {
    // The text is written. Ruled out: a byte behind it changed; a position that stays, so that the next text is written over it
    // (`must-fail/position_stays`).
    pub fn put(&mut self, text: &[u8])
        requires { HasRoom self.old (length text.now) }
        ensures { Wrote text.now self.old self.new }
    {
        let end = self.at + text.len();
        self.out[self.at..end].copy_from_slice(text);
        self.at = end;
    }

    // The number is written in decimal. By hand: the library's writers of digits (`itoa`, the formatter) fill a buffer of their
    // own, from which the digits would be copied, by divisions of 64 bits, which is no plainer.
    #[tactic(auto, unfolding(volume::specs::Listing::decimal))]
    fn put_number(&mut self, n: u8)
        requires { HasRoom self.old (length (decimal n)) }
        ensures { Wrote (decimal n) self.old self.new }
    {
        if n < 10 {
            self.put(&[b'0' + n]);
        } else if n < 100 {
            self.put(&[b'0' + n / 10, b'0' + n % 10]);
        } else {
            self.put(&[b'0' + n / 100, b'0' + n / 10 % 10, b'0' + n % 10]);
        }
    }

    // The text is written, and the number after it. Ruled out: the tens of a number of three digits written as its hundreds
    // (`must-fail/tens_digit_dropped`); the number before the text.
    pub fn put_field(&mut self, text: &[u8], n: u8)
        requires { HasRoom self.old (length text.now + length (decimal n)) }
        ensures { Wrote (text.now ++ decimal n) self.old self.new }
    {
        self.put(text);
        self.put_number(n);
    }

    // The word for a record's state is written, after a space. Ruled out: a decided record shown as open
    // (`must-fail/decided_shown_open`); no space.
    pub fn put_state(&mut self, state: u8)
        requires { HasRoom self.old (1 + length (state_word state)) }
        ensures { Wrote (0x20 ∷ state_word state) self.old self.new }
    {
        // The byte itself is matched, and no enum of it: in the volume the state is a byte, and document 01 names this form.
        match state {
            State::IDLE => self.put(b" idle"),
            State::OPEN => self.put(b" open"),
            _ => self.put(b" decided"),
        }
    }
}
