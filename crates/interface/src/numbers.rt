// Numbers that count from 1, each known to be at most the last one: of a client and of a file that a session has room for. Whether a
// volume has that client or that file is asked where the volume is known.
ghost use Rattle.std.specs.Prelude.{◌≡◌, ◌&&◌, ◌≤◌, ◌<◌, ◌-◌, leb, is_some, IfSome};

// A number from 1 to `HIGHEST`.
#[derive(Clone, Copy, Debug, PartialEq, Eq)]
pub struct Number<const HIGHEST: u8> {
    pub number: u8,
    ghost low: { 1 ≤ number },
    ghost high: { number ≤ HIGHEST },
}

// A client's number, and a file's.
pub type ClientNumber = Number<4>;

pub type FileNumber = Number<16>;

// Two impls: an associated constant of a generic impl has no value in the logic.
impl ClientNumber {
    // The highest one.
    pub const LAST: u8 = 4;
}

impl FileNumber {
    // The highest one.
    pub const LAST: u8 = 16;
}

impl<const HIGHEST: u8> Number<HIGHEST> {
    // The number, if it can be one. Ruled out: 0 taken for one (`must-fail/number_0`), or one past the last
    // (`must-fail/one_past_the_last`); another number.
    // It is no `TryFrom`: there is one way to fail, and the contract says when.
    pub fn new(number: u8) -> Option<Self>
        ensures found { is_some result ≡ (leb 1 number && leb number HIGHEST) }
        ensures same { IfSome result (λ k. k.number ≡ number) }
    {
        if number < 1 {
            return None;
        }
        if HIGHEST < number {
            return None;
        }
        Some(Number { number })
    }

    // Its place where there is one for each number. Ruled out: the place of the number after it (`must-fail/place_after`).
    pub fn index(self) -> usize
        ensures { (result ≡ self.entry.number - 1) × (result < HIGHEST) }
    {
        usize::from(self.number) - 1
    }
}
