// A set of numbers in words of 64 bits. Four words hold any byte, sixteen any number below 1,024.
#![tactic(auto)]

ghost use Rattle.std.specs.Prelude.{length, ◌≡◌, not, ◌*◌, ◌/◌, ◌%◌, ◌^◌, ◌<◌, replicate, unwrap_or, IfSome};
ghost use Rattle.byteset.specs.Bits.{has_bit};
ghost use Rattle.byteset.specs.Set.{has_byte, with_byte, passes_over, LowestFailing};

// The word that has only the bit of number x.
fn mask(x: usize) -> u64
    ensures { result ≡ 2 ^ (x % 64) }
{
    1u64 << (x % 64)
}

// How many bits of the word are set below its lowest clear bit: 64 where none is clear, as std's `trailing_ones` answers.
fn low_ones(w: u64) -> usize
    ensures { LowestFailing (has_bit w) 64 result }
{
    // No `From` leads from `u32` to `usize`.
    w.trailing_ones() as usize
}

// A set of numbers below 64 * N: number x is bit x % 64 of word x / 64.
#[derive(Clone, Copy, Debug, PartialEq, Eq)]
pub struct BitSet<const N: usize> {
    pub words: [u64; N],
    ghost long: { length words ≡ N },
}

impl<const N: usize> BitSet<N> {
    // The empty set. Ruled out: a set with a number in each word (`must-fail/not_empty_at_first`); the set of all numbers.
    pub fn new() -> Self
        ensures { result.words ≡ replicate N 0 }
    {
        BitSet { words: [0; N] }
    }

    // Whether number x is in the set.
    pub fn has(&self, x: usize) -> bool
        requires { x < 64 * N }
        ensures { result ≡ has_byte self.now.words x }
    {
        self.words[x / 64] & mask(x) != 0
    }

    // Puts number x into the set. The answer is whether it was absent. Ruled out: an answer whether it is there afterwards;
    // another number put in with it; numbers 32 apart that share a bit (`must-fail/numbers_share_a_bit`).
    pub fn insert(&mut self, x: usize) -> bool
        requires { x < 64 * N }
        ensures { (result ≡ not (has_byte self.old.words x)) × (self.new.words ≡ with_byte self.old.words x) }
    {
        let m = mask(x);
        let word = self.words[x / 64];
        self.words[x / 64] = word | m;
        word & m == 0
    }
}

impl BitSet<4> {
    // The lowest byte from `start` on and below n that is not in the set: the lowest clear bit of the first word that has one, with
    // the bits before `start` taken as set. Ruled out: a byte before `start`; a search that begins in a later word
    // (`must-fail/start_in_a_later_word`).
    pub fn lowest_missing(&self, start: usize, n: u8) -> Option<u8>
        ensures lowest { LowestFailing (passes_over start self.now.words) n (unwrap_or result n) }
        ensures below { IfSome result (λ r. r < n) }
    {
        let mut before = mask(start) - 1;
        // By number, which the answer is made of: `iter().enumerate().skip(start / 64)` only gives it back beside the word.
        for i in start / 64..4 {
            let ones = low_ones(self.words[i] | before);
            if ones < 64 {
                let r = 64 * i + ones;
                // A number below n is a byte, so `try_from` would test in vain.
                return if r < usize::from(n) {
                    Some(r as u8)
                } else {
                    None
                };
            }
            before = 0;
        }
        None
    }
}
