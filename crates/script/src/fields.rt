// The fields of a line: what is between its spaces. Field 0 is the word, field i is argument i.
ghost use Rattle.std.specs.Prelude.{◌≡◌, ◌+◌, ◌*◌, ◌-◌, ◌≤◌, min};
ghost use Rattle.script.specs.Fields.{before_space, behind_space, from_field, digits_from, front, has_word};
ghost use Rattle.script.specs.Fields;

const SPACE: u8 = b' ';
// The value of a field that is no number, and of any number that is larger.
const TOO_LARGE: usize = 1000000;

// The number of arguments: one after each space. Ruled out: one after a tab (`must-fail/tab_before_an_argument`); the fields in its
// place, one more. By a `for`: `filter(..).count()` takes 1.6 times as long.
pub fn arguments(line: &[u8]) -> usize
    ensures { result ≡ Fields.arguments line.now }
{
    let mut n = 0;
    for c in line {
        n += usize::from(*c == SPACE);
    }
    n
}

// What stands before the first space, and what stands behind it.
fn cut(line: &[u8]) -> (&[u8], &[u8])
    ensures { (result.0.now ≡ before_space line.now) × (result.1.now ≡ behind_space line.now) }
{
    match line.iter().position(|c| *c == SPACE) {
        Some(i) => (&line[..i], &line[i + 1..]),
        None => (line, &[]),
    }
}

// The line from field n on.
fn field(line: &[u8], n: usize) -> &[u8]
    ensures { result.now ≡ from_field n line.now }
{
    let mut rest = line;
    for _i in 0..n {
        rest = cut(rest).1;
    }
    rest
}

// The number n with one more digit.
fn with_digit(n: usize, c: u8) -> usize
    requires { (n ≤ 1000000) × (48 ≤ c) × (c ≤ 57) }
    ensures { (result ≡ min (10 * n + (c - 48)) 1000000) × (result ≤ 1000000) }
{
    (10 * n + usize::from(c - b'0')).min(TOO_LARGE)
}

// The number at the front, up to the next space. `parse` isn't used, since it takes a sign too.
fn digits(rest: &[u8]) -> usize
    ensures { result ≡ digits_from 0 rest.now }
{
    let mut n = 0;
    for c in rest {
        if *c == SPACE {
            return n;
        }
        if !c.is_ascii_digit() {
            return TOO_LARGE;
        }
        n = with_digit(n, *c);
    }
    n
}

// The byte at the front; behind the end of a line it is a space.
// It is no `Option`: a missing field and an empty one are refused alike.
fn front(rest: &[u8]) -> u8
    ensures { result ≡ front rest.now }
{
    rest.first().copied().unwrap_or(SPACE)
}

// Argument n, counted from 1. It is no `Option`: a field that is no number and a number that is too large are refused by one
// test, against a limit. Ruled out: `12a` taken for 12 (`must-fail/half_a_number`); a missing argument taken for 0.
pub fn argument(line: &[u8], n: usize) -> usize
    ensures { result ≡ Fields.argument n line.now }
{
    let rest = field(line, n);
    if front(rest) == SPACE {
        return TOO_LARGE;
    }
    digits(rest)
}

// Whether the line's word is this one, up to its first space. Ruled out: `beginning 1` taken for `begin 1`
// (`must-fail/prefix_is_the_word`); a word that a tab ends (`must-fail/tab_ends_the_word`). No more of the line is read than of the
// word: a line that is no command may be long.
pub fn has_word(line: &[u8], word: &[u8]) -> bool
    ensures { result ≡ has_word word.now line.now }
{
    let word = cut(word).0;
    line.starts_with(word) && front(&line[word.len()..]) == SPACE
}
