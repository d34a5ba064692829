// Bytes as uppercase hexadecimal digits. Ruled out: lowercase letters (`must-fail/lowercase_digits`); the low digit
// first.
ghost use Rattle.std.specs.Prelude.{◌≡◌, ◌+◌, ◌*◌, ◌/◌, ◌%◌, ◌≤◌, ◌<◌, length, take};
ghost use Rattle.std.proofs.lemmas.List.Edits.{sets};
ghost use Rattle.script.specs.Texts.{hex_digit, hex_text, in_hex};

// A digit in ASCII. It is written out here: of the kit's `hex`, what writes into a slice writes lowercase, and the rest takes a
// heap.
fn hex_digit(n: u8) -> u8
    requires { n < 16 }
    ensures { result ≡ hex_digit n }
{
    if n < 10 { b'0' + n } else { b'A' - 10 + n }
}

// The digits of every byte are written to the front of `out`. By index: of `as_chunks_mut` the kit doesn't say what the slice
// ends as.
fn put_hex(bytes: &[u8], out: &mut [u8])
    requires { 2 * length bytes.now ≤ length out.old }
    ensures { out.new ≡ sets out.old 0 (hex_text bytes.now) }
{
    for (i, b) in bytes.iter().enumerate() {
        out[2 * i] = hex_digit(b / 16);
        out[2 * i + 1] = hex_digit(b % 16);
    }
}

// Writes two digits for each byte to the front of `out`, and hands back how many; if they don't fit, writes nothing. It is no
// `Option`: a caller writes as many out as it is told, and none if none fit.
pub fn hex(bytes: &[u8], out: &mut [u8]) -> usize
    ensures out_after { (record { count = result; out = out.new }) ≡ in_hex bytes.now out.old }
    ensures upper_bound { (result ≤ length out.new) × (result ≡ length (take result out.new)) }
{
    if out.len() / 2 < bytes.len() {
        return 0;
    }
    put_hex(bytes, out);
    2 * bytes.len()
}
