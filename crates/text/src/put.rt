// Lines of output, written into a lent buffer. Every writer starts at a place, answers the place
// behind what it wrote, and keeps what stands ahead of the first. The buffer is lent and of a fixed size, as there is no heap.
ghost use Rattle.std.specs.Prelude.{◌≡◌, [], ◌∷◌, ◌++◌, ◌+◌, ◌*◌, ◌≤◌, ◌<◌, length, take};
ghost use Rattle.text.specs.Decimal.{decimal};
ghost use Rattle.text.specs.Line.{spaced, line_of};

fn put_byte(out: &mut [u8], at: usize, b: u8) -> usize
    requires { at < length out.old }
    ensures value { result ≡ at + 1 }
    ensures out_after { take result out.new ≡ take at out.old ++ b ∷ [] }
{
    out[at] = b;
    at + 1
}

pub fn put_bytes(out: &mut [u8], at: usize, bytes: &[u8]) -> usize
    requires { at + length bytes.now ≤ length out.old }
    ensures value { result ≡ at + length bytes.now }
    ensures out_after { take result out.new ≡ take at out.old ++ bytes.now }
{
    let end = at + bytes.len();
    out[at..end].copy_from_slice(bytes);
    end
}

#[tactic(auto, using(crate::proofs::Decimal::decimal_one, crate::proofs::Written::decimal_more, crate::proofs::Decimal::length_one, crate::proofs::Decimal::length_many))]
pub fn put_decimal(out: &mut [u8], at: usize, x: u64) -> usize
    requires { at + length (decimal x) ≤ length out.old }
    ensures value { result ≡ at + length (decimal x) }
    ensures out_after { take result out.new ≡ take at out.old ++ decimal x }
{
    if x < 10 {
        return put_byte(out, at, b'0' + x as u8);
    }
    let last = put_decimal(out, at, x / 10);
    put_byte(out, last, b'0' + (x % 10) as u8)
}

// A number of 64 bits has at most 20 digits, and a space stands ahead of it.
#[tactic(auto, using(crate::proofs::Decimal::length_word))]
fn put_spaced(out: &mut [u8], at: usize, x: u64) -> usize
    requires { at + 21 ≤ length out.old }
    ensures upper_bound { result ≤ at + 21 }
    ensures out_after { take result out.new ≡ take at out.old ++ (32 ∷ decimal x) }
{
    let digits = put_byte(out, at, b' ');
    put_decimal(out, digits, x)
}

#[tactic(auto, using(crate::proofs::Written::spaced_none, crate::proofs::Written::spaced_more))]
fn put_numbers(out: &mut [u8], at: usize, numbers: &[u64]) -> usize
    requires { at + 21 * length numbers.now ≤ length out.old }
    ensures upper_bound { result ≤ at + 21 * length numbers.now }
    ensures out_after { take result out.new ≡ take at out.old ++ spaced numbers.now }
{
    let mut to = at;
    for x in numbers {
        to = put_spaced(out, to, *x);
    }
    to
}

// A whole line: a word, each number after one space, and LF.
#[tactic(auto, using(crate::proofs::Written::line_made))]
pub fn put_line(out: &mut [u8], at: usize, word: &[u8], numbers: &[u64]) -> usize
    requires { at + length word.now + 21 * length numbers.now + 1 ≤ length out.old }
    ensures upper_bound { result ≤ at + length word.now + 21 * length numbers.now + 1 }
    ensures out_after { take result out.new ≡ take at out.old ++ line_of word.now numbers.now }
{
    let behind_word = put_bytes(out, at, word);
    let behind_numbers = put_numbers(out, behind_word, numbers);
    put_byte(out, behind_numbers, b'\n')
}
