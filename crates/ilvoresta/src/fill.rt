// A list for the answer of a call, filled where it has the length that the call names.
ghost use Rattle.std.specs.Prelude.{◌≡◌, length};
ghost use Rattle.axis.specs.Codes.{first};
ghost use Rattle.ilvoresta.specs.Entry.{length_row, after};

use axis::refusal::Refusal;

// Code 0 with the values, or 17 and no change.
pub fn fill<T: Copy, const N: usize>(values: [T; N], answer: &mut [T]) -> u32
    ensures value { result ≡ first (length_row N (length answer.old)) }
    ensures answer_after { answer.new ≡ after result values answer.old }
{
    let Some(out) = answer.as_mut_array::<N>() else {
        return u32::from(Refusal::Answer);
    };
    *out = values;
    0
}
