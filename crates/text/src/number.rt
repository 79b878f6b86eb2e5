// A number of RULES 10.2; a minus on an integer only.
ghost use Rattle.std.specs.Prelude.{◌≡◌};
ghost use Rattle.text.specs.Number.{natural_of, integer_of};

// The number that t is the numeral of, where no minus is allowed.
#[tactic(auto, using(crate::proofs::Digits::reads))]
pub fn natural_in(t: &[u8]) -> Option<u32>
    ensures { result ≡ natural_of t.now }
{
    let (first, behind) = t.split_first()?;
    if *first == b'0' {
        return behind.is_empty().then_some(0);
    }
    let mut v: u32 = 0;
    for d in t {
        if !d.is_ascii_digit() || 99999 < v {
            return None;
        }
        v = v * 10 + u32::from(*d - b'0');
    }
    Some(v)
}

// The number that t is the numeral of, where a minus is allowed.
#[tactic(auto, using(crate::proofs::Sign::reads))]
pub fn integer_in(t: &[u8]) -> Option<i32>
    ensures { result ≡ integer_of t.now }
{
    let Some(size) = t.strip_prefix(b"-") else {
        return Some(natural_in(t)? as i32);
    };
    match natural_in(size)? {
        0 => None,
        v => Some(-(v as i32)),
    }
}
