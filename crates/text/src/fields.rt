// The fields of a line, parted by one tab.
ghost use Rattle.std.specs.Prelude.{◌≡◌, [], ◌+◌, ◌-◌, ◌≤◌, length, take, drop, get_or};
ghost use Rattle.std.specs.Iterator.{YieldsFirstRef, item_count};
ghost use Rattle.text.specs.Split.{split, until, after, left};

// A part of a line: from start up to end, end left out.
#[derive(Clone, Copy)]
pub struct Span {
    pub start: usize,
    pub end: usize,
}

// How many bytes stand ahead of the first `sep`: all of them where there is none.
pub fn len_until(bytes: &[u8], sep: u8) -> usize
    ensures value { result ≡ until sep bytes.now }
    ensures within { result ≤ length bytes.now }
{
    bytes.iter().position(|b| *b == sep).unwrap_or(bytes.len())
}

// Where the field that starts at `from` ends: at the next tab or with the line.
#[tactic(auto, using(crate::proofs::Split::end_behind))]
pub fn field_end(line: &[u8], from: usize) -> usize
    ensures { result ≡ from + until 9 (drop from line.now) }
{
    if line.len() <= from {
        return from;
    }
    from + len_until(&line[from..], b'\t')
}

// How many fields the line has: one more than tabs, so an empty line has one. The library's split leaves its loop at each tab, and
// takes nearly twice as long.
#[tactic(auto, using(crate::proofs::Split::count_here, crate::proofs::Split::count_on, crate::proofs::Split::count_end))]
pub fn count(line: &[u8]) -> usize
    ensures { result ≡ length (split 9 line.now) }
{
    let mut n: usize = 1;
    for b in line {
        if *b == b'\t' {
            n += 1;
        }
    }
    n
}

// Where field k stands, counted from 0, and what is left behind it. Past the last field it is the
// empty part at the line's end.
pub fn field(line: &[u8], k: usize) -> Span
    ensures inside { (result.start ≤ result.end) × (result.end ≤ length line.now) }
    ensures field { take (result.end - result.start) (drop result.start line.now) ≡ get_or (split 9 line.now) k [] }
    ensures behind { after 9 (drop result.end line.now) ≡ drop (k + 1) (split 9 line.now) }
{
    let mut at = 0;
    for _ in 0..k {
        let end = field_end(line, at);
        if line.len() <= end {
            return Span { start: end, end };
        }
        at = end + 1;
    }
    Span {
        start: at,
        end: field_end(line, at),
    }
}

// The fields of a line that are still to come. The library's split is not proved yet beside a `for`
// over a lent list in generic code, as `numbers` has it.
#[derive(Drop)]
pub struct Fields<'a> {
    pub rest: Option<&'a [u8]>,
}

impl<'a> Fields<'a> {
    // Those behind field k.
    pub fn behind(line: &'a [u8], k: usize) -> Fields<'a>
        ensures { left result.rest ≡ drop (k + 1) (split 9 line.now) }
    {
        let (_, behind) = line.split_at(field(line, k).end);
        Fields {
            rest: behind.get(1..),
        }
    }
}

impl<'a> Iterator for Fields<'a> {
    type Item = &'a [u8];

    ghost next_gives = { YieldsFirstRef (λ s. left s.rest) };

    ghost remaining = { item_count (λ s. left s.rest) };

    fn next(&mut self) -> Option<&'a [u8]> {
        let line = self.rest?;
        let (field, behind) = line.split_at(len_until(line, b'\t'));
        self.rest = behind.get(1..);
        Some(field)
    }
}
