// Answers put into lists; a list of another length is left as it was.
ghost use Rattle.std.specs.Prelude.{◌≡◌};
ghost use Rattle.place.specs.Answers.{mark_code};
ghost use Rattle.outside.specs.Doors.{put, mark_of, floats_of};

use place::{Mark, Points};

pub fn put<T: Copy, const N: usize>(new: [T; N], out: &mut [T])
    ensures { out.new ≡ put new out.old }
{
    if let Some(places) = out.as_mut_array::<N>() {
        *places = new;
    }
}

pub fn floats_of(a: Points) -> [f64; 6]
    ensures { result ≡ floats_of a }
{
    let p = a.enter;
    let q = a.leave;
    [p.x, p.y, p.z, q.x, q.y, q.z]
}

pub fn mark_of(m: Mark) -> u32
    ensures { result ≡ mark_of m }
{
    match m {
        Mark::Refused(_) => 0,
        Mark::Miss => 1,
        Mark::Hit => 2,
    }
}

pub fn code_in(m: Mark) -> u32
    ensures { result ≡ mark_code m }
{
    match m {
        Mark::Refused(code) => code,
        Mark::Miss | Mark::Hit => 0,
    }
}
