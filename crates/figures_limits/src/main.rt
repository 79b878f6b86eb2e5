// The limits of RULES 1, run: each line is what was tried and the code that answered it.
#![tactic(auto)]

use axis::Axis;
use axis::refusal::Refusal;
use ray::{End, Grid, Ray, check};
use std::io;

fn say(rt: &impl Print, tried: &str, code: u32) -> io::Result<()> {
    println!(rt; "{tried}: {code}")
}

fn code_of<T: Drop>(answer: Result<T, Refusal>) -> u32 {
    match answer {
        Ok(_) => 0,
        Err(refusal) => u32::from(refusal),
    }
}

// The code of an axis by its checked constructor.
fn axis_of(n: u32, d: u32, b: i32) -> u32 {
    code_of(Axis::checked(n, d, b))
}

fn grid_of(x: Axis, y: Axis, z: Axis) -> u32 {
    code_of(check::grid(Axis::TENTHS, Grid { x, y, z }))
}

// The code of a grid whose last axis alone is out of the ordinary.
fn last_of(n: u32, d: u32, b: i32) -> u32 {
    let plain = Axis { n: 1, d: 1, b: 0 };
    grid_of(plain, plain, Axis { n, d, b })
}

// The code of the ends (0, 0, 0) and (0, 0, z).
fn ends_to(z: i32) -> u32 {
    let p = End { x: 0, y: 0, z: 0 };
    let q = End { x: 0, y: 0, z };
    code_of(check::ends(Axis::TENTHS, Ray { p, q }))
}

fn counts(rt: &impl Print) -> io::Result<()> {
    say(rt, "n 0", axis_of(0, 1, 0))?;
    say(rt, "n 1", axis_of(1, 1, 0))?;
    say(rt, "n 512", last_of(512, 1, 0))?;
    say(rt, "n 513", last_of(513, 1, 0))?;
    say(rt, "n 4294967295", last_of(4294967295, 1, 0))?;
    say(rt, "d 0", axis_of(1, 0, 0))?;
    say(rt, "d 4096", last_of(1, 4096, 0))?;
    say(rt, "d 4097", last_of(1, 4097, 0))?;
    say(rt, "d 4294967295", last_of(1, 4294967295, 0))
}

fn planes(rt: &impl Print) -> io::Result<()> {
    say(rt, "b -16384", last_of(1, 1, -16384))?;
    say(rt, "b -16385", last_of(1, 1, -16385))?;
    say(rt, "b 16383, far plane 16384", last_of(1, 1, 16383))?;
    say(rt, "b 16384, far plane 16385", last_of(1, 1, 16384))?;
    say(rt, "b -16384, far plane 16384", last_of(8, 4096, -16384))?;
    say(rt, "b -16384, far plane 20480", axis_of(9, 4096, -16384))?;
    say(rt, "b -2147483648", last_of(512, 4096, -2147483648))?;
    say(rt, "b 2147483647", last_of(512, 4096, 2147483647))
}

// A lower code of a later axis comes first.
fn order(rt: &impl Print) -> io::Result<()> {
    let n_out = Axis { n: 0, d: 1, b: 0 };
    let d_out = Axis { n: 1, d: 0, b: 0 };
    let b_out = Axis {
        n: 1,
        d: 1,
        b: 16384,
    };
    say(rt, "planes, d, n", grid_of(b_out, d_out, n_out))?;
    say(rt, "planes, d, d", grid_of(b_out, d_out, d_out))?;
    say(rt, "all three out", axis_of(0, 0, 16385))?;
    say(rt, "d and planes out", axis_of(1, 4097, 16385))
}

fn ends(rt: &impl Print) -> io::Result<()> {
    say(rt, "end 16384", ends_to(16384))?;
    say(rt, "end 16385", ends_to(16385))?;
    say(rt, "end -16384", ends_to(-16384))?;
    say(rt, "end -16385", ends_to(-16385))?;
    say(rt, "end 2147483647", ends_to(2147483647))?;
    say(rt, "end -2147483648", ends_to(-2147483648))?;
    say(rt, "ends equal", ends_to(0))?;
    let far = End {
        x: 0,
        y: -16385,
        z: 0,
    };
    let both = Ray { p: far, q: far };
    say(
        rt,
        "ends equal and outside",
        code_of(check::ends(Axis::TENTHS, both)),
    )
}

fn main(rt: HostRuntime) -> io::Result<()> {
    counts(&rt)?;
    planes(&rt)?;
    order(&rt)?;
    ends(&rt)
}
