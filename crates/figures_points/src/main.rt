// The place and the point call run: each line is a ray, what it was answered, and 1 where the answers are the ones that stand
// here, αmin and αmax and then both points.
#![tactic(auto)]

use axis::Axis;
use place::call::{place, points};
use place::{Mark, Place, Point, Points};
use ray::{End, Grid, Ray};
use std::io;

// A ray from p to q, the mark expected, and the eight floats, which are zeros on a miss and a refusal.
struct Case {
    tried: &'static str,
    p: [i32; 3],
    q: [i32; 3],
    mark: Mark,
    floats: [f64; 8],
}

fn end(c: [i32; 3]) -> End {
    let [x, y, z] = c;
    End { x, y, z }
}

fn expected(c: &Case) -> (Place, Points) {
    let [enter, leave, ex, ey, ez, lx, ly, lz] = c.floats;
    let found = match c.mark {
        Mark::Refused(code) => Place::Refused(code),
        Mark::Miss => Place::Miss,
        Mark::Hit => Place::Hit { enter, leave },
    };
    let drawn = Points {
        mark: c.mark,
        enter: Point {
            x: ex,
            y: ey,
            z: ez,
        },
        leave: Point {
            x: lx,
            y: ly,
            z: lz,
        },
    };
    (found, drawn)
}

fn told(rt: &impl Print, m: Mark) -> io::Result<()> {
    match m {
        Mark::Refused(code) => print!(rt; ": refused {code}"),
        Mark::Miss => print!(rt; ": miss"),
        Mark::Hit => print!(rt; ": hit"),
    }
}

fn run(rt: &impl Print, g: Grid, c: &Case) -> io::Result<()> {
    let r = Ray {
        p: end(c.p),
        q: end(c.q),
    };
    let found = points(g, r);
    let same = (place(g, r), found) == expected(c);
    rt.print(c.tried)?;
    told(rt, found.mark)?;
    println!(rt; " {}", u8::from(same))
}

fn run_all(rt: &impl Print, g: Grid, cases: &[Case]) -> io::Result<()> {
    for c in cases {
        run(rt, g, c)?;
    }
    Ok(())
}

const BENCH_A_TO_J: [Case; 10] = [
    Case {
        tried: "A",
        p: [-10, 5, 5],
        q: [40, 5, 5],
        mark: Mark::Hit,
        floats: [0.2, 0.8, 0.0, 5.0, 5.0, 30.0, 5.0, 5.0],
    },
    Case {
        tried: "B",
        p: [40, 5, 5],
        q: [-10, 5, 5],
        mark: Mark::Hit,
        floats: [0.2, 0.8, 30.0, 5.0, 5.0, 0.0, 5.0, 5.0],
    },
    Case {
        tried: "C",
        p: [0, 0, 5],
        q: [30, 20, 5],
        mark: Mark::Hit,
        floats: [0.0, 1.0, 0.0, 0.0, 5.0, 30.0, 20.0, 5.0],
    },
    Case {
        tried: "D",
        p: [0, 0, 5],
        q: [20, 20, 5],
        mark: Mark::Hit,
        floats: [0.0, 1.0, 0.0, 0.0, 5.0, 20.0, 20.0, 5.0],
    },
    Case {
        tried: "E",
        p: [10, -10, 5],
        q: [10, 30, 5],
        mark: Mark::Hit,
        floats: [0.25, 0.75, 10.0, 0.0, 5.0, 10.0, 20.0, 5.0],
    },
    Case {
        tried: "F",
        p: [30, -10, 5],
        q: [30, 30, 5],
        mark: Mark::Hit,
        floats: [0.25, 0.75, 30.0, 0.0, 5.0, 30.0, 20.0, 5.0],
    },
    Case {
        tried: "G",
        p: [-10, 10, 5],
        q: [10, -10, 5],
        mark: Mark::Miss,
        floats: [0.0; 8],
    },
    Case {
        tried: "H",
        p: [12, 3, 5],
        q: [17, 3, 5],
        mark: Mark::Hit,
        floats: [0.0, 1.0, 12.0, 3.0, 5.0, 17.0, 3.0, 5.0],
    },
    Case {
        tried: "I",
        p: [5, 5, 5],
        q: [10, 5, 5],
        mark: Mark::Hit,
        floats: [0.0, 1.0, 5.0, 5.0, 5.0, 10.0, 5.0, 5.0],
    },
    Case {
        tried: "J",
        p: [10, 5, 5],
        q: [5, 5, 5],
        mark: Mark::Hit,
        floats: [0.0, 1.0, 10.0, 5.0, 5.0, 5.0, 5.0, 5.0],
    },
];

// Places that are no plane's, and a refused ray.
const BENCH_OTHER: [Case; 3] = [
    Case {
        tried: "quarter",
        p: [-10, 5, 5],
        q: [30, 5, 5],
        mark: Mark::Hit,
        floats: [0.25, 1.0, 0.0, 5.0, 5.0, 30.0, 5.0, 5.0],
    },
    Case {
        tried: "thirds",
        p: [-1, -2, 1],
        q: [47, 22, 8],
        mark: Mark::Hit,
        floats: [
            0.08333333333333333,
            0.6458333333333334,
            3.0,
            0.0,
            1.5833333333333333,
            30.0,
            13.5,
            5.520833333333333,
        ],
    },
    Case {
        tried: "out",
        p: [-7, 3, 9],
        q: [16385, 3, 9],
        mark: Mark::Refused(5),
        floats: [0.0; 8],
    },
];

const WIDE: [Case; 6] = [
    Case {
        tried: "corners",
        p: [-16384, -16384, -16384],
        q: [16384, 16384, 16384],
        mark: Mark::Hit,
        floats: [
            0.0, 1.0, -16384.0, -16384.0, -16384.0, 16384.0, 16384.0, 16384.0,
        ],
    },
    Case {
        tried: "unit",
        p: [0, 0, 0],
        q: [1, 0, 0],
        mark: Mark::Hit,
        floats: [0.0, 1.0, 0.0, 0.0, 0.0, 1.0, 0.0, 0.0],
    },
    Case {
        tried: "unit down",
        p: [16384, -16384, 3],
        q: [16383, -16383, 2],
        mark: Mark::Hit,
        floats: [0.0, 1.0, 16384.0, -16384.0, 3.0, 16383.0, -16383.0, 2.0],
    },
    Case {
        tried: "low edge",
        p: [-16384, -16384, -16384],
        q: [-16383, -16384, -16384],
        mark: Mark::Hit,
        floats: [
            0.0, 1.0, -16384.0, -16384.0, -16384.0, -16383.0, -16384.0, -16384.0,
        ],
    },
    Case {
        tried: "long",
        p: [-16384, 16383, -1],
        q: [16383, -16384, 0],
        mark: Mark::Hit,
        floats: [0.0, 1.0, -16384.0, 16383.0, -1.0, 16383.0, -16384.0, 0.0],
    },
    Case {
        tried: "high face",
        p: [-16384, 0, 16384],
        q: [16384, 1, 16384],
        mark: Mark::Hit,
        floats: [0.0, 1.0, -16384.0, 0.0, 16384.0, 16384.0, 1.0, 16384.0],
    },
];

// Still in the far plane of x and y, and of z, which has one voxel.
const FAR_FACES: [Case; 2] = [
    Case {
        tried: "far x and y",
        p: [30, 20, -10],
        q: [30, 20, 30],
        mark: Mark::Hit,
        floats: [0.25, 0.5, 30.0, 20.0, 0.0, 30.0, 20.0, 10.0],
    },
    Case {
        tried: "far z",
        p: [40, 5, 10],
        q: [-40, 5, 10],
        mark: Mark::Hit,
        floats: [0.125, 0.5, 30.0, 5.0, 10.0, 0.0, 5.0, 10.0],
    },
];

fn main(rt: HostRuntime) -> io::Result<()> {
    let bench = Grid {
        x: Axis { n: 3, d: 10, b: 0 },
        y: Axis { n: 2, d: 10, b: 0 },
        z: Axis { n: 1, d: 10, b: 0 },
    };
    let a = Axis {
        n: 8,
        d: 4096,
        b: -16384,
    };
    let wide = Grid { x: a, y: a, z: a };
    run_all(&rt, bench, &BENCH_A_TO_J)?;
    run_all(&rt, bench, &BENCH_OTHER)?;
    run_all(&rt, wide, &WIDE)?;
    run_all(&rt, bench, &FAR_FACES)
}
