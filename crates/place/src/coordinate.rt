// The coordinates of a place on the ray, each by one division over the deciding axis' difference.
ghost use Rattle.std.specs.Prelude.{◌≡◌, true, ◌≤◌};
ghost use Rattle.axis.specs.Codes.{inside, first};
ghost use Rattle.ray.specs.Codes.{end_rows};
ghost use Rattle.line.specs.Raised.{Small};
ghost use Rattle.place.specs.Answers.{coordinate, point_at};

use crate::Point;
use crate::fraction::Fraction;
use axis::{Limits, raised};
use ray::Ray;

// Told from the lower limit up the ends have no sign.
fn coordinate_at(m: Limits, p: i32, q: i32, f: Fraction) -> f64
    requires small { Small m }
    requires both_inside { (inside m p ≡ true) × (inside m q ≡ true) }
    requires on_ray { f.num ≤ f.den }
    ensures { result ≡ coordinate (record { p = p; q = q }) f.num f.den }
{
    let k = m.coord;
    let told = f.along(raised(p, k), raised(q, k));
    let by = u64::from(k) * f.den;
    let num = (told as i64) - (by as i64);
    (num as f64) / (f.den as f64)
}

pub fn point_at(m: Limits, r: Ray, f: Fraction) -> Point
    requires small { Small m }
    requires ends { first (end_rows m r) ≡ 0 }
    requires on_ray { f.num ≤ f.den }
    ensures { result ≡ point_at r f.num f.den }
{
    Point {
        x: coordinate_at(m, r.p.x, r.q.x, f),
        y: coordinate_at(m, r.p.y, r.q.y, f),
        z: coordinate_at(m, r.p.z, r.q.z, f),
    }
}
