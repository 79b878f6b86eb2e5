// A line that is refused.
ghost use Rattle.std.specs.Prelude.{◌≡◌, ◌++◌, ◌+◌, ◌^◌, ◌≤◌, ◌<◌, length, take};
ghost use Rattle.load.specs.Line.{bad_line};

use text::put::put_line;

// BAD, the number of the line behind so many, and the code, whatever number it is (`bad_line`): 46 bytes at most.
pub fn put_bad(lines: u64, code: u32, out: &mut [u8], at: usize) -> usize
    requires { (lines + 1 < 2 ^ 64) × (at + 46 ≤ length out.old) }
    ensures upper_bound { result ≤ at + 46 }
    ensures out_after { take result out.new ≡ take at out.old ++ bad_line lines code }
{
    put_line(out, at, b"BAD", &[lines + 1, u64::from(code)])
}
