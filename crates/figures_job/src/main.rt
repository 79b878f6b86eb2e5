// The worked example of RULES 10.6 by the whole job in memory: into as many bytes as it prints, and
// into one byte less.
#![tactic(auto)]

use job::whole::job;
use std::io;

fn show(rt: &impl Print, input: &[u8], out: &mut [u8]) -> io::Result<()> {
    let Some(n) = job(input, out) else {
        return println!(rt; "too little room");
    };
    rt.write_all(&out[..n])
}

fn main(rt: HostRuntime) -> io::Result<()> {
    let input =
        b"GRID\t3\t2\t1\t10\t10\t10\t0\t0\t0\nDENS\t1\t2\t3\nDENS\t4\t5\t6\nRAY\t0\t0\t5\t30\t20\t5\n";
    let mut enough: [u8; 94] = [0; 94];
    let mut less: [u8; 93] = [0; 93];
    show(&rt, input, &mut enough)?;
    show(&rt, input, &mut less)
}
