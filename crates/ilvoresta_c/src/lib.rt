// The C entry points, for the viewer: those of `ilvoresta`, exported under the names that include/ilvoresta.h has. To C a list is a
// pointer and then the number of its elements; lists lent together do not overlap.
#![tactic(auto)]

ghost use Rattle.axis.specs.Codes.{tenths};
ghost use Rattle.tracing.specs.Answer.{lists};
ghost use Rattle.ilvoresta.specs.Entry.{grid_of, ray_of, Traced, Placed};

// Returns the code. On code 0 the first places of `voxels` and `parts` hold the entries, and `answer` the six numbers; else all
// three are as they were.
#[unsafe(no_mangle)]
pub extern "C" fn ilvoresta_trace(
    nx: u32,
    ny: u32,
    nz: u32,
    dx: u32,
    dy: u32,
    dz: u32,
    bx: i32,
    by: i32,
    bz: i32,
    px: i32,
    py: i32,
    pz: i32,
    qx: i32,
    qy: i32,
    qz: i32,
    densities: &[u16],
    voxels: &mut [u32],
    parts: &mut [u64],
    answer: &mut [u64],
) -> u32
    ensures { Traced tenths (grid_of nx ny nz dx dy dz bx by bz) (ray_of px py pz qx qy qz)
        (lists densities.now voxels.old parts.old 0) answer.old result voxels.new parts.new answer.new }
{
    ilvoresta::ilvoresta_trace(
        nx, ny, nz, dx, dy, dz, bx, by, bz, px, py, pz, qx, qy, qz, densities, voxels, parts,
        answer,
    )
}

// Returns the code. On code 0 `answer` holds enter and leave, or two zeros; else it is as it was.
#[unsafe(no_mangle)]
pub extern "C" fn ilvoresta_place(
    nx: u32,
    ny: u32,
    nz: u32,
    dx: u32,
    dy: u32,
    dz: u32,
    bx: i32,
    by: i32,
    bz: i32,
    px: i32,
    py: i32,
    pz: i32,
    qx: i32,
    qy: i32,
    qz: i32,
    answer: &mut [f64],
) -> u32
    ensures { Placed tenths (grid_of nx ny nz dx dy dz bx by bz) (ray_of px py pz qx qy qz) answer.old result answer.new }
{
    ilvoresta::ilvoresta_place(
        nx, ny, nz, dx, dy, dz, bx, by, bz, px, py, pz, qx, qy, qz, answer,
    )
}
