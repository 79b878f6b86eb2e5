// The limits as the axis description has them, for the comparison of the C header with them.
ghost use Rattle.std.specs.Prelude.{◌≡◌};
ghost use Rattle.axis.specs.Codes.{tenths};

use axis::Axis;

#[unsafe(no_mangle)]
pub extern "C" fn outside_count_max() -> u32
    ensures { result ≡ tenths.n }
{
    Axis::COUNT_MAX
}

#[unsafe(no_mangle)]
pub extern "C" fn outside_spacing_max() -> u32
    ensures { result ≡ tenths.d }
{
    Axis::SPACING_MAX
}

#[unsafe(no_mangle)]
pub extern "C" fn outside_coord_max() -> u32
    ensures { result ≡ tenths.coord }
{
    Axis::COORD_MAX
}
