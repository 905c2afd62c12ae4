// The fields of a front that a lay-down sets.
ghost use Rattle.std.specs.Prelude.{◌≡◌};
ghost use Rattle.lay_down.specs.Page.{fields_set};

use wire::writing;

// Time modified and the tile directory's reference; time opened, the file-space and the metadata reference zero.
pub fn set_fields(out: &mut [u8], time: u64, directory: u64)
    ensures { out.new ≡ fields_set out.old time directory }
{
    writing::put_u64(out, 40, time);
    writing::put_zeros(out, 48, 8);
    writing::put_zeros(out, 56, 8);
    writing::put_zeros(out, 64, 8);
    writing::put_u64(out, 80, directory);
}
