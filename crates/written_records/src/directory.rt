// The pieces of a tile directory's body, put into a lent buffer. What does not fit whole is not written.
ghost use Rattle.std.specs.Prelude.{◌≡◌, ◌+◌, ◌*◌, ◌/◌};
ghost use Rattle.wire.specs.Bytes.{bytes_of, put};
ghost use Rattle.record.specs.Record.{content_at};
ghost use Rattle.written_records.specs.Directory.{directory_form};

use wire::writing;

// What stands before the references: the form, reserved bytes, and the rectangle of so many rows and columns of tiles.
pub fn put_form(out: &mut [u8], at: usize, down: u32, across: u32)
    ensures { out.new ≡ put out.old at (directory_form down across) }
{
    let room = out.len();
    if room < 24 {
        return;
    }
    if room - 24 < at {
        return;
    }
    writing::put_zeros(out, at, 16);
    writing::put_u32(out, at + 16, down);
    writing::put_u32(out, at + 20, across);
}

// The compact reference of tile i, where the references begin at `at`, to the record that starts at `start`.
pub fn put_reference(out: &mut [u8], at: usize, i: u32, start: usize)
    ensures { out.new ≡ put out.old (at + 4 * i) (bytes_of 4 (content_at start / 8)) }
{
    let p = 4 * (i as usize);
    let room = out.len();
    if room < p {
        return;
    }
    if room - p < at {
        return;
    }
    let content = start / 8 + 1;
    writing::put_u32(out, at + p, (content % 4294967296) as u32);
}
