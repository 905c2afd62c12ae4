// What benches/ measures and the C interface does not offer: the look-up that does not repeat the check, the storing of a tile that does
// not, and the checksum by itself.
#![tactic(auto)]

ghost use Rattle.std.specs.Prelude.{◌≡◌};
ghost use Rattle.answer.specs.Answers.{cell_bits, laid_number};
ghost use Rattle.bodies.specs.TileDirectory.{tile_directory_at};
ghost use Rattle.tile_routes.specs.Ways.{referred_to};
ghost use Rattle.cells.specs.inner.Lookups.{looked_up};
ghost use Rattle.crc32c.specs.Crc.{crc_of};
ghost use Rattle.correct.specs.Calls.{Call, change_on, answer_by, stopped_by};

// The bits of a cell by the directory, without the check; 256 is no content's compressor index.
#[unsafe(no_mangle)]
pub extern "C" fn gvrs_bench_look_up(file: &[u8], row: u64, column: u64, element: u64) -> u32
    ensures { result ≡ cell_bits (looked_up file.now 256 (referred_to file.now (tile_directory_at file.now)) row column element) }
{
    answer::cell_bits(cells::reads::cell_of_accepted(file, 256, row, column, element))
}

// CRC32C of all the bytes.
#[unsafe(no_mangle)]
pub extern "C" fn gvrs_bench_crc(file: &[u8]) -> u32
    ensures { result ≡ crc_of file.now }
{
    crc32c::crc_of(file)
}

// A tile stored in a page that is taken to be open for writing.
#[unsafe(no_mangle)]
pub extern "C" fn gvrs_bench_store_on(file: &mut [u8], n: u64, tile: u64, cells: &[u8]) -> u32
    ensures number { result ≡ laid_number (answer_by (change_on (Call.Storing tile cells.now) file.old n)) }
    ensures buffer { file.new ≡ stopped_by 18446744073709551615 (change_on (Call.Storing tile cells.now) file.old n) file.old }
{
    let x = calls::on::store_on(file, n as usize, tile, cells, calls::ALL);
    let laid = x.answer;
    answer::laid_number(laid)
}
