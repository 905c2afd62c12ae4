// The cells of a rectangle in one call.
ghost use Rattle.std.specs.Prelude.{◌≡◌, [], ◌∷◌, length};
ghost use Rattle.wire.specs.Bytes.{put};
ghost use Rattle.answer.specs.Answers.{cell_kind, cell_bits};
ghost use Rattle.rectangles.specs.Rectangles.{cells_given, given_number, given_count, written};
ghost use Rattle.gvrs_c.specs.Report.{reported};

// The kind and the bits of each cell of an element in a rectangle, by rows, in front of `kinds` and `bits`: 0, and out[0] takes their
// number; else the refusal's number, its place, and nothing else is written. What `memory` holds afterwards is free.
#[unsafe(no_mangle)]
pub extern "C" fn gvrs_cells(
    file: &[u8],
    compressor: u32,
    element: u64,
    row: u64,
    column: u64,
    rows: u64,
    columns: u64,
    memory: &mut [u32],
    kinds: &mut [u32],
    bits: &mut [u32],
    out: &mut [u64],
) -> u32
    ensures number { result ≡ given_number (cells_given file.now element row column rows columns (length kinds.old) (length bits.old)) }
    ensures told { out.new ≡ reported (given_count (cells_given file.now element row column rows columns (length kinds.old) (length bits.old)) ∷ []) out.old }
    ensures kinds { kinds.new ≡ put kinds.old 0 (written cell_kind file.now compressor element row column rows columns (cells_given file.now element row column rows columns (length kinds.old) (length bits.old))) }
    ensures bits { bits.new ≡ put bits.old 0 (written cell_bits file.now compressor element row column rows columns (cells_given file.now element row column rows columns (length kinds.old) (length bits.old))) }
{
    let given = rectangles::cells_in(
        file, compressor, element, row, column, rows, columns, memory, kinds, bits,
    );
    crate::report(out, 0, rectangles::given_count(given));
    rectangles::given_number(given)
}
