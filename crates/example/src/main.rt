// crates/example/src/main.rt
//
// A product above the store: it judges rectangles of the page that its first argument names, and prints what the page is and some of its
// elements, cells and contents. It lists the crates `deeds`, `store` and `answer`, and none below them.
#![tactic(auto)]

ghost use Rattle.std.specs.Prelude.{◌≡◌};
ghost use Rattle.store.specs.Face.{read_meaning};
ghost use Rattle.deeds.specs.Deeds.{deed};

use answer::{Cell, Extent, Location, Refusal};
use deeds::{Deed, Grade};
use std::io::Read;
use std::rt::Files;
use std::{env, fs, io};
use store::description;

// A cell of element 0. It is proved that by the walk and by the directory this is what the bytes mean, or why they are refused. Compressed
// content is unpacked only where it has the compressor index that is named, here 256, which none has.
fn cell(file: &[u8], row: u64, column: u64, walk: bool) -> Result<Cell, Refusal>
    ensures { result ≡ read_meaning file.now 256 row column 0 }
{
    store::cell_of(file, 256, row, column, 0, walk)
}

// Whether the scores of element 0 in a rectangle are certain, doubtful or unread. It is proved that this goes by the cells' meaning.
fn judged(file: &[u8], row: u64, column: u64, rows: u64, columns: u64) -> Result<Deed, Refusal>
    ensures { result ≡ deed file.now 256 0 row column rows columns }
{
    let mut memory = [0u32; 4];
    deeds::judge(file, 256, 0, row, column, rows, columns, &mut memory)
}

fn print(rt: &impl Print, text: &str, number: u64) -> io::Result<()> {
    print!(rt; "{text}{number}")
}

fn print_refusal(rt: &impl Print, r: Refusal) -> io::Result<()> {
    let number = answer::refusal_number(r);
    let place = answer::refusal_place(r);
    println!(rt; "refused {number} at {place}")
}

fn print_grade(rt: &impl Print, x: Grade) -> io::Result<()> {
    match x {
        Grade::Certain => print!(rt; "certain"),
        Grade::Doubtful => print!(rt; "doubtful"),
        Grade::Unread => print!(rt; "unread"),
    }
}

// The lowest score by its bits.
fn print_lowest(rt: &impl Print, x: Option<i16>) -> io::Result<()> {
    match x {
        Some(z) => print(rt, ", lowest ", answer::bits_16(z) as u64),
        None => print!(rt; ", no score"),
    }
}

fn print_deed(rt: &impl Print, label: &str, x: Result<Deed, Refusal>) -> io::Result<()> {
    print!(rt; "scores of {label}: ")?;
    match x {
        Ok(d) => {
            print_grade(rt, d.grade)?;
            print(rt, ", fills ", d.fills)?;
            print_lowest(rt, d.lowest)?;
            println!(rt; ", scale {}", answer::bits_16(d.rule.scale))
        }
        Err(r) => print_refusal(rt, r),
    }
}

// The tiles of the page, and where its header ends.
fn print_tiles(rt: &impl Print, file: &[u8]) -> io::Result<()> {
    print!(rt; "tiles: ")?;
    match description::describe(file) {
        Ok(x) => {
            print!(rt; "down {}, across {}", x.tiles_down, x.tiles_across)?;
            println!(rt;
                ", bytes in each {}, behind a front of {}",
                x.tile_bytes, x.front
            )
        }
        Err(r) => print_refusal(rt, r),
    }
}

// What an element is.
fn print_specification(rt: &impl Print, file: &[u8], e: u64) -> io::Result<()> {
    print!(rt; "element {e}: ")?;
    match description::specify(file, e) {
        Ok(x) => {
            print!(rt; "type {}, fill {}", x.kind, x.fill)?;
            print!(rt; ", name at {}, bytes {}", x.name, x.name_length)?;
            println!(rt; ", unit at {}, bytes {}", x.unit, x.unit_length)
        }
        Err(r) => print_refusal(rt, r),
    }
}

// The number of the element with a name.
fn print_element(rt: &impl Print, file: &[u8], name: &str) -> io::Result<()> {
    print!(rt; "element {name}: ")?;
    match store::find_element(file, name.as_bytes()) {
        Ok(Some(e)) => println!(rt; "number {e}"),
        Ok(None) => println!(rt; "absent"),
        Err(r) => print_refusal(rt, r),
    }
}

// The tile of a cell, and the cell's number inside it.
fn print_location(rt: &impl Print, x: Location) -> io::Result<()> {
    println!(rt; ", tile {}, number {}", x.tile, x.inside)
}

// A value by its bits, and a refusal by its number.
fn print_cell(rt: &impl Print, label: &str, x: Result<Cell, Refusal>) -> io::Result<()> {
    print!(rt; "cell {label}: ")?;
    match x {
        Ok(
            Cell::Stored {
                value,
                place,
                location,
            },
        ) => {
            print(rt, "stored ", answer::value_bits(value) as u64)?;
            print(rt, " at ", place as u64)?;
            print_location(rt, location)
        }
        Ok(
            Cell::Unpacked {
                value,
                place,
                location,
            },
        ) => {
            print(rt, "unpacked ", answer::value_bits(value) as u64)?;
            print(rt, " at ", place as u64)?;
            print_location(rt, location)
        }
        Ok(Cell::Fill { value, location }) => {
            print(rt, "fill ", answer::value_bits(value) as u64)?;
            print_location(rt, location)
        }
        Err(r) => print_refusal(rt, r),
    }
}

// The content of element 0 in a tile is a part of the file itself, with nothing copied. Whether it is there is asked apart.
fn print_content(rt: &impl Print, file: &[u8], tile: u64) -> io::Result<()> {
    print!(rt; "content of tile {tile}: ")?;
    match store::reads::content_at(file, 0, tile, 0) {
        Ok(Some(Extent { start, length: _ })) => {
            let bytes = store::content_of(file, tile, 0).len();
            println!(rt; "present at {start}, bytes {bytes}")
        }
        Ok(None) => println!(rt; "absent"),
        Err(r) => print_refusal(rt, r),
    }
}

fn print_deeds(rt: &impl Print, file: &[u8]) -> io::Result<()> {
    print_deed(rt, "tile 2 in the grid", judged(file, 2, 0, 1, 2))?;
    print_deed(rt, "the whole grid", judged(file, 0, 0, 3, 3))?;
    print_deed(rt, "tile 0", judged(file, 0, 0, 2, 2))?;
    print_deed(rt, "a row more", judged(file, 0, 0, 4, 3))?;
    print_deed(rt, "no row", judged(file, 3, 0, 0, 3))
}

fn print_page(rt: &impl Print, file: &[u8]) -> io::Result<()> {
    print_tiles(rt, file)?;
    print_specification(rt, file, 0)?;
    print_specification(rt, file, 1)?;
    print_element(rt, file, "z")?;
    print_element(rt, file, "Z")?;
    print_cell(rt, "2 1 by the directory", cell(file, 2, 1, false))?;
    print_cell(rt, "2 1 by the walk", cell(file, 2, 1, true))?;
    // An opened page may hold any two positions beside the bytes and the index, as 1 and 2 here. It answers the same.
    let held = store::reads::read_from(file, 256, 1, 2, 2, 1, 0, true);
    print_cell(rt, "2 1 on a page that holds wrong numbers", held)?;
    print_cell(rt, "0 0 by the directory", cell(file, 0, 0, false))?;
    print_cell(rt, "0 0 by the walk", cell(file, 0, 0, true))?;
    print_cell(rt, "3 0", cell(file, 3, 0, false))?;
    print_content(rt, file, 2)?;
    print_content(rt, file, 0)?;
    print_content(rt, file, 4)
}

// Of a file that is longer the first 65,536 bytes are read.
const MOST_READ: u64 = 65536;

fn read_file<R: Files + AllocGlobal>(rt: &R, path: &str) -> io::Result<Vec<u8>> {
    let mut file = Vec::new(rt.alloc());
    fs::open(rt, path)?.take(MOST_READ).read_to_end(&mut file)?;
    Ok(file)
}

// The system's words for an error, without the number behind them.
fn words_of(said: &str) -> &str {
    match said.split_once(" (os error ") {
        Some((words, _)) => words,
        None => said,
    }
}

// Says why the file cannot be read.
fn complain<R: Eprint + AllocGlobal>(rt: &R, path: &str, error: io::Error) -> io::Result<()> {
    let said = format!(in rt.alloc(); "{error}")?;
    eprintln!(rt; "{path}: {}", words_of(said.as_str()))
}

// No argument is the empty name, which no file has.
fn main(rt: HostRuntime) -> io::Result<()> {
    let path = match env::args(&rt)?.nth(1) {
        Some(path) => path,
        None => String::new(rt.alloc()),
    };
    match read_file(&rt, path.as_str()) {
        Ok(file) => {
            print_deeds(&rt, file.as_slice())?;
            print_page(&rt, file.as_slice())
        }
        Err(error) => complain(&rt, path.as_str(), error),
    }
}
