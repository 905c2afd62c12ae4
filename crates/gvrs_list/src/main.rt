// Lists the file that its first argument names (document 01, 'The listing'), or says why it cannot.
//
// It reads 65,537 bytes at most: the last of them says that the file is longer, and the rest is never needed. The text has room for
// 32,768 bytes, and nothing is printed of a longer one. That none is longer is counted, not proved: a tile record that passes stage 8
// has at least 24 bytes and its line at most 6, so 65,536 bytes give less than 16,400 bytes of such lines, and the four lines before
// them have less than 200.
#![tactic(auto)]

use std::io::Read;
use std::rt::Files;
use std::{env, fs, io};

// A file that is listed, and one byte more.
const MOST_READ: usize = listing::MOST_LISTED + 1;

const TEXT_ROOM: usize = 32768;

// Reads to the end of the file, or as many bytes as are needed. A failed read is told apart before anything is listed: a part of a file
// is never listed as the file.
fn read_all<R: Files + AllocGlobal>(rt: &R, path: &str) -> io::Result<Vec<u8>> {
    let mut file = Vec::new(rt.alloc());
    fs::open(rt, path)?
        .take(MOST_READ as u64)
        .read_to_end(&mut file)?;
    Ok(file)
}

// Prints the listing of the bytes.
fn print_listing(rt: &impl Print, file: &[u8]) -> io::Result<()> {
    let mut text = [0u8; TEXT_ROOM];
    let n = listing::list(file, &mut text);
    if TEXT_ROOM < n {
        return Ok(());
    }
    rt.write_all(&text[..n])
}

// The system's words for an error, without the number behind them.
fn words_of(said: &str) -> &str {
    match said.split_once(" (os error ") {
        Some((words, _)) => words,
        None => said,
    }
}

// Says why the file cannot be read.
fn complain<R: Eprint + AllocGlobal>(rt: &R, path: &str, error: io::Error) -> io::Result<()> {
    let said = format!(in rt.alloc(); "{error}")?;
    eprintln!(rt; "{path}: {}", words_of(said.as_str()))
}

fn main(rt: HostRuntime) -> io::Result<()> {
    let Some(path) = env::args(&rt)?.nth(1) else {
        return eprintln!(rt; "gvrs_list: the name of one file is needed: Invalid argument");
    };
    match read_all(&rt, path.as_str()) {
        Ok(file) => print_listing(&rt, file.as_slice()),
        Err(error) => complain(&rt, path.as_str(), error),
    }
}
