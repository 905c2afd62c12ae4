// Identifiers, the fixed fields of the header record, its element entries, and what follows them.
#![tactic(auto)]

pub mod entries;
pub mod fields;
pub mod names;
pub mod tail;
pub mod texts;

// What a header says of an element: its type code, the place and the length of its name, the bit pattern of its fill
// value, and where its entry ends. A name is a part of the file, and a struct by value holds its place and length.
// No enum for the type code: it is any byte of the file until stage 3 has judged it, and one above 3 has a size and a value too.
#[derive(Clone, Copy)]
pub struct Element {
    pub kind: u32,
    pub name: usize,
    pub name_length: usize,
    pub fill: u32,
    pub end: usize,
}
