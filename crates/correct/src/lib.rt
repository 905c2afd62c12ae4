// Correcting a page where it lies (Req 03): the writers that the calls are made of.
//
// Each stops after k byte stores (Req 05) and hands back what is left of k. The budget cuts the length of a bulk copy, so a writer that
// never stops is as fast as one without it. A record is one write of its bytes, where it fits whole into the buffer.
//
// No function can lend the page for reading and write the buffer at once. What a writer reads of the page while it writes stands where
// it does not write.
#![tactic(auto)]

pub mod directories;
pub mod front;
pub mod records;
pub mod references;
pub mod tiles;
