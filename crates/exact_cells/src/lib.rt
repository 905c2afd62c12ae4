// What a cell is, exactly: the proof, and a page with compressed tiles, byte by byte, as a witness. It has no functions.
#![tactic(auto)]
