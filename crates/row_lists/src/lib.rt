// What differs between two tables of cells, as a list by rows, and a list that is filled with it tile by tile: no code.
#![tactic(auto)]
