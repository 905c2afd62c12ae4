// That what is written keeps the rules of the check: a record and its checksum, a plain tile record, a directory of every tile: no code.
#![tactic(auto)]
