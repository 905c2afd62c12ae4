// Laws that the theorems on the calls share: the tiles and metadata of a page, a front with fields set: no code.
#![tactic(auto)]
