// Laws of lists and arrays that several crates need: arrays that a loop fills, bytes that are stored in a buffer, tables.
#![tactic(auto)]
