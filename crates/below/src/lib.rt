// Searches, counts, sums and lists over 0, 1, .., n - 1. This crate has no code: the definitions stand in specs/Below.antt and
// specs/Lists.antt, the laws that proofs cite in proofs/Tests.antt (on tests), proofs/Search.antt (first, any, all),
// proofs/Total.antt (count, sum, largest) and proofs/Lists.antt (lists).
#![tactic(auto)]
