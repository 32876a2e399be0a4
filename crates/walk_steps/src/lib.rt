// What a loop that stores one record after the other has made of a list so far (proofs/Over.antt), and steps for proofs by hand of functions
// over lent structs: `&mut T`, `&[T]` and `&mut [T]` of plain records (proofs/Lent.antt, Elements, Parts). There is no code here.
#![tactic(auto)]
