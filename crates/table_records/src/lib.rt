// Each record of a bench's table alone, and what the tests of messages and archive entries share: the record that a name looks up, a key, and
// the test of the 256 places in which they lie.
#![tactic(auto)]

pub mod apart; // apart.rt: the places of messages and entries: the used ones apart, the unused ones zero
pub mod places; // places.rt: places and names that must lie within a count, and the key of details
pub mod records; // records.rt: one record, and all 32
