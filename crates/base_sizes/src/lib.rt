// The sizes that crates on both sides of the record buffer share.
#![tactic(auto)]

// How many bytes a record has.
pub const RECORD: usize = 7;
