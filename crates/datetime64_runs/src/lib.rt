// Two runs over a datetime64 array: its records read as instants, and instants written as its records, all or none. What checks comes before
// what writes. A reader may rely on specs/Runs.antt and on the theorems of proofs/Theorems.antt.
#![tactic(auto)]

pub mod numbers;
pub mod reading;
pub mod records;
pub mod writing;
