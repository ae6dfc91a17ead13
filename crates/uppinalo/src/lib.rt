// The C boundary: the calls of include/uppinalo.h, thin, each with its complete promise. specs/Demands.antt states the three demands
// of these promises, and proofs/Demands.antt proves them.
// Each answer is a C struct with zeros of its own, so each has two functions here, one for a refusal and one for a Result. A trait over the structs
// would have the same two for each. The numbers beside them are those of the C interface.
#![tactic(auto)]

pub mod datetime64;
pub mod days;
pub mod fragments;
pub mod offset_runs;
pub mod offsets;
pub mod texts;
pub mod utc;
