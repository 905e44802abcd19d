// The calls that grow and trim, for programs in C and Rust; calls/src/lib.rt says what all of them have in common.
// Many bodies are alike but for the call and its answer: C calls each by its own name.
#![tactic(auto)]

mod changes;
mod reshapes;
mod sets;
