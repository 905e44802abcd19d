// The calls within the length, for programs in C and Rust; calls/src/lib.rt says what all of them have in common.
// Many bodies are alike but for the call and its answer: C calls each by its own name.
//
// `trimmed` stays behind, because it hands back a part of its words: `trim` gives that part's length.
#![tactic(auto)]

mod both;
mod readings;
mod within;
