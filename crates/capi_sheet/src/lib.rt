// List text, the printed register and change sheets, for programs in C and Rust; calls/src/lib.rt says what all of them have in common.
// C calls each by its own name, and what it lends crosses number by number: so `Style` is put together in two calls.
#![tactic(auto)]

mod lists;
mod sheets;
