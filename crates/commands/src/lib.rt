// The calls that change an image: commands, loads and resets. A call returns its number in the lowest byte and above it the codes of
// its effects in order, the first lowest. On a refusal what the caller lent stays as it was, but for the windows that a refused
// SetDSTOffset empties and the change that it counts. What is returned is one number, and an argument that may be missing has a mark beside
// it, since C calls these functions. A refusal is made a number where it is found: an inner function with `?` would stand beside each call,
// and take all that the call takes.
#![tactic(auto)]

mod arguments;
pub mod clock;
mod codes;
pub mod lists;
pub mod made;
