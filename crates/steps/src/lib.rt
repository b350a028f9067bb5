// The timer's look and the client's two steps on an image.
// Marks, codes and numbers that the caller lends stand in their signatures, since the entry points for C hand them on; a refusal is made C's
// number where it is found.
#![tactic(auto)]

pub mod client;
mod codes;
pub mod timer;
