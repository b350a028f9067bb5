// The image of a controller, which its caller lends: 1,136 bytes, each part at a fixed place.
#![tactic(auto)]

pub mod asked;
pub mod codes;
pub mod parts;
pub mod place;
