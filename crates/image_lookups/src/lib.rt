// Lookups in an image: names as parts of it, and declarations with their places. Whether the image passes is known beforehand.
#![tactic(auto)]

pub mod declared;
pub mod named;
