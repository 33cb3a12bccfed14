//! The sample: a program whose 68K and PowerPC code call each other, as often and as deep as is asked for.
//!
//! `sample` makes its image as a flat file, equal to the image of the definition (`specs/Sample`).
#![tactic(auto)]

mod image;
mod laws;

pub use image::sample;
pub use laws::sample_laws;
