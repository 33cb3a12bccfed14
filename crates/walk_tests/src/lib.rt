//! Tests of a machine that walks forward and back until something stops it.
#![tactic(auto)]

#[cfg(test)]
mod far;
#[cfg(test)]
mod walks;
