//! Tests of numbers and lines, of memory, of the objects that stand for what lies outside, of racks of devices, of the words
//! of a command line, and of the readers of resource forks and containers, with files made by hand.
#![tactic(auto)]

#[cfg(test)]
mod bits;
#[cfg(test)]
mod changes;
#[cfg(test)]
mod checks;
#[cfg(test)]
mod container;
#[cfg(test)]
mod equal;
#[cfg(test)]
mod fork;
#[cfg(test)]
mod memory;
#[cfg(test)]
mod outside;
#[cfg(test)]
mod rack;
#[cfg(test)]
mod relocations;
#[cfg(test)]
mod shared;
#[cfg(test)]
mod texts;
#[cfg(test)]
mod unpacking;
#[cfg(test)]
mod words;
