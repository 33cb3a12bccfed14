//! Tests of calls: procInfo words and routine descriptors, arguments and results in 68K and PowerPC code; host calls one by
//! one, for code of both sets, with all that each leaves; and the heap and the switch frames that they stand on.
#![tactic(auto)]

#[cfg(test)]
mod arguments;
#[cfg(test)]
mod bench;
#[cfg(test)]
mod blocks;
#[cfg(test)]
mod case;
#[cfg(test)]
mod descriptors;
#[cfg(test)]
mod devices;
#[cfg(test)]
mod equal;
#[cfg(test)]
mod errors;
#[cfg(test)]
mod frames;
#[cfg(test)]
mod functions;
#[cfg(test)]
mod heap;
#[cfg(test)]
mod m68;
#[cfg(test)]
mod ppc;
#[cfg(test)]
mod signatures;
#[cfg(test)]
mod streams;
