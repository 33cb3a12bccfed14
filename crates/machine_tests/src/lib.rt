//! Tests of the loader, with files made by hand; of the engine: runs that are cut, callers that wait while their callees
//! write, and an outside that fails, over objects in memory; of a debugger that steps forward over more changes than its
//! history has room for, and of the bytes that a step may change; and of images: each refusal with its number, and a
//! machine that is restored and saved again.
#![tactic(auto)]

#[cfg(test)]
mod around;
#[cfg(test)]
mod bench;
#[cfg(test)]
mod container;
#[cfg(test)]
mod cuts;
#[cfg(test)]
mod equal;
#[cfg(test)]
mod failing;
#[cfg(test)]
mod flat;
#[cfg(test)]
mod fork;
#[cfg(test)]
mod frames;
#[cfg(test)]
mod history;
#[cfg(test)]
mod images;
#[cfg(test)]
mod loaded;
#[cfg(test)]
mod programs;
#[cfg(test)]
mod reach;
#[cfg(test)]
mod text;
#[cfg(test)]
mod turns;
