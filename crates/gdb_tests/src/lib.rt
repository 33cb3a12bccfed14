//! Tests of a gdb server: answers, and talks over a machine that stands still.
#![tactic(auto)]

#[cfg(test)]
mod answers;
#[cfg(test)]
mod still;
#[cfg(test)]
mod talks;
