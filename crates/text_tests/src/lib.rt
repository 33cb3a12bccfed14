//! Tests of all first words and their texts, of lines that are too long for a row, and of listings that are assembled;
//! and of the lines of a trace: as they are put, and read back.
#![tactic(auto)]

#[cfg(test)]
mod equal;
#[cfg(test)]
mod events;
#[cfg(test)]
mod first_words;
#[cfg(test)]
mod lines;
#[cfg(test)]
mod listings;
#[cfg(test)]
mod put_lines;
