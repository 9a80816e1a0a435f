//! Tests of the program's words, hints, streams and loads, and one whole run of each command.
#![tactic(auto)]

#[cfg(test)]
mod advices;
#[cfg(test)]
mod changes;
#[cfg(test)]
mod checks;
#[cfg(test)]
mod files;
#[cfg(test)]
mod given_back;
#[cfg(test)]
mod hinted_faults;
#[cfg(test)]
mod hints;
#[cfg(test)]
mod lent;
#[cfg(test)]
mod load_faults;
#[cfg(test)]
mod orders;
#[cfg(test)]
mod parsing;
#[cfg(test)]
mod programs;
#[cfg(test)]
mod runs;
#[cfg(test)]
mod settings;
#[cfg(test)]
mod small;
#[cfg(test)]
mod streams;
#[cfg(test)]
mod texts;
#[cfg(test)]
mod worked;
