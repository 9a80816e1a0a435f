//! Tests of the journal.
#![tactic(auto)]

#[cfg(test)]
mod answers;
#[cfg(test)]
mod books;
#[cfg(test)]
mod cases;
#[cfg(test)]
mod changes;
#[cfg(test)]
mod checks;
#[cfg(test)]
mod clients;
#[cfg(test)]
mod commits;
#[cfg(test)]
mod contents;
#[cfg(test)]
mod crashes;
#[cfg(test)]
mod cuts;
#[cfg(test)]
mod draws;
#[cfg(test)]
mod entries;
#[cfg(test)]
mod faults;
#[cfg(test)]
mod frames;
#[cfg(test)]
mod groups;
#[cfg(test)]
mod homes;
#[cfg(test)]
mod images;
#[cfg(test)]
mod lives;
#[cfg(test)]
mod model;
#[cfg(test)]
mod openings;
#[cfg(test)]
mod reads;
#[cfg(test)]
mod rounds;
#[cfg(test)]
mod runs;
#[cfg(test)]
mod scripts;
#[cfg(test)]
mod seeds;
#[cfg(test)]
mod stops;
#[cfg(test)]
mod taking;
#[cfg(test)]
mod touches;
#[cfg(test)]
mod words;
#[cfg(test)]
mod worked;
