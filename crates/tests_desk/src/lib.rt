//! Tests of the desk and its book.
#![tactic(auto)]

#[cfg(test)]
mod blind;
#[cfg(test)]
mod books;
#[cfg(test)]
mod checkpoints;
#[cfg(test)]
mod checks;
#[cfg(test)]
mod closing;
#[cfg(test)]
mod desks;
#[cfg(test)]
mod ends;
#[cfg(test)]
mod faults;
#[cfg(test)]
mod gate;
#[cfg(test)]
mod homes;
#[cfg(test)]
mod journal;
#[cfg(test)]
mod keys;
#[cfg(test)]
mod levels;
#[cfg(test)]
mod lives;
#[cfg(test)]
mod load;
#[cfg(test)]
mod read_beside;
#[cfg(test)]
mod reads;
#[cfg(test)]
mod report;
#[cfg(test)]
mod rounds;
#[cfg(test)]
mod threads;
#[cfg(test)]
mod trials;
#[cfg(test)]
mod turns;
#[cfg(test)]
mod waiting;
