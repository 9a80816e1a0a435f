//! Tests of the blocks of a journal: fields, checksums, superblocks, descriptor and revoke blocks, groups, logs, and
//! the text of a journal.
#![tactic(auto)]

#[cfg(test)]
mod blocks;
#[cfg(test)]
mod checks;
#[cfg(test)]
mod checksums;
#[cfg(test)]
mod choices;
#[cfg(test)]
mod dumped;
#[cfg(test)]
mod fields;
#[cfg(test)]
mod groups;
#[cfg(test)]
mod journals;
#[cfg(test)]
mod log_rows;
#[cfg(test)]
mod logs;
#[cfg(test)]
mod readers;
#[cfg(test)]
mod revokes;
#[cfg(test)]
mod shown;
#[cfg(test)]
mod stepped;
#[cfg(test)]
mod summaries;
#[cfg(test)]
mod summed_fronts;
#[cfg(test)]
mod summed_journals;
#[cfg(test)]
mod summed_supers;
#[cfg(test)]
mod summed_tags;
#[cfg(test)]
mod superblocks;
#[cfg(test)]
mod supers;
#[cfg(test)]
mod tags;
#[cfg(test)]
mod writers;
