//! What the command `serve` does, shown by examples of the whole program, and nothing else: connections that wait for each other, four
//! whose order is set and who are answered as by the office in memory, doors, links and disks that fail, and runs that serve nobody.
//! What is left on the disk is told by the next run, of `pipe`.
//!
//! The folder commands stand here too, over disks and folders that fail, with what the next runs find of their backups.
#![tactic(auto)]

#[cfg(test)]
mod doors;
#[cfg(test)]
mod faults;
#[cfg(test)]
mod folder_faults;
#[cfg(test)]
mod histories;
#[cfg(test)]
mod refusals;
#[cfg(test)]
mod runs;
#[cfg(test)]
mod texts;
