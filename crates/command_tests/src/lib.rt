//! Tests of the command over objects in memory, of what texts mean, of reports, and of runs of typed programs that tests build.
#![tactic(auto)]

#[cfg(test)]
mod command;
#[cfg(test)]
mod drive;
#[cfg(test)]
mod report;
#[cfg(test)]
mod text;
