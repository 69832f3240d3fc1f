//! Rows that the program answers, and runs where a source or a sink fails: tests alone, over its top call.
#![tactic(auto)]

#[cfg(test)]
mod differ;
#[cfg(test)]
mod formats;
#[cfg(test)]
mod generated;
#[cfg(test)]
mod long_lines;
#[cfg(test)]
mod ports;
#[cfg(test)]
mod readers;
#[cfg(test)]
mod requests;
#[cfg(test)]
mod runs;
#[cfg(test)]
mod tables;
#[cfg(test)]
mod types;
#[cfg(test)]
mod voigt;
