//! Tests of whole runs. Each run uses the code of many crates. A run executes a schedule (a recorded workload on
//! streams, leases and workers), writes or audits a journal (an event log), serves a connection, or runs a server. The
//! tests call functions for single tasks, such as `run_replay`, and not the whole program. Otherwise a check of the
//! tests would also load the code that parses the command line.
#![tactic(auto)]

#[cfg(test)]
mod connections;
#[cfg(test)]
mod faults;
#[cfg(test)]
mod handoffs;
#[cfg(test)]
mod harness;
#[cfg(test)]
mod journals;
#[cfg(test)]
mod leases;
#[cfg(test)]
mod robbed;
#[cfg(test)]
mod schedules;
#[cfg(test)]
mod streams;
#[cfg(test)]
mod workers;
