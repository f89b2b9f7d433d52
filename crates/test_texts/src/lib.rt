//! Tests of behavior that no schedule reaches. They test the texts of schedules and journals, the turns that a run of a
//! schedule keeps, scribes (which compute the entries of journals), audits, and the words of the command line. A crate
//! with tests is proved a second time together with its tests. So these tests are in a crate of their own.
#![tactic(auto)]

#[cfg(test)]
mod audits;
#[cfg(test)]
mod journals;
#[cfg(test)]
mod lines;
#[cfg(test)]
mod scribes;
#[cfg(test)]
mod turns;
#[cfg(test)]
mod words;
