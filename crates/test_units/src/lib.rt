//! Unit tests for behavior that no schedule (a recorded workload) can show. Each test is of one crate. The tests come
//! in this order: numbers, logs, shard trees, tokens, JSON bodies, inputs and outputs, request heads, and the parts of
//! workers and of drills (self-tests). The tests are in a crate of their own, since a crate with tests is proved twice.
#![tactic(auto)]

#[cfg(test)]
mod aggregates;
#[cfg(test)]
mod bodies;
#[cfg(test)]
mod drills;
#[cfg(test)]
mod ends;
#[cfg(test)]
mod heads;
#[cfg(test)]
mod logs;
#[cfg(test)]
mod numbers;
#[cfg(test)]
mod processors;
#[cfg(test)]
mod rates;
#[cfg(test)]
mod renewals;
#[cfg(test)]
mod rows;
#[cfg(test)]
mod scalings;
#[cfg(test)]
mod syncs;
#[cfg(test)]
mod takings;
#[cfg(test)]
mod tokens;
#[cfg(test)]
mod trees;
