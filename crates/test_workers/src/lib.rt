//! Tests of consumers and workers, for behavior that no schedule (a recorded workload) can show. If memory runs out in
//! a processor call, the same call is due again. If memory runs out while a worker handles an answer, the worker can
//! get the same answer again. The workers of a crew (workers on threads) run concurrently, and so do the workers of a
//! drill (a self-test). A gate, which is a hook, is called before and after each processor call. A worker hands off a
//! lease. The tests are in a crate of their own, since a crate with tests is proved twice.
#![tactic(auto)]

#[cfg(test)]
mod consumers;
#[cfg(test)]
mod crews;
#[cfg(test)]
mod crowds;
#[cfg(test)]
mod gates;
#[cfg(test)]
mod handoffs;
#[cfg(test)]
mod meeting;
#[cfg(test)]
mod threes;
#[cfg(test)]
mod workers;
