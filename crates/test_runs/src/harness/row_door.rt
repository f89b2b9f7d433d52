//! A door (a listening socket) in memory. It accepts its connections one after the other.
ghost use Rattle.std.specs.Prelude.{None};

use kds_base::{Items, Memory, Octets};
use kds_ends::{Door, Failed, MemSink, MemSource, Sink};
use std::alloc::Global;
use std::collections::VecDeque;
use std::sync::{Arc, Mutex, Wait};
use std::thread::yield_now;

/// The maximum number of times that the door checks whether all accepted connections have ended.
const LOOKS: u32 = 10_000_000;

/// The capacity of a connection's output, and the most that one read or write transfers, in bytes.
const ROOM: usize = 1024;

/// The output of a connection. The door shares it with the connection, so that the door can copy the written bytes.
type Written = Arc<Mutex<MemSink>>;

/// The sink for the output of a connection. It is dropped when the connection ends.
#[derive(Drop)]
pub struct RowOutput<R: Wait + Drop> {
    rt: R,
    written: Written,
    faults: u64,
}

impl<R: Wait + Drop> Sink for RowOutput<R> {
    ghost held = { λ _. None };

    ghost faults = { λ s. s.faults };

    fn write(&mut self, piece: &[u8]) -> Result<usize, Failed> {
        match self.written.lock(&self.rt).write(piece) {
            Ok(count) => Ok(count),
            Err(_) => {
                self.faults = self.faults.saturating_add(1);
                Err(Failed)
            }
        }
    }
}

/// A listening socket with connections in memory. It accepts a connection once all connections before it have ended.
/// `accept` fails if no connection is left, or if an earlier connection doesn't end within `LOOKS` checks.
#[derive(Drop)]
pub struct RowDoor<R: Wait + Drop> {
    rt: R,
    written: Vec<Written>,
    waiting: VecDeque<(MemSource, RowOutput<R>)>,
    faults: u64,
}

impl<R: Wait + Clone + Drop> RowDoor<R> {
    pub fn new(alloc: Global, rt: R) -> RowDoor<R> {
        RowDoor {
            rt,
            written: Vec::new(alloc),
            waiting: VecDeque::new(alloc),
            faults: 0,
        }
    }

    /// Adds a connection with the input `bytes`. The reads whose numbers, counted from 1, are in `failing` fail.
    pub fn add(&mut self, alloc: Global, bytes: Octets, failing: Items<u64>) -> Result<(), Memory> {
        let sink = MemSink::new(alloc, ROOM, ROOM, Items::new(alloc))?;
        let written = Arc::new(alloc, Mutex::new(sink))?;
        let output = RowOutput {
            rt: self.rt.clone()?,
            written: written.clone()?,
            faults: 0,
        };
        self.waiting
            .push_back((MemSource::new(bytes, ROOM, failing), output))?;
        self.written.push(written)?;
        Ok(())
    }
}

impl<R: Wait + Drop> RowDoor<R> {
    /// Returns a copy of what the connection at the index `place`, counted from 0, has written. The copy is empty if
    /// there is no such connection.
    pub fn written(&self, alloc: Global, place: usize) -> Result<Octets, Memory> {
        match self.written.as_slice().get(place) {
            Some(written) => Octets::of(alloc, written.lock(&self.rt).held()),
            None => Ok(Octets::new(alloc)),
        }
    }

    /// Waits until all accepted connections have ended, with at most `LOOKS` checks. Returns whether they have ended.
    /// The door shares the output of each connection that is waiting to be accepted or hasn't ended. So all accepted
    /// connections have ended if the number of shared outputs is at most the number of waiting connections.
    fn row_has_ended(&self) -> bool {
        let open = self.waiting.len();
        for _ in 0..LOOKS {
            let held = self
                .written
                .as_slice()
                .iter()
                .filter(|it| Arc::strong_count(*it) > 1)
                .count();
            if held <= open {
                return true;
            }
            yield_now();
        }
        false
    }
}

impl<R: Wait + Drop> Door for RowDoor<R> {
    type Input = MemSource;

    type Output = RowOutput<R>;

    ghost faults = { λ d. d.faults };

    ghost listens = { λ _ _. Unit {0} };

    fn listen(&mut self, _port: u16) -> Result<(), Failed> {
        Ok(())
    }

    fn accept(&mut self) -> Result<(MemSource, RowOutput<R>), Failed> {
        if self.row_has_ended() {
            if let Some(ends) = self.waiting.pop_front() {
                return Ok(ends);
            }
        }
        self.faults = self.faults.saturating_add(1);
        Err(Failed)
    }
}
