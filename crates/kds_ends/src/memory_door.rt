//! A listener for tests, whose connections are in memory.
ghost use Rattle.std.specs.Prelude.{ℕ, ◌≡◌, ◌≤◌, ◌↔◌, ◌⊎◌, ◌<◌, length, true, false, None, Some, IsErr, IsOk, IfOk};
ghost use Rattle.std.specs.Prelude.{OnOk};
ghost use Rattle.std.specs.Io.{ReadsAtMost};
ghost use Rattle.std.specs.Io.KnownBytes.{ReadConsumes};
ghost use Rattle.kds_ends.specs.Causes.{HasCause};

use crate::door::Door;
use crate::memory_sink::MemSink;
use crate::sink::Sink;
use crate::source::{Failed, Source};
use crate::sure::SureSource;
use kds_base::{Items, Memory, Octets};
use std::alloc::Global;
use std::collections::VecDeque;
use std::marker::Model;
use std::sync::{Arc, Mutex, Wait};
use std::thread::yield_now;

/// A connection is held if each of its reads first waits until another connection has written something. Such a read
/// gives up after this many checks for a write of the other connection.
const LOOKS: u32 = 10_000_000;

/// The sink to which a connection's output writes. The listener has access to the same sink, so that tests can copy the
/// written bytes from the listener.
type Written = Arc<Mutex<MemSink>>;

/// The input of a connection in memory. If the connection is held, a read first waits until another connection has
/// written something. After 10,000,000 checks (`LOOKS`) without such a write, the read reports the end of the input, so
/// that a test can't wait forever.
#[derive(Drop)]
pub struct MemInput<R: Wait + Drop> {
    rt: R,
    bytes: SureSource,
    awaited: Option<Written>,
}

/// The output of a connection in memory.
#[derive(Drop)]
pub struct MemOutput<R: Wait + Drop> {
    rt: R,
    written: Written,
    faults: u64,
}

/// A listener whose connections are in memory. In contracts, its value consists of its port, the number of connections
/// that are still to be accepted, and the number of its calls that have failed.
#[derive(Drop)]
pub struct MemDoor<R: Wait + Drop> {
    rt: R,
    written: Vec<Written>,
    waiting: VecDeque<(MemInput<R>, MemOutput<R>)>,
    /// The port at which the listener listens, if any.
    port: Option<u16>,
    faults: u64,
}

impl<R: Wait + Drop> Model for MemDoor<R> {
    ghost use Rattle.std.specs.Prelude.{length};
    ghost use Rattle.kds_ends.specs.Memory.{DoorState};

    ghost Value = { DoorState };

    ghost view = { λ d. record { port = d.port; waiting = length d.waiting.items; faults = d.faults } };
}

/// Waits until a connection has written something to its sink `written`. Returns `false` if the sink is still empty
/// after `LOOKS` checks.
fn writes_soon<R: Wait>(rt: &R, written: &Written) -> bool {
    for _ in 0..LOOKS {
        if !written.lock(rt).held().is_empty() {
            return true;
        }
        yield_now();
    }
    false
}

impl<R: Wait + Drop> Source for MemInput<R> {
    ghost left = { λ _. None };

    ghost faults = { λ _. 0 };

    fn read(&mut self, room: &mut [u8]) -> Result<usize, Failed>
        ensures bound { ReadsAtMost result room.new }
        ensures bytes { ReadConsumes None None result room.new }
        ensures cause { HasCause 0 0 result }
        ensures sure { IsOk result }
    {
        if let Some(written) = &self.awaited {
            if !writes_soon(&self.rt, written) {
                return Ok(0);
            }
        }
        self.bytes.read(room)
    }
}

impl<R: Wait + Drop> Sink for MemOutput<R> {
    ghost held = { λ _. None };

    ghost faults = { λ s. s.faults };

    fn write(&mut self, piece: &[u8]) -> Result<usize, Failed> {
        match self.written.lock(&self.rt).write(piece) {
            Ok(count) => Ok(count),
            Err(_) => {
                self.faults = self.faults.saturating_add(1);
                Err(Failed)
            }
        }
    }
}

/// Returns `count` sinks, one for the output of each connection. Each sink holds at most `room` bytes.
fn new_sinks(alloc: Global, count: usize, room: usize) -> Result<Vec<Written>, Memory>
    ensures { IfOk result (λ v. length v.items ≡ count) }
{
    let mut sinks = Vec::with_capacity(alloc, count)?;
    for made in 0..count {
        let sink = MemSink::new(alloc, room, usize::MAX, Items::new(alloc))?;
        sinks.push(Arc::new(alloc, Mutex::new(sink))?)?;
    }
    Ok(sinks)
}

/// Returns the input and the output of a connection. The input reads the bytes `call`, and the output writes to
/// `written`. If `awaited` is the sink of another connection, each read first waits until that connection has written
/// something.
fn connection<R: Wait + Clone + Drop>(
    alloc: Global,
    rt: &R,
    call: &Octets,
    written: &Written,
    awaited: Option<Written>,
) -> Result<(MemInput<R>, MemOutput<R>), Memory> {
    let input = MemInput {
        rt: rt.clone()?,
        bytes: SureSource::new(call.copy(alloc)?),
        awaited,
    };
    let output = MemOutput {
        rt: rt.clone()?,
        written: written.clone()?,
        faults: 0,
    };
    Ok((input, output))
}

impl<R: Wait + Clone + Drop> MemDoor<R> {
    /// Returns a listener with one connection for each item of `calls`. Each item has the bytes of its connection's
    /// input. The output of each connection holds at most `room` bytes. If `held` is true, reads of the first
    /// connection wait until the second connection has written something. Precondition: if `held` is true, there are at
    /// least two connections.
    pub fn new(
        alloc: Global,
        rt: R,
        calls: Items<Octets>,
        room: usize,
        held: bool,
    ) -> Result<MemDoor<R>, Memory>
        requires { held ≡ true → 2 ≤ length calls }
        ensures { IfOk result (λ d. d ≡ record { port = None; waiting = length calls; faults = 0 }) }
    {
        let calls = calls.as_slice();
        let written = new_sinks(alloc, calls.len(), room)?;
        let mut waiting = VecDeque::new(alloc);
        for index in 0..calls.len() {
            let awaited = if held && index == 0 {
                Some(written[1].clone()?)
            } else {
                None
            };
            waiting.push_back(connection(alloc, &rt, &calls[index], &written[index], awaited)?)?;
        }
        Ok(MemDoor {
            rt,
            written,
            waiting,
            port: None,
            faults: 0,
        })
    }
}

impl<R: Wait + Drop> MemDoor<R> {
    /// Returns a copy of the bytes that were written to the output of the connection with the index `place`. If no
    /// connection has this index, the copy is empty.
    pub fn written(&self, alloc: Global, place: usize) -> Result<Octets, Memory> {
        match self.written.as_slice().get(place) {
            Some(written) => Octets::of(alloc, written.lock(&self.rt).held()),
            None => Ok(Octets::new(alloc)),
        }
    }
}

impl<R: Wait + Drop> Door for MemDoor<R> {
    type Input = MemInput<R>;

    type Output = MemOutput<R>;

    ghost faults = { λ d. d.faults };

    ghost listens = { λ d p. d.port ≡ Some p };

    fn listen(&mut self, port: u16) -> Result<(), Failed>
        ensures cause { HasCause self.old.faults self.new.faults result }
        ensures listens { OnOk result (self.new.port ≡ Some port) }
        ensures sure { IsOk result }
        ensures value { self.new ≡ record self.old { port = Some port } }
    {
        self.port = Some(port);
        Ok(())
    }

    fn accept(&mut self) -> Result<(MemInput<R>, MemOutput<R>), Failed>
        ensures cause { HasCause self.old.faults self.new.faults result }
        ensures listens { (port : ℕ) → self.old.port ≡ Some port → self.new.port ≡ Some port }
        ensures failed { IsErr result ↔ (self.old.waiting ≡ 0) }
    {
        match self.waiting.pop_front() {
            Some(ends) => Ok(ends),
            None => {
                self.faults = self.faults.saturating_add(1);
                Err(Failed)
            }
        }
    }
}
