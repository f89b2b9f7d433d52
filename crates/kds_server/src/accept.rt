//! Accepts connections, and serves each in a thread of its own. The connections share a hall: one machine with a lock
//! around it. A pass is the right of one thread to make turns, which apply commands to this machine.
ghost use Rattle.std.specs.Prelude.{ℕ, ◌≡◌, ◌≤◌, ◌⊎◌, length, All};
ghost use Rattle.kds_ends.specs.Causes.{Rose, RoseOnceAtMost};
ghost use Rattle.kds_server.specs.Texts.{IsCrewStatus};

use crate::free::{FreePass, free_passes};
use crate::hosted::serve_pass;
use kds_defs::Machine;
use kds_ends::{Clock, Door, Sink, Source, Status};
use kds_turn::{Hall, Pass};
use std::alloc::Global;
use std::sync::atomic::{AtomicBool, Ordering};
use std::sync::{Condvar, Mutex, Wait};
use std::thread;
use std::thread::{Scope, Threads};

/// The data that the accepting thread and the connection threads share.
#[derive(Drop)]
struct Shared<'c, R, M: Machine, C> {
    rt: &'c R,
    alloc: Global,
    clock: &'c Mutex<C>,
    /// The free passes. A pass that was taken for the next connection isn't among them.
    free: Mutex<Vec<FreePass<'c, M>>>,
    /// Notified when a pass becomes free.
    freed: Condvar,
    /// Whether memory has run out on any connection.
    out_of_memory: AtomicBool,
}

impl<'c, R: Wait, M: Machine, C: Clock> Shared<'c, R, M, C> {
    /// Serves a connection on the calling thread, closes the connection, and returns the pass that served it.
    fn serve_connection<S: Source + Drop, K: Sink + Drop>(
        &self,
        free: FreePass<'c, M>,
        mut input: S,
        mut out: K,
    ) -> FreePass<'c, M> {
        let FreePass { hall, mut pass } = free;
        let status = serve_pass(
            self.rt, self.alloc, hall, &mut pass, &mut input, &mut out, self.clock,
        );
        if let Status::Memory = status {
            self.out_of_memory.store(true, Ordering::SeqCst);
        }
        FreePass { hall, pass }
    }

    /// Serves a connection on the calling thread, closes the connection, and then adds the pass `free` to the free
    /// passes.
    fn serve_and_return_pass<S: Source + Drop, K: Sink + Drop>(
        &self,
        free: FreePass<'c, M>,
        input: S,
        out: K,
    ) {
        let free = self.serve_connection(free, input, out);
        if self.free.lock(self.rt).push(free).is_err() {
            self.out_of_memory.store(true, Ordering::SeqCst);
        }
        self.freed.notify_one();
    }

    /// Waits until a pass is free, and takes it. Returns `None` if memory has run out on a connection.
    fn next_pass(&self) -> Option<FreePass<'c, M>> {
        let mut free = self
            .freed
            .wait_while(self.rt, self.free.lock(self.rt), |free| {
                free.is_empty() && !self.out_of_memory.load(Ordering::SeqCst)
            });
        if self.out_of_memory.load(Ordering::SeqCst) {
            return None;
        }
        free.pop()
    }
}

/// Spawns a thread that serves a connection. If no thread can be started, the calling thread serves the connection.
fn spawn_connection<'s, 'e: 's, 'c: 'e, R, M, C, S, K>(
    scope: &'s Scope<'s, &'e ()>,
    shared: &'e Shared<'c, R, M, C>,
    free: FreePass<'c, M>,
    input: S,
    out: K,
)
where
    R: Wait + Sync,
    M: Machine + Send,
    C: Clock + Send,
    S: Source + Send + Drop + 'e,
    K: Sink + Send + Drop + 'e,
{
    if let Err(refused) = scope.spawn(move || shared.serve_and_return_pass(free, input, out)) {
        (refused.value)();
    }
}

/// Accepts connections until the listener `door` fails or memory runs out on a connection. Before each connection, the
/// function waits for a free pass.
fn accept_all<'s, 'e: 's, 'c: 'e, R, M, C, D>(
    scope: &'s Scope<'s, &'e ()>,
    shared: &'e Shared<'c, R, M, C>,
    door: &mut D,
) -> Status
where
    R: Wait + Sync,
    M: Machine + Send,
    C: Clock + Send,
    D: Door,
    D::Input: Send + 'e,
    D::Output: Send + 'e,
    ensures door { result ≡ Status.Door → Rose (D.faults door.old) (D.faults door.new) }
    ensures one { RoseOnceAtMost (D.faults door.old) (D.faults door.new) }
    ensures listens { (port : ℕ) → D.listens door.old port → D.listens door.new port }
    ensures kinds { IsCrewStatus result }
{
    for _ in shared.rt.forever() {
        let Some(free) = shared.next_pass() else {
            return Status::Memory;
        };
        let Ok((input, out)) = door.accept() else {
            return Status::Door;
        };
        // Memory may have run out while `accept` waited. Then the new connection is closed without being served.
        if shared.out_of_memory.load(Ordering::SeqCst) {
            return Status::Memory;
        }
        spawn_connection(scope, shared, free, input, out);
    }
    unreachable!()
}

/// Serves the connections that the listener `door` accepts. Each connection has a thread of its own, and a pass that no
/// other connection uses at the same time (decision 114). The calling thread waits for a free pass before it accepts a
/// connection. If no thread can be started, the calling thread serves the connection itself. No connection is accepted
/// after the first failure of `door`. No further connection is served after memory has run out. The function returns
/// when all open connections have ended. If memory ran out (before the first connection or on a connection), the status
/// is `Memory`. Otherwise it is `Door`. Precondition: there is at least one pass, and all passes belong to the hall.
pub fn crew<R, M, C, D>(
    rt: &R,
    alloc: Global,
    hall: &Hall<M>,
    passes: Vec<Pass<M>>,
    door: &mut D,
    clock: &Mutex<C>,
) -> Status
where
    R: Threads + Wait + Sync,
    M: Machine + Send,
    C: Clock + Send,
    D: Door,
    D::Input: Send,
    D::Output: Send,
    requires some { 1 ≤ length passes.items }
    requires hall { All (λ p. p.hall ≡ hall.now.id) passes.items }
    ensures door { result ≡ Status.Door → Rose (D.faults door.old) (D.faults door.new) }
    ensures one { RoseOnceAtMost (D.faults door.old) (D.faults door.new) }
    ensures listens { (port : ℕ) → D.listens door.old port → D.listens door.new port }
    ensures kinds { IsCrewStatus result }
{
    let Ok(free) = free_passes(alloc, hall, passes) else {
        return Status::Memory;
    };
    let shared = &Shared {
        rt,
        alloc,
        clock,
        free: Mutex::new(free),
        freed: Condvar::new(),
        out_of_memory: AtomicBool::new(false),
    };
    // The scope returns the door, so that the door's contract about failures can be used after the scope.
    let (status, _door) = thread::scope(thread::scope_env(), rt, move |scope| {
        let status = accept_all(scope, shared, &mut *door);
        (status, door)
    });
    if shared.out_of_memory.load(Ordering::SeqCst) {
        Status::Memory
    } else {
        status
    }
}
