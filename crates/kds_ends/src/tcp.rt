//! Connections over the operating system's TCP sockets (RFC 9293).
ghost use Rattle.std.specs.Prelude.{◌≡◌, Some};
ghost use Rattle.std.specs.Io.{ReadsAtMost};
ghost use Rattle.std.specs.Io.KnownBytes.{ReadConsumes};

use crate::door::Door;
use crate::source::{Failed, Source};
use crate::standard::StdSink;
use std::io;
use std::io::Read;
use std::net::{Net, OpenListener, OpenStream, Shutdown, SocketAddr};
use std::sync::Arc;
use std::sync::atomic::{AtomicBool, Ordering};
use std::time::Duration;

/// A read waits for a byte in slices of this length, in milliseconds. After each slice without a byte it looks whether
/// a place is free, that is, whether the listener is waiting for the next connection. The length is none of the pauses
/// that clients make between their calls, and neither are small multiples of it.
const IDLE_SLICE: u64 = 370;

/// After this many slices without a byte, a read fails. The failure ends the connection of an idle client.
const IDLE_SLICES: u32 = 27;

/// After this many slices without a byte, a read fails if each of the last `LOOKS` looks found no free place. So an
/// idle client gives its place up while another client may be waiting for one. Clients that connect all at once and
/// keep their connections are served in waves of this length.
const CROWDED_SLICES: u32 = 6;

/// How many looks in a row must find no free place. One look isn't enough, since after each connection that it accepts
/// the listener is busy for a moment, even if many places are free.
const LOOKS: u32 = 4;

/// A client that calls every second is never idle for `CROWDED_SLICES` slices, but in all it is idle for nearly all of
/// its time. If this many looks in a row found no free place, a read fails after `SHORT_SLICES` slices without a byte.
/// So such clients alternate if they are more than the places.
const LONG_LOOKS: u32 = 20;

const SHORT_SLICES: u32 = 2;

/// How long a write waits for free space in the socket's send buffer, in milliseconds, if the client reads no
/// responses. If the buffer has accepted some of the bytes when the time is over, the write succeeds with these bytes,
/// and the next write waits anew. In a trial with a client that read nothing, the buffer grew once, so only the third
/// write failed. Three such waits together take less than the 30 seconds for which an SDK waits.
const FULL_WAIT: u64 = 9_000;

/// After the server has ended the connection, it reads and drops the bytes that the client still sends. The bytes that
/// one such read returns are a piece. This is the greatest size of a piece, in bytes.
const LAST_PIECE: usize = 65_536;

/// The greatest number of pieces that are read and dropped right after the server has ended the connection. The read of
/// each of these pieces waits at most `FIRST_WAIT` milliseconds. If the client pauses longer, nothing more is read from
/// it.
const FIRST_PIECES: u32 = 8;

const FIRST_WAIT: u64 = 500;

/// The greatest number of pieces that are read and dropped after the first `FIRST_PIECES` pieces. If each piece has the
/// greatest size, the pieces together hold a request body of the greatest size. The read of each of these pieces waits
/// at most `LATER_WAIT` milliseconds. The reads of all pieces together take at most seven seconds, however slowly the
/// client sends.
const LATER_PIECES: u32 = 256;

const LATER_WAIT: u64 = 10;

/// The input of a connection, which counts its failed reads. If the socket's contract states the bytes that are still
/// to be read, the input's contract states them too. If the input is dropped while the client may still send bytes, the
/// drop first shuts down the writing side of the connection, and then reads and discards a bounded number of bytes.
/// Otherwise the operating system would reset the connection, and the client could lose the last response (RFC 9112,
/// section 9.6).
pub struct TcpInput<S: Read + OpenStream + Drop> {
    stream: S,
    faults: u64,
    /// Whether a place is free: shared with the listener. `None` if there was no memory for it.
    free: Option<Arc<AtomicBool>>,
    /// How many looks in a row found no free place.
    crowded: u32,
    /// Whether the last read returned 0 bytes or failed. If so, nothing more is read when the input is dropped.
    ended: bool,
}

/// Reads and drops at most `count` pieces. Each read waits at most `wait` milliseconds. Returns `true` if all `count`
/// pieces were read, which means that the client may still send bytes. The function has no contract, because no
/// contract can state the bytes of a socket. Tests with real clients check it.
fn drop_pieces<S: Read + OpenStream>(stream: &mut S, count: u32, wait: u64) -> bool {
    let wait = Some(Duration::from_millis(wait));
    if stream.set_read_timeout(wait).is_err() {
        return false;
    }
    let mut buffer = [0u8; LAST_PIECE];
    for _ in 0..count {
        match stream.read(&mut buffer) {
            Ok(0) => return false,
            Ok(_) => {}
            Err(_) => return false,
        }
    }
    true
}

/// Shuts down the writing side of the connection. Then reads and drops what the client still sends, up to the limits
/// above. Not inlined, since the buffer makes the frame large, and every page of a frame is touched, also by a
/// connection that the client has ended.
#[inline(never)]
fn end<S: Read + OpenStream>(stream: &mut S) {
    if stream.shutdown(Shutdown::Write).is_ok() && drop_pieces(stream, FIRST_PIECES, FIRST_WAIT) {
        drop_pieces(stream, LATER_PIECES, LATER_WAIT);
    }
}

impl<S: Read + OpenStream + Drop> Drop for TcpInput<S> {
    fn drop(self) {
        let TcpInput {
            mut stream,
            faults: _,
            free: _,
            crowded: _,
            ended,
        } = self;
        if !ended {
            end(&mut stream);
        }
        drop(stream);
    }
}

/// Whether a failed read may be tried again: no byte came in the time of a slice, or a signal interrupted the read, as
/// when the process is stopped and continued.
fn is_worth_another(error: &io::Error) -> bool {
    match error.kind() {
        io::ErrorKind::WouldBlock | io::ErrorKind::TimedOut | io::ErrorKind::Interrupted => true,
        _ => false,
    }
}

/// Whether a place is free. Where this isn't known, the answer is `true`.
fn is_free(free: &Option<Arc<AtomicBool>>) -> bool {
    match free {
        Some(free) => free.load(Ordering::SeqCst),
        None => true,
    }
}

/// Notes whether a place is free.
fn note_free(free: &Option<Arc<AtomicBool>>, is_free: bool) {
    if let Some(free) = free {
        free.store(is_free, Ordering::SeqCst);
    }
}

/// Whether a read gives up after `slices` slices without a byte, if the last `crowded` looks found no free place.
fn gives_up(slices: u32, crowded: u32) -> bool {
    (slices >= CROWDED_SLICES && crowded >= LOOKS)
        || (slices >= SHORT_SLICES && crowded >= LONG_LOOKS)
}

/// Reads the next bytes. Waits for them in slices (`IDLE_SLICE`), up to the limits above. A read that a signal
/// interrupted counts as a slice.
fn read_in_slices<S: Read>(
    stream: &mut S,
    room: &mut [u8],
    free: &Option<Arc<AtomicBool>>,
    crowded: &mut u32,
) -> io::Result<usize>
    ensures bound { ReadsAtMost result room.new }
    ensures bytes { ReadConsumes (S.Read.remaining stream.old) (S.Read.remaining stream.new) result room.new }
{
    for slice in 1..IDLE_SLICES {
        match stream.read(room) {
            Ok(count) => return Ok(count),
            Err(error) => {
                if !is_worth_another(&error) {
                    return Err(error);
                }
                *crowded = if is_free(free) {
                    0
                } else {
                    crowded.saturating_add(1)
                };
                if gives_up(slice, *crowded) {
                    return Err(error);
                }
            }
        }
    }
    stream.read(room)
}

impl<S: Read + OpenStream + Drop> Source for TcpInput<S> {
    ghost left = { λ s. S.Read.remaining s.stream };

    ghost faults = { λ s. s.faults };

    fn read(&mut self, room: &mut [u8]) -> Result<usize, Failed> {
        match read_in_slices(&mut self.stream, room, &self.free, &mut self.crowded) {
            Ok(count) => {
                self.ended = count == 0;
                Ok(count)
            }
            Err(_) => {
                self.ended = true;
                self.faults = self.faults.saturating_add(1);
                Err(Failed)
            }
        }
    }
}

/// A listener over the operating system's TCP sockets. It counts its failures to listen and to accept. Its contract
/// states nothing about the bytes of connections.
#[derive(Drop)]
pub struct TcpDoor<R: Net> {
    rt: R,
    listener: Option<R::Listener>,
    /// The port at which the listener listens, if any.
    port: Option<u16>,
    /// Whether `accept` is in progress, and so a place is free. Shared with the inputs of all connections.
    free: Option<Arc<AtomicBool>>,
    faults: u64,
}

/// Returns the input and the output of the connection `stream`. Written bytes are sent without delay. A read waits for
/// the client in slices of `IDLE_SLICE` milliseconds, and a write at most `FULL_WAIT` milliseconds.
fn ends_of<S: Read + OpenStream + Drop>(
    stream: S,
    free: &Option<Arc<AtomicBool>>,
) -> io::Result<(TcpInput<S>, S)> {
    stream.set_nodelay(true)?;
    stream.set_read_timeout(Some(Duration::from_millis(IDLE_SLICE)))?;
    stream.set_write_timeout(Some(Duration::from_millis(FULL_WAIT)))?;
    let other = stream.try_clone()?;
    let shared = match free {
        Some(free) => Arc::try_clone(free).ok(),
        None => None,
    };
    let input = TcpInput {
        stream,
        faults: 0,
        free: shared,
        crowded: 0,
        ended: false,
    };
    Ok((input, other))
}

/// Whether the next connection can still be accepted after this error. This is so if the error says that the client
/// gave up its connection before the listener accepted it, or that the call was interrupted.
fn is_given_up(error: &io::Error) -> bool {
    match error.kind() {
        io::ErrorKind::ConnectionAborted
        | io::ErrorKind::ConnectionReset
        | io::ErrorKind::Interrupted => true,
        _ => false,
    }
}

/// Accepts the next connection, and returns its input and its output. Skips each connection that the client gives up
/// before the connection is accepted, or that can't be set up.
fn accept_on<S: Read + OpenStream + Drop, L: OpenListener<Stream = S> + Drop>(
    listener: &Option<L>,
    free: &Option<Arc<AtomicBool>>,
) -> io::Result<(TcpInput<S>, S)> {
    let Some(listener) = listener else {
        return Err(io::Error::from(io::ErrorKind::NotConnected));
    };
    for _ in 0..u64::MAX {
        match listener.accept() {
            Ok((stream, _)) => {
                if let Ok(ends) = ends_of(stream, free) {
                    return Ok(ends);
                }
            }
            Err(error) => {
                if !is_given_up(&error) {
                    return Err(error);
                }
            }
        }
    }
    Err(io::Error::from(io::ErrorKind::Other))
}

impl<R: Net> TcpDoor<R> {
    /// Returns a listener that doesn't listen yet. `listen` will make it listen only at the address 127.0.0.1.
    pub fn new(rt: R) -> TcpDoor<R>
        ensures { result.faults ≡ 0 }
    {
        TcpDoor {
            rt,
            listener: None,
            port: None,
            free: None,
            faults: 0,
        }
    }
}

impl<R: Net + AllocGlobal> Door for TcpDoor<R> {
    type Input = TcpInput<R::Stream>;

    type Output = StdSink<R::Stream>;

    ghost faults = { λ d. d.faults };

    ghost listens = { λ d p. d.port ≡ Some p };

    fn listen(&mut self, port: u16) -> Result<(), Failed> {
        match self.rt.bind(SocketAddr::from(([127, 0, 0, 1], port))) {
            Ok(listener) => {
                self.listener = Some(listener);
                self.port = Some(port);
                self.free = Arc::new(self.rt.alloc(), AtomicBool::new(false)).ok();
                Ok(())
            }
            Err(_) => {
                self.faults = self.faults.saturating_add(1);
                Err(Failed)
            }
        }
    }

    fn accept(&mut self) -> Result<(TcpInput<R::Stream>, StdSink<R::Stream>), Failed> {
        note_free(&self.free, true);
        let accepted = accept_on(&self.listener, &self.free);
        note_free(&self.free, false);
        match accepted {
            Ok((input, output)) => Ok((input, StdSink::new(output))),
            Err(_) => {
                self.faults = self.faults.saturating_add(1);
                Err(Failed)
            }
        }
    }
}
