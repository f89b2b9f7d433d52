//! Tests of the inputs, outputs, sockets and clocks of the operating system, for behavior that no contract states.
use kds_ends::{Clock, Door, Sink, Source, StdSink, StdSource, SystemClock, TcpDoor, write_all};
use std::io;
use std::io::{Read, Write};
use std::net::{TcpListener, TcpStream};
use std::rt::Clock as Timer;
use std::sync::atomic::{AtomicU32, Ordering};
use std::test::Fail;
use std::time::Duration;

/// Returns a TCP port of the local machine that no socket uses.
fn free_port(rt: &HostRuntime) -> Result<u16, Fail> {
    let listener = TcpListener::bind(rt, "127.0.0.1:0")?;
    Ok(listener.local_addr()?.port())
}

/// A door is a listening socket. The test listens and connects in the same process, and sends bytes in both directions.
#[test]
fn a_door_listens_over_tcp(rt: HostRuntime) -> Result<(), Fail> {
    let port = free_port(&rt)?;
    let mut door = TcpDoor::new(rt);
    assert!(rt; door.accept().is_err());
    door.listen(port).ok().ok_or("listen")?;
    let mut client = TcpStream::connect(&rt, ("127.0.0.1", port))?;
    let (mut input, mut output) = door.accept().ok().ok_or("accept")?;
    client.write_all(b"question")?;
    let mut room = [0u8; 16];
    let count = input.read(&mut room).ok().ok_or("read")?;
    assert_eq!(rt; room[..count], *b"question".as_slice());
    write_all(&mut output, b"answer").ok().ok_or("write")?;
    let count = client.read(&mut room)?;
    assert_eq!(rt; room[..count], *b"answer".as_slice());
    drop(client);
    assert_eq!(rt; input.read(&mut room).ok(), Some(0));
    Ok(())
}

/// A reader that returns one byte at its first call, and fails at each later call.
#[derive(Drop)]
struct FailingReader {
    calls: u32,
}

impl Read for FailingReader {
    fn read(&mut self, buf: &mut [u8]) -> io::Result<usize> {
        self.calls = self.calls.saturating_add(1);
        if self.calls > 1 || buf.is_empty() {
            return Err(io::Error::from(io::ErrorKind::Other));
        }
        buf[0] = b'a';
        Ok(1)
    }
}

/// If a reader fails, the source (the input) that reads from it reports an error, and not the end of the input.
#[test]
fn failing_reader(rt: HostRuntime) -> Result<(), Fail> {
    let mut source = StdSource::new(FailingReader { calls: 0 });
    let mut room = [0u8; 4];
    assert_eq!(rt; source.read(&mut room).ok(), Some(1));
    assert!(rt; source.read(&mut room).is_err());
    assert!(rt; source.read(&mut room).is_err());
    Ok(())
}

/// A writer that accepts at most two bytes at its first call, accepts no bytes at its second call, and fails at each
/// later call.
#[derive(Drop)]
struct FailingWriter {
    calls: u32,
}

impl Write for FailingWriter {
    fn write(&mut self, buf: &[u8]) -> io::Result<usize> {
        self.calls = self.calls.saturating_add(1);
        match self.calls {
            1 => Ok(buf.len().min(2)),
            2 => Ok(0),
            _ => Err(io::Error::from(io::ErrorKind::Other)),
        }
    }

    fn flush(&mut self) -> io::Result<()> {
        Ok(())
    }
}

/// A write to a sink (an output) fails if the sink's writer accepts no bytes or returns an error.
#[test]
fn failing_writer(rt: HostRuntime) -> Result<(), Fail> {
    let mut sink = StdSink::new(FailingWriter { calls: 0 });
    assert_eq!(rt; sink.write(b"abc").ok(), Some(2));
    assert!(rt; sink.write(b"c").is_err());
    assert!(rt; write_all(&mut sink, b"c").is_err());
    Ok(())
}

/// A timer that returns the time 5 ms at its first call, fails at its second call, and returns the time 7 ms at each
/// later call.
#[derive(Drop)]
struct FailingTimer {
    calls: AtomicU32,
}

impl Timer for FailingTimer {
    fn monotonic(&self) -> io::Result<Duration> {
        Err(io::Error::from(io::ErrorKind::Unsupported))
    }

    fn since_1970(&self) -> io::Result<Duration> {
        match self.calls.fetch_add(1, Ordering::SeqCst) {
            0 => Ok(Duration::from_millis(5)),
            1 => Err(io::Error::from(io::ErrorKind::Other)),
            _ => Ok(Duration::from_millis(7)),
        }
    }
}

/// Each call of a clock's `now` asks the timer for the time. If the timer fails, `now` returns the same moment as in
/// the previous call.
#[test]
fn failing_timer(rt: HostRuntime) {
    let mut clock = SystemClock::new(FailingTimer {
        calls: AtomicU32::new(0),
    });
    assert_eq!(rt; clock.now().ms(), 5);
    assert_eq!(rt; clock.now().ms(), 5);
    assert_eq!(rt; clock.now().ms(), 7);
}
