// Inputs, outputs and a network of nodes, and the faults of these.

use std::io::{self, ErrorKind, Read, Write};
use std::net::{Net, Shutdown, SocketAddr, TcpListener, TcpStream};
use std::sync::atomic::{AtomicBool, Ordering};
use std::sync::{Mutex, Wait};
use std::thread::{self, Threads};
use std::time::{Clock, Duration};

/// An input that gives nothing, and ends when it is told to.
#[derive(Drop)]
pub(crate) struct Silence<'a, R: Wait + Clock> {
    pub rt: &'a R,
    pub over: &'a AtomicBool,
}

impl<R: Wait + Clock> Read for Silence<'_, R> {
    fn read(&mut self, _buf: &mut [u8]) -> io::Result<usize> {
        for _ in self.rt.forever() {
            if self.over.load(Ordering::SeqCst) {
                return Ok(0);
            }
            thread::sleep(self.rt, Duration::from_millis(5));
        }
        Ok(0)
    }
}

/// An input that gives a line, then nothing, and ends when it is told to.
#[derive(Drop)]
pub(crate) struct Murmur<'a, R: Wait + Clock> {
    pub rt: &'a R,
    pub line: &'a [u8],
    pub over: &'a AtomicBool,
}

impl<R: Wait + Clock> Read for Murmur<'_, R> {
    fn read(&mut self, buf: &mut [u8]) -> io::Result<usize> {
        if self.line.is_empty() {
            let mut silence = Silence {
                rt: self.rt,
                over: self.over,
            };
            return silence.read(buf);
        }
        let count = self.line.len().min(buf.len());
        let (front, rest) = self.line.split_at(count);
        buf[..count].copy_from_slice(front);
        self.line = rest;
        Ok(count)
    }
}

/// An input that gives a line when it is told to, then nothing, and ends when it is told to.
#[derive(Drop)]
pub(crate) struct Cue<'a, R: Wait + Clock> {
    pub rt: &'a R,
    pub line: &'a [u8],
    pub now: &'a AtomicBool,
    pub over: &'a AtomicBool,
}

impl<R: Wait + Clock> Read for Cue<'_, R> {
    fn read(&mut self, buf: &mut [u8]) -> io::Result<usize> {
        for _ in self.rt.forever() {
            if self.over.load(Ordering::SeqCst) {
                return Ok(0);
            }
            if self.now.load(Ordering::SeqCst) && !self.line.is_empty() {
                let count = self.line.len().min(buf.len());
                let (front, rest) = self.line.split_at(count);
                buf[..count].copy_from_slice(front);
                self.line = rest;
                return Ok(count);
            }
            thread::sleep(self.rt, Duration::from_millis(5));
        }
        Ok(0)
    }
}

/// An output that other threads can look at.
#[derive(Drop)]
pub(crate) struct Screen<'a, R: Wait> {
    pub rt: &'a R,
    pub printed: &'a Mutex<Vec<u8>>,
}

impl<R: Wait> Write for Screen<'_, R> {
    fn write(&mut self, buf: &[u8]) -> io::Result<usize> {
        self.printed.lock(self.rt).extend_from_slice(buf)?;
        Ok(buf.len())
    }

    fn flush(&mut self) -> io::Result<()> {
        Ok(())
    }
}

/// An input or an output whose calls fail.
#[derive(Drop)]
pub(crate) struct Broken;

impl Read for Broken {
    fn read(&mut self, _buf: &mut [u8]) -> io::Result<usize> {
        Err(io::Error::from(ErrorKind::Other))
    }
}

impl Write for Broken {
    fn write(&mut self, _buf: &[u8]) -> io::Result<usize> {
        Err(io::Error::from(ErrorKind::Other))
    }

    fn flush(&mut self) -> io::Result<()> {
        Err(io::Error::from(ErrorKind::Other))
    }
}

/// The host's network, threads and clock. It keeps a handle of each connection that is opened by
/// it, so that a test can cut them.
#[derive(Drop)]
pub(crate) struct Wires<'a, R> {
    pub rt: &'a R,
    pub opened: &'a Mutex<Vec<TcpStream>>,
}

impl<R: Wait> Wires<'_, R> {
    /// Keeps a handle of a connection that was opened.
    fn keep(&self, stream: TcpStream) -> io::Result<TcpStream> {
        let handle = stream.try_clone()?;
        self.opened.lock(self.rt).push(handle)?;
        Ok(stream)
    }
}

impl<R> Net for Wires<'_, R>
where
    R: Net<Listener = TcpListener, Stream = TcpStream> + Wait,
{
    type Stream = TcpStream;

    type Listener = TcpListener;

    fn bind(&self, addr: SocketAddr) -> io::Result<TcpListener> {
        self.rt.bind(addr)
    }

    fn connect(&self, addr: SocketAddr) -> io::Result<TcpStream> {
        self.keep(self.rt.connect(addr)?)
    }

    fn connect_timeout(&self, addr: SocketAddr, timeout: Duration) -> io::Result<TcpStream> {
        self.keep(self.rt.connect_timeout(addr, timeout)?)
    }
}

impl<R: Wait> Wait for Wires<'_, R> {}

impl<R: Threads> Threads for Wires<'_, R> {}

impl<R: Clock> Clock for Wires<'_, R> {
    fn monotonic(&self) -> io::Result<Duration> {
        self.rt.monotonic()
    }

    fn since_1970(&self) -> io::Result<Duration> {
        self.rt.since_1970()
    }

    fn sleep(&self, duration: Duration) {
        self.rt.sleep(duration)
    }
}

/// Cuts the connections that were opened since the last time.
pub(crate) fn cut<R: Wait>(rt: &R, opened: &Mutex<Vec<TcpStream>>) {
    let mut opened = opened.lock(rt);
    for stream in opened.as_slice() {
        let _ = stream.shutdown(Shutdown::Both);
    }
    opened.clear();
}
