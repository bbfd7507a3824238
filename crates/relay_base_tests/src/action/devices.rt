//! Streams over devices that fail: each call of a stream makes one call of its device, and no more.
ghost use Rattle.std.specs.Prelude.{◌≤◌, IfOk};

use relay_action::{ByteIn, ByteOut, StdStream, StreamFailed};
use std::io;

// A reader and a writer that moves one byte per call, fails at the call with this number, and
// counts its calls.
#[derive(Drop)]
struct Device {
    fail_at: u64,
    calls: u64,
}

impl Device {
    // The next call, for this many bytes.
    fn call(&mut self, len: usize) -> io::Result<usize>
        ensures { IfOk result (λ n. n ≤ len) }
    {
        self.calls = self.calls.saturating_add(1);
        if self.calls == self.fail_at {
            return Err(io::Error::from(io::ErrorKind::Interrupted));
        }
        Ok(len.min(1))
    }
}

impl io::Read for Device {
    fn read(&mut self, buf: &mut [u8]) -> io::Result<usize> {
        self.call(buf.len())
    }
}

impl io::Write for Device {
    fn write(&mut self, buf: &[u8]) -> io::Result<usize> {
        self.call(buf.len())
    }

    fn flush(&mut self) -> io::Result<()> {
        Ok(())
    }
}

fn read_once(device: &mut Device) -> Result<usize, StreamFailed> {
    StdStream::new(device).read(&mut [0; 2])
}

fn write_once(device: &mut Device) -> Result<usize, StreamFailed> {
    StdStream::new(device).write(b"ab")
}

// The number of the call that fails, and the result of the first call of a stream.
const ROWS: &[(u64, Result<usize, StreamFailed>)] = &[(1, Err(StreamFailed)), (2, Ok(1))];

// A failed read is not retried, and a read is not added to.
#[test]
fn a_read_is_one_call(rt: HostRuntime) {
    for (fail_at, answer) in ROWS {
        let mut device = Device {
            fail_at: *fail_at,
            calls: 0,
        };
        assert!(rt; read_once(&mut device) == *answer && device.calls == 1);
    }
}

// A failed write is not retried, and after part was written no error of a second call is hidden.
#[test]
fn a_write_is_one_call(rt: HostRuntime) {
    for (fail_at, answer) in ROWS {
        let mut device = Device {
            fail_at: *fail_at,
            calls: 0,
        };
        assert!(rt; write_once(&mut device) == *answer && device.calls == 1);
    }
}
