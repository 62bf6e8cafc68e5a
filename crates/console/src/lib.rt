// Layer outside.
// How the programs read standard input and write standard output, whatever read and write return. A call that a signal
// interrupts, or that would block, is repeated; one that fails for good is a fault and is reported on standard error.
#![tactic(auto)]

ghost use Rattle.std.specs.Prelude.{◌≡◌, true, [], ◌∷◌, ◌++◌, ◌+◌, ◌≤◌, ◌<◌, length, take, MatchResult};
ghost use Rattle.base.specs.Put.{Put};
ghost use Rattle.base.specs.Text.{codes};
ghost use Rattle.prints.specs.Figure.{figure};
ghost use Rattle.console.specs.Mendable.{mendable};

use std::io::{ErrorKind, IsTerminal, Read, Write};
use std::os::unix::fs::{FileTypeExt, MetadataExt};
use std::time::Duration;
use std::{fs, io, thread};

// More calls than any run makes.
const CALLS: u64 = u64::MAX;

// The error number of a line that has hung up.
const EIO: u64 = 5;

// The major number of devices that are memory, as /dev/null is.
const MEMORY: u64 = 1;

// The outcome of reading: how many bytes there are now, and whether a read failed for good. If no byte came and no read
// failed, the input is at its end.
#[derive(Clone, Copy)]
pub struct Got {
    pub count: usize,
    pub failed: bool,
}

// A buffer for input or for replies.
pub fn buffer() -> [u8; 8192]
    ensures { 8192 ≡ length result }
{
    [0; 8192]
}

// Whether further bytes may mend a refusal: the field is incomplete, and the rest may still come. It answers for any
// number, and a type of refusals would ask more of its callers.
pub fn waits(code: u8) -> bool
    ensures { result ≡ mendable code }
{
    (code == 2) | (code == 5)
}

// Waits for a millisecond.
fn nap(rt: &HostRuntime) {
    thread::sleep(rt, Duration::from_millis(1));
}

// Whether to repeat a call that failed; if it would have blocked, waits first.
fn again(rt: &HostRuntime, error: &io::Error) -> bool {
    if error.kind() == ErrorKind::WouldBlock {
        nap(rt);
        return true;
    }
    error.kind() == ErrorKind::Interrupted
}

// Whether to repeat a read that brought nothing: a serial line may be set up so that a read returns nothing while it is
// idle.
fn idle(rt: &HostRuntime) -> bool {
    if !rt.stdin().is_terminal() {
        return false;
    }
    nap(rt);
    true
}

// Whether standard input was a line that has hung up, a device that is no terminal any more: it will bring nothing
// more, which is a fault and not the end of the input.
fn hung_up(rt: &HostRuntime) -> bool {
    if rt.stdin().is_terminal() {
        return false;
    }
    match fs::metadata(rt, "/dev/stdin") {
        Ok(input) => input.file_type().is_char_device() && (input.rdev() >> 8) & 0xFFF != MEMORY,
        Err(_) => false,
    }
}

// Whether to read again after a read that brought no bytes or failed.
fn again_after(rt: &HostRuntime, got: &io::Result<usize>) -> bool {
    match got {
        Ok(0) => idle(rt),
        Ok(_) => false,
        Err(error) => again(rt, error),
    }
}

// The outcome of the last read; one that failed for good is reported.
fn got_by(rt: &HostRuntime, got: io::Result<usize>) -> Got
    ensures value { MatchResult got (λ n. result.count ≡ n) (λ e. result.failed ≡ true) }
    ensures none_if_failed { result.failed ≡ true → result.count ≡ 0 }
{
    let count = got.unwrap_or(0);
    if 0 < count {
        return Got {
            count,
            failed: false,
        };
    }
    let failed = got.is_err() || hung_up(rt);
    if failed {
        say_fault_in(rt, error_after(got));
    }
    Got { count, failed }
}

// Reads until bytes come, the input is at its end or a read fails for good.
fn read_on(rt: &HostRuntime, buf: &mut [u8]) -> Got
    ensures { (result.count ≤ length buf.new) × (result.failed ≡ true → result.count ≡ 0) }
{
    for _ in 0..CALLS {
        let got = rt.stdin().read(buf);
        if !again_after(rt, &got) {
            return got_by(rt, got);
        }
    }
    let got = rt.stdin().read(buf);
    got_by(rt, got)
}

// The same, with the first read outside the loop, since nearly every read brings bytes.
fn read_some(rt: &HostRuntime, buf: &mut [u8]) -> Got
    ensures { (result.count ≤ length buf.new) × (result.failed ≡ true → result.count ≡ 0) }
{
    let got = rt.stdin().read(buf);
    if again_after(rt, &got) {
        return read_on(rt, buf);
    }
    got_by(rt, got)
}

// Writes the bytes, in as many calls as it takes; the error is that of the call that failed for good.
fn write_all<W: Write>(rt: &HostRuntime, out: &mut W, bytes: &[u8]) -> io::Result<()> {
    let mut rest = bytes;
    for _ in 0..CALLS {
        if rest.len() == 0 {
            return Ok(());
        }
        match out.write(rest) {
            Ok(0) => nap(rt),
            Ok(n) => rest = base::part_from(rest, n),
            Err(error) => {
                if !again(rt, &error) {
                    return Err(error);
                }
            }
        }
    }
    Err(io::Error::from(ErrorKind::Interrupted))
}

// The number of an error, errno.
fn number_of(error: &io::Error) -> u64 {
    match error.raw_os_error() {
        Some(number) => u64::from(number.unsigned_abs()),
        None => 0,
    }
}

// The number of the error after a read that failed for good, or that met a line which has hung up.
fn error_after(got: io::Result<usize>) -> u64 {
    match got {
        Ok(_) => EIO,
        Err(error) => number_of(&error),
    }
}

// The line that reports a fault: the stream, and errno as a number.
fn put_fault(line: &mut [u8], stream: &[u8], error: u64) -> usize
    ensures { Put line.old 0
        (stream.now ++ codes ": error " ++ figure 0 error ++ 10 ∷ []) result line.new }
{
    let a = base::put_text(line, 0, stream);
    let b = base::put_text(line, a, b": error ");
    let c = prints::put_figure(line, b, 0, error);
    base::put_byte(line, c, 10)
}

// Reports on standard error that a call failed for good, and with what number.
fn say_fault(rt: &HostRuntime, stream: &[u8], error: u64) {
    let mut line = [0u8; 256];
    let n = put_fault(&mut line, stream, error);
    let _ = write_all(rt, &mut rt.stderr(), base::part_to(&line, n));
}

fn say_fault_in(rt: &HostRuntime, error: u64) {
    say_fault(rt, b"standard input", error);
}

fn say_fault_out(rt: &HostRuntime, error: u64) {
    say_fault(rt, b"standard output", error);
}

// Reads after the kept bytes; if no byte comes, the count stays as it was.
pub fn take_block(rt: &HostRuntime, room: &mut [u8], kept: usize) -> Got
    requires { kept < length room.old }
    ensures room_unchanged { (take kept room.new ≡ take kept room.old)
        × (kept ≤ result.count) × (result.count ≤ length room.new) }
    ensures count_value { result.failed ≡ true → result.count ≡ kept }
{
    let got = read_some(rt, &mut room[kept..]);
    Got {
        count: kept + got.count,
        failed: got.failed,
    }
}

// Reads until the buffer is full, the input is at its end or a read fails for good.
pub fn read_full(rt: &HostRuntime, buf: &mut [u8]) -> Got
    ensures { result.count ≤ length buf.new }
{
    let mut count = 0;
    while count < buf.len() {
        let got = read_on(rt, &mut buf[count..]);
        if got.count == 0 {
            return Got {
                count,
                failed: got.failed,
            };
        }
        count += got.count;
    }
    Got {
        count,
        failed: false,
    }
}

// Writes all the bytes, or reports a fault and returns false. No contract can say which bytes a write takes.
pub fn write_out(rt: &HostRuntime, bytes: &[u8]) -> bool {
    match write_all(rt, &mut rt.stdout(), bytes) {
        Ok(()) => true,
        Err(error) => {
            say_fault_out(rt, number_of(&error));
            false
        }
    }
}

// The line that reports a refusal.
fn refusal_line(code: u8) -> [u8; 10]
    ensures { code < 10 → result ≡ codes "refused " ++ (48 + code) ∷ 10 ∷ [] }
{
    [
        b'r',
        b'e',
        b'f',
        b'u',
        b's',
        b'e',
        b'd',
        b' ',
        b'0' + code % 10,
        10,
    ]
}

// Reports a refusal by its number, whichever that is.
pub fn say_refusal(rt: &HostRuntime, code: u8) {
    write_out(rt, &refusal_line(code));
}
