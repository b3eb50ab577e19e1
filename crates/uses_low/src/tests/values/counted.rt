//! Counting over devices that fail, take nothing or are interrupted.
use pf_values::Counted;
use std::io;
use std::io::{Error, ErrorKind, Read, Write};

#[derive(Clone, Copy)]
enum Answer {
    Takes(usize),
    Fails(ErrorKind),
}

// Gives one answer to every call, and counts the calls.
#[derive(Drop)]
struct Device {
    answer: Answer,
    calls: u32,
}

impl Device {
    fn call(&mut self) -> Answer {
        self.calls = self.calls.saturating_add(1);
        self.answer
    }
}

impl Read for Device {
    fn read(&mut self, buf: &mut [u8]) -> io::Result<usize> {
        match self.call() {
            Answer::Takes(n) => Ok(n.min(buf.len())),
            Answer::Fails(kind) => Err(Error::from(kind)),
        }
    }
}

impl Write for Device {
    fn write(&mut self, buf: &[u8]) -> io::Result<usize> {
        match self.call() {
            Answer::Takes(n) => Ok(n.min(buf.len())),
            Answer::Fails(kind) => Err(Error::from(kind)),
        }
    }

    fn flush(&mut self) -> io::Result<()> {
        match self.call() {
            Answer::Takes(_) => Ok(()),
            Answer::Fails(kind) => Err(Error::from(kind)),
        }
    }
}

fn counting(answer: Answer) -> Counted<Device> {
    Counted::new(Device { answer, calls: 0 })
}

// How many failures a write, a write of nothing, a read and a flush count, one after another; and how many calls of the
// device they are.
fn failures_of_each(answer: Answer) -> ([u64; 4], u32) {
    let mut device = counting(answer);
    let _ = device.write(b"abc");
    let after_write = device.failures();
    let _ = device.write(b"");
    let after_nothing = device.failures();
    let mut place = [0u8; 4];
    let _ = device.read(&mut place);
    let after_read = device.failures();
    let _ = device.flush();
    let after_flush = device.failures();
    let calls = device.into_inner().calls;
    ([after_write, after_nothing, after_read, after_flush], calls)
}

#[test]
fn each_call_that_fails_counts_once(rt: HostRuntime) {
    assert!(rt;
        [
            failures_of_each(Answer::Takes(3)),
            failures_of_each(Answer::Takes(1)),
            failures_of_each(Answer::Takes(0)),
            failures_of_each(Answer::Fails(ErrorKind::Other)),
            failures_of_each(Answer::Fails(ErrorKind::Interrupted)),
            failures_of_each(Answer::Fails(ErrorKind::WouldBlock)),
        ] == [
            ([0, 0, 0, 0], 4),
            ([0, 0, 0, 0], 4),
            ([1, 1, 1, 1], 4),
            ([1, 2, 3, 4], 4),
            ([1, 2, 3, 4], 4),
            ([1, 2, 3, 4], 4),
        ]
    );
}

fn outcome<T: Copy>(answer: io::Result<T>) -> Result<T, ErrorKind> {
    match answer {
        Ok(value) => Ok(value),
        Err(error) => Err(error.kind()),
    }
}

// What a write, a read and a flush answer, each with the calls of its device.
fn written(answer: Answer, bytes: &[u8]) -> (Result<usize, ErrorKind>, u32) {
    let mut device = counting(answer);
    let found = outcome(device.write(bytes));
    (found, device.into_inner().calls)
}

fn read(answer: Answer, place: &mut [u8]) -> (Result<usize, ErrorKind>, u32) {
    let mut device = counting(answer);
    let found = outcome(device.read(place));
    (found, device.into_inner().calls)
}

fn flushed(answer: Answer) -> (Result<(), ErrorKind>, u32) {
    let mut device = counting(answer);
    let found = outcome(device.flush());
    (found, device.into_inner().calls)
}

#[test]
fn a_call_answers_as_the_device_does(rt: HostRuntime) {
    let takes_two = Answer::Takes(2);
    assert!(rt;
        [written(takes_two, b"abc"), read(takes_two, &mut [0u8; 4])] == [(Ok(2), 1); 2]
            && flushed(takes_two) == (Ok(()), 1)
    );
}

// All that is given goes to the device in one call, however long it is, and an empty place, too.
#[test]
fn a_call_hands_on_all_that_it_is_given(rt: HostRuntime) {
    let takes_all = Answer::Takes(usize::MAX);
    assert!(rt;
        [
            written(takes_all, &[b'x'; 5_000]),
            read(takes_all, &mut [0u8; 5_000]),
            read(takes_all, &mut []),
        ] == [(Ok(5_000), 1), (Ok(5_000), 1), (Ok(0), 1)]
    );
}

fn fails_with(kind: ErrorKind) -> bool {
    let fails = Answer::Fails(kind);
    [written(fails, b"abc"), read(fails, &mut [0u8; 4])] == [(Err(kind), 1); 2]
        && flushed(fails) == (Err(kind), 1)
}

#[test]
fn the_kind_of_an_error_is_the_devices(rt: HostRuntime) {
    for kind in [
        ErrorKind::Interrupted,
        ErrorKind::WouldBlock,
        ErrorKind::BrokenPipe,
        ErrorKind::Other,
    ] {
        assert!(rt; fails_with(kind));
    }
}
