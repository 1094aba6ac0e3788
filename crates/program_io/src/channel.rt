// The channel: what stands open as descriptor 3 when a program starts. std opens files by name, so it is opened once more by its name in the system.
use std::fs::{File, OpenOptions};
use std::io::Read;
use std::os::unix::fs::{FileTypeExt, MetadataExt};
use std::rt::Files;

#[derive(Drop)]
pub enum Channel {
    // It is standard output, or standard error.
    Output,
    Errors,
    Opened(File),
    // It is not open, or not for writing.
    Nowhere,
}

// Whether a byte is an octal digit of an open file's access that has writing in it.
fn has_writing(b: u8) -> bool {
    b'0' <= b && b % 4 != 0
}

// The last digit behind the word `flags:`; 0 where there is none.
fn access(text: &[u8]) -> u8 {
    let mut in_flags = false;
    let mut last: u8 = 0;
    for b in text {
        if *b == b'f' {
            in_flags = true;
        }
        if *b == b'\n' && in_flags {
            return last;
        }
        last = *b;
    }
    0
}

// What the system says of the descriptor, which is read only to see whether it may be written.
fn is_writable(rt: &HostRuntime) -> bool {
    let Ok(mut file) = File::open(rt, "/proc/self/fdinfo/3") else {
        return false;
    };
    let mut text = [0u8; 64];
    let Ok(n) = file.read(&mut text) else {
        return false;
    };
    has_writing(access(crate::front(&text, n)))
}

// Whether two names lead to one file.
fn is_one(rt: &HostRuntime, a: &str, b: &str) -> bool {
    let Ok(one) = rt.metadata(a) else {
        return false;
    };
    let Ok(other) = rt.metadata(b) else {
        return false;
    };
    one.dev() == other.dev() && one.ino() == other.ino()
}

// Whether it is a pipe.
fn is_pipe(rt: &HostRuntime) -> bool {
    rt.metadata("/proc/self/fd/3")
        .is_ok_and(|m| m.file_type().is_fifo())
}

// Every line goes to the end of a file, where the descriptor stands, too.
fn append(rt: &HostRuntime) -> Channel {
    match OpenOptions::new().append(true).open(rt, "/proc/self/fd/3") {
        Ok(file) => Channel::Opened(file),
        Err(_) => Channel::Nowhere,
    }
}

// The opening of a pipe waits for a reader, so it is held open for reading meanwhile, and no longer: who reads it is another.
fn open(rt: &HostRuntime) -> Channel {
    if !is_pipe(rt) {
        return append(rt);
    }
    match OpenOptions::new()
        .read(true)
        .write(true)
        .open(rt, "/proc/self/fd/3")
    {
        Ok(_held) => append(rt),
        Err(_) => Channel::Nowhere,
    }
}

// Before any file is opened, so that none has this number.
pub fn find(rt: &HostRuntime) -> Channel {
    if !is_writable(rt) {
        return Channel::Nowhere;
    }
    if is_one(rt, "/proc/self/fd/3", "/proc/self/fd/1") {
        return Channel::Output;
    }
    if is_one(rt, "/proc/self/fd/3", "/proc/self/fd/2") {
        return Channel::Errors;
    }
    open(rt)
}
