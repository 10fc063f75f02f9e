//! Records of 600 bytes, appended to a log in a file that is forced every 64.
use crate::words::number;
use rq_disk::{DeviceFailed, FileLog, Fixed, LogDevice, NotedFile, Unknown};
use std::fs::{File, OpenOptions};
use std::io;
use std::io::Write;
use std::rt::Files;

/// What is appended: 150 records, each of a length field alone.
pub const RECORDS: [u8; 600] = [0; 600];

const APPENDS_A_FORCE: u32 = 64;

/// Writes the file anew, by so many appends, and prints how many there were.
pub fn run<R: Print + Files<File = File>>(rt: &R, words: &[String]) -> io::Result<()> {
    let (Some(path), Some(count)) = (words.get(1), number(words, 2)) else {
        return Err(io::ErrorKind::InvalidInput.into());
    };
    let file = OpenOptions::new()
        .read(true)
        .write(true)
        .create(true)
        .truncate(true)
        .open(rt, path)?;
    let mut log = FileLog::<Unknown, NotedFile>::open(file, Fixed)?;
    let Ok(()) = append_all(&mut log, count) else {
        return Err(io::ErrorKind::Other.into());
    };
    let mut writer = io::writer(rt);
    writeln!(writer, "{count} appends")
}

fn append_all<L: LogDevice>(log: &mut L, count: u32) -> Result<(), DeviceFailed> {
    for n in 0..count {
        append(log)?;
        if n % APPENDS_A_FORCE == APPENDS_A_FORCE - 1 {
            log.force()?;
        }
    }
    log.force()
}

/// Appends these records.
pub fn append<L: LogDevice>(log: &mut L) -> Result<(), DeviceFailed> {
    log.append(&RECORDS)
}
