//! The log of a store in a folder, which other records take the place of.
use crate::files::{RECORDS, append};
use rq_disk::{DeviceFailed, LogDevice, Unknown};
use rq_files::open_folder;
use std::fs::File;
use std::io;
use std::rt::Files;

/// For each line of standard input: puts records of zeros in the place of the log, reads them, and appends as many. Prints how
/// many zeros were read.
pub fn run<R: Print + Input + AllocGlobal + Files<File = File>>(
    rt: &R,
    words: &[String],
) -> io::Result<()> {
    let Some(folder) = words.get(1) else {
        return Err(io::ErrorKind::InvalidInput.into());
    };
    match open_folder(rt, folder.as_str(), 0, Unknown) {
        Ok((pages, mut log)) => {
            let done = replaced_by_line(rt, &mut log);
            drop(log);
            drop(pages);
            done
        }
        Err(not_opened) => Err(not_opened.error),
    }
}

fn replaced_by_line<L: LogDevice, R: Print + Input + AllocGlobal>(
    rt: &R,
    log: &mut L,
) -> io::Result<()> {
    for line in rt.lines(rt.alloc()) {
        line?;
        match replaced(log) {
            Ok(zeros) => println!(rt; "{zeros} zeros")?,
            Err(_) => return Err(io::ErrorKind::Other.into()),
        }
    }
    Ok(())
}

fn replaced<L: LogDevice>(log: &mut L) -> Result<usize, DeviceFailed> {
    replace(log)?;
    let mut into = [1; 1024];
    log.read(0, &mut into)?;
    append(log)?;
    log.force()?;
    Ok(into.iter().filter(|byte| **byte == 0).count())
}

fn replace<L: LogDevice>(log: &mut L) -> Result<(), DeviceFailed> {
    log.replace(&RECORDS)
}
