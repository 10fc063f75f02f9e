//! `rqm inspect`: what the log of a store in a folder holds.
use rq_disk::Unknown;
use rq_files::{Fault, look_at_log};
use rq_inspect::{Stop, inspect};
use rq_model::refusal::{Damage, Refusal};
use std::fs::File;
use std::io::{self, Write};
use std::rt::Files;

/// Prints the line of each record of the log in a folder and its report, or why not. Answers the exit status: 0, or 1 where
/// the log is damaged or cannot be read.
pub fn run_inspect<R: Files<File = File> + AllocGlobal, W: Write>(
    rt: &R,
    writer: &mut W,
    folder: &str,
) -> io::Result<u8> {
    match look_at_log(rt, folder, Unknown) {
        Ok(log) => {
            let (_, inspected) = inspect(rt.alloc(), log, writer);
            ended(writer, inspected)
        }
        Err(fault) => print_fault(writer, fault),
    }
}

fn ended<W: Write>(writer: &mut W, inspected: Result<(), Stop>) -> io::Result<u8> {
    match inspected {
        Ok(()) => Ok(0),
        Err(Stop::Refused(Refusal::Damaged(Damage::Record(lsn)))) => {
            writeln!(writer, "damaged record {lsn}")?;
            Ok(1)
        }
        Err(Stop::Refused(refusal)) => print_fault(writer, Fault::Refused(refusal)),
        Err(Stop::Output(error)) => Err(error),
    }
}

fn print_fault<W: Write>(writer: &mut W, fault: Fault) -> io::Result<u8> {
    writeln!(writer, "fault {fault}")?;
    Ok(1)
}
