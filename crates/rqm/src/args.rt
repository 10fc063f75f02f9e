//! The words of the command line.
ghost use Rattle.std.specs.Prelude.{◌≡◌};

use clap::{Arg, ArgAction, ArgMatches, Command, Error};
use rq_page::layout::{CELLS_LIMIT, DIRECTORY_LIMIT, Layout, TAGS_LIMIT};
use rq_pool::frame_count::FrameCount;
use std::alloc::{AllocError, Global};
use std::io::ErrorKind;
use std::rt::Env;
use std::{env, io};

/// What `rqm --version` prints.
const VERSION: &str = "0.1.0";

/// In how many frames a store is opened where the words don't say it.
const FRAMES: u32 = 64;

/// How many threads serve connections where the words don't say it, and at most.
const WORKERS: u32 = 4;

const MOST_WORKERS: i64 = 64;

/// What the words ask for.
#[derive(Drop)]
pub enum Args {
    /// A script over a store of this layout, in memory, which is opened in so many frames.
    Run(Layout, FrameCount),
    /// A new store of this layout, in this folder.
    Format(String, Layout),
    /// A server over the store in a folder.
    Serve(Serve),
    /// One record in the place of the log of the store in this folder.
    Checkpoint(String),
    /// So many tag pages for the store in this folder, which has none.
    Migrate(String, u32),
    /// What the log of the store in this folder holds.
    Inspect(String),
    /// Nothing more: the words were answered, with this status.
    Answered(u8),
}

/// A server over the store in a folder.
#[derive(Drop)]
pub struct Serve {
    /// The folder.
    pub folder: String,
    /// The port on 127.0.0.1; 0 for any that is free.
    pub port: u16,
    /// How many threads serve connections.
    pub workers: u32,
    /// After how many sessions it ends; 0 for no end.
    pub sessions: u64,
    /// Whether it ends with standard input.
    pub until_input_ends: bool,
    /// From how many bytes on of its log a checkpoint is made; 0 for never.
    pub checkpoint_after: u64,
    /// In how many frames the store is opened.
    pub frames: FrameCount,
}

/// Reads the words of the process. Words that are not accepted, one that is not UTF-8 among them, and those that ask for
/// help, are answered here.
pub fn read<R: Env + Print + Eprint + AllocGlobal>(rt: &R) -> io::Result<Args> {
    let alloc = rt.alloc();
    let mut words = Vec::new(alloc);
    let args = match env::args(rt) {
        Err(error) if error.kind() == ErrorKind::InvalidData => return not_text(rt),
        args => args?,
    };
    for word in args {
        words.push(word)?;
    }
    match parse(alloc, &words) {
        Ok(Some(asked)) => Ok(asked),
        Ok(None) => Ok(Args::Answered(2)),
        Err(error) => {
            error.print(rt)?;
            Ok(Args::Answered(if error.use_stderr() { 2 } else { 0 }))
        }
    }
}

// Answers a word that is not UTF-8, as other words that are not accepted.
fn not_text<R: Eprint>(rt: &R) -> io::Result<Args> {
    eprintln!(rt; "error: a word is not UTF-8\n\nFor more information, try '--help'.")?;
    Ok(Args::Answered(2))
}

fn parse(alloc: Global, words: &[String]) -> Result<Option<Args>, Error> {
    let matches = command(alloc)?.try_get_matches_from(words)?;
    Ok(asked(alloc, &matches)?)
}

// What the words ask for, which were accepted.
fn asked(alloc: Global, matches: &ArgMatches<'_>) -> Result<Option<Args>, AllocError> {
    match matches.subcommand() {
        Some(("run", run)) => Ok(script(run)),
        Some(("format", format)) => store(alloc, format),
        Some(("serve", serve)) => server(alloc, serve),
        Some(("checkpoint", checkpoint)) => { Ok(folder(alloc, checkpoint)?.map(Args::Checkpoint)) }
        Some(("migrate", migrate)) => migration(alloc, migrate),
        Some(("inspect", inspect)) => Ok(folder(alloc, inspect)?.map(Args::Inspect)),
        _ => Ok(None),
    }
}

fn script(run: &ArgMatches<'_>) -> Option<Args> {
    Some(Args::Run(layout(run)?, frames_of(run)?))
}

fn store(alloc: Global, format: &ArgMatches<'_>) -> Result<Option<Args>, AllocError> {
    let (Some(folder), Some(layout)) = (folder(alloc, format)?, layout(format)) else {
        return Ok(None);
    };
    Ok(Some(Args::Format(folder, layout)))
}

fn server(alloc: Global, matches: &ArgMatches<'_>) -> Result<Option<Args>, AllocError> {
    let (Some(folder), Some(port), Some(frames)) = (
        folder(alloc, matches)?,
        matches.get_one::<u16>("port"),
        frames_of(matches),
    ) else {
        return Ok(None);
    };
    Ok(Some(Args::Serve(Serve {
        folder,
        port,
        workers: matches.get_one::<u32>("workers").unwrap_or(WORKERS),
        sessions: matches.get_one::<u64>("sessions").unwrap_or(0),
        until_input_ends: matches.get_flag("until-input-ends"),
        checkpoint_after: matches.get_one::<u64>("checkpoint-after").unwrap_or(0),
        frames,
    })))
}

fn migration(alloc: Global, matches: &ArgMatches<'_>) -> Result<Option<Args>, AllocError> {
    let (Some(folder), Some(tags)) = (folder(alloc, matches)?, matches.get_one::<u32>("tags"))
    else {
        return Ok(None);
    };
    Ok(Some(Args::Migrate(folder, tags)))
}

fn folder(alloc: Global, matches: &ArgMatches<'_>) -> Result<Option<String>, AllocError> {
    match matches.get_str("folder") {
        Some(folder) => Ok(Some(String::from_str(alloc, folder)?)),
        None => Ok(None),
    }
}

fn layout(matches: &ArgMatches<'_>) -> Option<Layout> {
    let directory = matches.get_one::<u32>("directory")?;
    let cells = matches.get_one::<u32>("cells")?;
    let tags = matches.get_one::<u32>("tags").unwrap_or(0);
    Layout::new(directory, cells, tags)
}

/// In how many frames a store is opened by a command that has no word for it.
pub fn usual_frames() -> FrameCount
    ensures { result.count ≡ 64 }
{
    match FrameCount::new(FRAMES) {
        Some(frames) => frames,
        None => FrameCount::most(),
    }
}

fn frames_of(matches: &ArgMatches<'_>) -> Option<FrameCount> {
    FrameCount::new(matches.get_one::<u32>("frames").unwrap_or(FRAMES))
}

fn command<'a>(alloc: Global) -> Result<Command<'a>, AllocError> {
    let rqm = Command::new(alloc, "rqm")
        .bin_name("rqm")?
        .about("A recoverable queue manager")
        .version(VERSION)
        .subcommand_required(true);
    let rqm = with(rqm, run_command(alloc))?;
    let rqm = with(rqm, format_command(alloc))?;
    let rqm = with(rqm, serve_command(alloc))?;
    let rqm = with(rqm, checkpoint_command(alloc))?;
    let rqm = with(rqm, migrate_command(alloc))?;
    with(rqm, inspect_command(alloc))
}

// A command with this one under it, where that could be made.
fn with<'a>(
    command: Command<'a>,
    under: Result<Command<'a>, AllocError>,
) -> Result<Command<'a>, AllocError> {
    match under {
        Ok(under) => command.subcommand(under),
        Err(error) => {
            drop(command);
            Err(error)
        }
    }
}

fn run_command<'a>(alloc: Global) -> Result<Command<'a>, AllocError> {
    Command::new(alloc, "run")
        .about("Runs a script from standard input over a store in memory")
        .arg(directory(alloc))?
        .arg(cells(alloc))?
        .arg(tags(
            alloc,
            "Tag pages, of 15 clients each; none where it is not said",
        ))?
        .arg(frames(alloc))
}

fn format_command<'a>(alloc: Global) -> Result<Command<'a>, AllocError> {
    Command::new(alloc, "format")
        .about("Makes the files of an empty store in a folder that is there")
        .arg(named_folder(alloc, "Where the files are made"))?
        .arg(directory(alloc))?
        .arg(cells(alloc))?
        .arg(tags(
            alloc,
            "Tag pages, of 15 clients each; none where it is not said",
        ))
}

fn serve_command<'a>(alloc: Global) -> Result<Command<'a>, AllocError> {
    let workers = "Threads that serve connections";
    Command::new(alloc, "serve")
        .about("Serves the store in a folder over TCP, to this machine alone")
        .arg(named_folder(alloc, "Where the files are"))?
        .arg(port(alloc))?
        .arg(number(alloc, "workers", workers, 1, MOST_WORKERS))?
        .arg(sessions(alloc))?
        .arg(until_input_ends(alloc))?
        .arg(checkpoint_after(alloc))?
        .arg(frames(alloc))
}

fn checkpoint_command<'a>(alloc: Global) -> Result<Command<'a>, AllocError> {
    Command::new(alloc, "checkpoint")
        .about("Makes the log of the store in a folder one record, so that it opens at once")
        .arg(named_folder(alloc, "Where the files are"))
}

fn migrate_command<'a>(alloc: Global) -> Result<Command<'a>, AllocError> {
    Command::new(alloc, "migrate")
        .about("Gives the store in a folder tag pages, where it has none")
        .arg(named_folder(alloc, "Where the files are"))?
        .arg(tags(alloc, "Tag pages that it is given, of 15 clients each").required(true))
}

fn inspect_command<'a>(alloc: Global) -> Result<Command<'a>, AllocError> {
    Command::new(alloc, "inspect")
        .about(
            "Prints what the log of a store in files holds, record by record, and changes nothing",
        )
        .arg(named_folder(alloc, "Where the store is"))
}

fn named_folder<'a>(alloc: Global, help: &'a str) -> Arg<'a> {
    Arg::new(alloc, "folder")
        .value_name("FOLDER")
        .help(help)
        .required(true)
}

fn port<'a>(alloc: Global) -> Arg<'a> {
    Arg::new(alloc, "port")
        .long("port")
        .help("The port on 127.0.0.1; 0 for any that is free")
        .action(ArgAction::Set)
        .value_parser(clap::value_parser!(u16))
        .required(true)
}

fn sessions<'a>(alloc: Global) -> Arg<'a> {
    Arg::new(alloc, "sessions")
        .long("sessions")
        .help("After how many sessions it ends; 0 for no end")
        .action(ArgAction::Set)
        .value_parser(clap::value_parser!(u64))
}

fn until_input_ends<'a>(alloc: Global) -> Arg<'a> {
    Arg::new(alloc, "until-input-ends")
        .long("until-input-ends")
        .help("Ends once standard input, a pipe, is closed: open sessions are lost")
        .action(ArgAction::SetTrue)
}

fn checkpoint_after<'a>(alloc: Global) -> Arg<'a> {
    Arg::new(alloc, "checkpoint-after")
        .long("checkpoint-after")
        .value_name("BYTES")
        .help("From how many bytes on the log is made one record; 0 for never")
        .action(ArgAction::Set)
        .value_parser(clap::value_parser!(u64))
}

fn frames<'a>(alloc: Global) -> Arg<'a> {
    let help = "Pages that are kept in memory beside the superblock, else 64";
    let (fewest, most) = (i64::from(FrameCount::FEWEST), i64::from(FrameCount::MOST));
    number(alloc, "frames", help, fewest, most)
}

fn directory<'a>(alloc: Global) -> Arg<'a> {
    let help = "Directory pages, of 15 senders each";
    number(alloc, "directory", help, 1, i64::from(DIRECTORY_LIMIT)).required(true)
}

fn cells<'a>(alloc: Global) -> Arg<'a> {
    let help = "Cell pages, of 15 messages each";
    number(alloc, "cells", help, 1, i64::from(CELLS_LIMIT)).required(true)
}

fn tags<'a>(alloc: Global, help: &'a str) -> Arg<'a> {
    number(alloc, "tags", help, 1, i64::from(TAGS_LIMIT))
}

fn number<'a>(alloc: Global, name: &'a str, help: &'a str, least: i64, most: i64) -> Arg<'a> {
    Arg::new(alloc, name)
        .long(name)
        .help(help)
        .action(ArgAction::Set)
        .value_parser(clap::value_parser!(u32).range(least..=most))
}
