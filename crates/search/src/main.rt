// The program: reads search files, goes through each search step by step, and writes the season's file.
// Promises nothing by itself: what it prints of a step is what `patrol` returned.
// Rests on `patrol`, `searchfile` and `signal`.
#![tactic(auto)]

mod options;
mod run;

use options::{Asked, Options, Wrong};
use run::Stop;
use std::io::Read;
use std::process::ExitCode;
use std::{env, fs, io};

const HELP: &str = "search FILE.. [--season PATH]

Goes through each search file in turn and prints each step, each refusal with its
number, and what the leader's lists then tell the probers. Then writes the season's
file, one line a record, to PATH; to standard output where no PATH is given.

  --season PATH   where the season's file goes; an older season's file there is
                  replaced, any other file is left alone and told
  --help          this text

docs/FORMATS.md has the form of both files. A line that is none is told with its
number and what was expected there; no season's file is written then. How far a
long file is, is told on standard error every 10000 lines.";

fn main(rt: HostRuntime) -> ExitCode {
    match start(&rt) {
        Ok(()) => ExitCode::SUCCESS,
        Err(Stop) => ExitCode::FAILURE,
    }
}

// Does what the words after the program's name ask for.
fn start(rt: &HostRuntime) -> Result<(), Stop> {
    let words = env::args(rt)?.skip(1).collect::<Vec<String>>(rt.alloc());
    let asked = words
        .map_err(Wrong::from)
        .and_then(|words| Asked::read(rt.alloc(), words.as_slice()));
    match asked.map_err(|what| wrong(rt, what))? {
        Asked::Help => rt.println(HELP).map_err(|e| run::unprinted(rt, e)),
        Asked::Run(options) => all(rt, &options),
    }
}

// Tells what is wrong with the words.
fn wrong(rt: &HostRuntime, what: Wrong) -> Stop {
    let _ = eprintln!(rt; "search: {what}");
    Stop
}

// Every file in turn; only when all is well, the season's file.
fn all(rt: &HostRuntime, options: &Options) -> Result<(), Stop> {
    if options.replaces_a_file() {
        return Err(wrong(rt, Wrong::Replaces));
    }
    if let Some(path) = &options.season {
        replaceable(rt, path.as_str())?;
    }
    let mut season = String::from_str(rt.alloc(), patrol::HEADING).map_err(|e| wrong(
        rt,
        Wrong::from(e),
    ))?;
    for name in options.files.iter() {
        run::file(rt, name.as_str(), &mut season)?;
    }
    match &options.season {
        None => print!(rt; "\n{season}").map_err(|e| run::unprinted(rt, e)),
        Some(path) => save(rt, path.as_str(), season.as_str()),
    }
}

// The file that a season's file is first written to.
fn beside(rt: &HostRuntime, path: &str) -> Result<String, Stop> {
    format!(in rt.alloc(); "{path}.new").map_err(|e| wrong(rt, Wrong::from(e)))
}

// A season's file takes the place of none, of an empty or of an older season's file, and of no other: here and beside.
fn replaceable(rt: &HostRuntime, path: &str) -> Result<(), Stop> {
    let beside = beside(rt, path)?;
    if is_another(rt, path) || is_another(rt, beside.as_str()) {
        return Err(wrong(rt, Wrong::Another));
    }
    Ok(())
}

// Whether a file is there that can be read and is neither empty nor a season's.
fn is_another(rt: &HostRuntime, path: &str) -> bool {
    beginning(rt, path).is_ok_and(|old| {
        let old = old.as_slice();
        !old.is_empty() && !old.starts_with(patrol::HEADING.as_bytes())
    })
}

// As much of a file as a season's first line has; none of what is no file, as a pipe, from which nothing may ever come.
fn beginning(rt: &HostRuntime, path: &str) -> io::Result<Vec<u8>> {
    let mut old = Vec::new(rt.alloc());
    if fs::metadata(rt, path)?.is_file() {
        let file = fs::open(rt, path)?;
        file.take(patrol::HEADING.len() as u64)
            .read_to_end(&mut old)?;
    }
    Ok(old)
}

// Writes a file beside the old one and then puts it in its place, so that a full disk takes nothing away.
fn save(rt: &HostRuntime, path: &str, text: &str) -> Result<(), Stop> {
    let beside = beside(rt, path)?;
    fs::write(rt, beside.as_str(), text).map_err(|e| run::unusable(rt, beside.as_str(), e))?;
    fs::rename(rt, beside.as_str(), path).map_err(|e| {
        let _ = eprintln!(rt; "search: the season's file lies in {beside}");
        run::unusable(rt, path, e)
    })
}
