// One search file after another: reads, goes through the lines, prints what comes of each.
use patrol::{Event, Search};
use searchfile::{Action, Fault, Statement};
use signal::Clock;
use std::{fs, io};
use thiserror::Error;

// After so many lines of a file a line on standard error tells how far it is.
const LINES_A_SIGN: usize = 10_000;

// The program stops before its end. What is wrong has then been told.
pub struct Stop;

// By hand: the derive keeps the error in a field, and this has none.
impl From<io::Error> for Stop {
    fn from(_e: io::Error) -> Stop {
        Stop
    }
}

// Why a line is not gone through: it is at fault, or what comes of it can't be printed.
#[derive(Debug, Drop, Error)]
enum Undone {
    #[error(transparent)]
    Fault(#[from] Fault),
    #[error(transparent)]
    Printing(#[from] io::Error),
}

// Tells of a file that can't be read or written.
pub fn unusable(rt: &HostRuntime, path: &str, e: io::Error) -> Stop {
    let _ = eprintln!(rt; "search: {path}: {e}");
    Stop
}

// Tells that standard output can't be written.
pub fn unprinted(rt: &HostRuntime, e: io::Error) -> Stop {
    unusable(rt, "standard output", e)
}

// Goes through one file, and adds its records to the season's text.
pub fn file(rt: &HostRuntime, path: &str, season: &mut String) -> Result<(), Stop> {
    let bytes = fs::read(rt, path).map_err(|e| unusable(rt, path, e))?;
    let mut reading = Reading {
        rt,
        path,
        search: Search::new(rt.alloc()),
    };
    let done = match std::str::from_utf8(bytes.as_slice()) {
        Ok(text) => reading.through(text, season),
        Err(e) => {
            let number = line_of(bytes.as_slice(), e.valid_up_to());
            Err(reading.told(number, "", Undone::Fault(Fault::Text)))
        }
    };
    // no `?` before this: a search holds the tickets of its open links
    reading.over();
    done
}

// The number of the line that a byte stands on.
fn line_of(bytes: &[u8], at: usize) -> usize {
    let ends = bytes.iter().take(at).filter(|b| **b == b'\n').count();
    ends.saturating_add(1)
}

// A search file under way.
struct Reading<'a> {
    rt: &'a HostRuntime,
    path: &'a str,
    search: Search,
}

impl Reading<'_> {
    // Goes through the lines of a text. A byte order mark before the first is no part of it.
    fn through(&mut self, text: &str, season: &mut String) -> Result<(), Stop> {
        let text = text.strip_prefix('\u{FEFF}').unwrap_or(text);
        let all = text.lines().count();
        for (number, line) in (1..).zip(text.lines()) {
            self.one(line)
                .map_err(|undone| self.told(number, line, undone))?;
            if number % LINES_A_SIGN == 0 {
                self.sign(number, all);
            }
        }
        self.ending(season)
            .map_err(|undone| self.told(all.saturating_add(1), "", undone))
    }

    // A sign of life on standard error: how far a long file is.
    fn sign(&self, number: usize, all: usize) {
        let path = self.path;
        let _ = eprintln!(self.rt; "{path}: {number} of {all} lines");
    }

    // Tells a bad line: where, what was expected, and the line's beginning.
    fn told(&self, number: usize, line: &str, undone: Undone) -> Stop {
        let fault = match undone {
            Undone::Fault(fault) => fault,
            Undone::Printing(e) => return unprinted(self.rt, e),
        };
        let path = self.path;
        let _ = eprintln!(self.rt; "{path}:{number}: {fault}");
        let shown = line
            .trim()
            .chars()
            .take(100)
            .map(|c| if c.is_control() { '?' } else { c })
            .collect::<String>(self.rt.alloc());
        if let Ok(shown) = shown
            && !shown.is_empty()
        {
            let _ = eprintln!(self.rt; "    {shown}");
        }
        Stop
    }

    // One line: what it says is done, and what came of it printed.
    fn one(&mut self, line: &str) -> Result<(), Undone> {
        match searchfile::parse(self.rt.alloc(), line)? {
            Statement::Blank => Ok(()),
            Statement::Title { title } => {
                self.search.begin(title)?;
                println!(self.rt; "search {title}")?;
                Ok(())
            }
            Statement::Radio { cipher } => {
                self.search.tune(cipher)?;
                println!(self.rt; "radio {cipher}")?;
                Ok(())
            }
            Statement::Set {
                role,
                name,
                cells,
                key_cells,
            } => {
                let event = self.search.declare(role, name, cells, key_cells)?;
                println!(self.rt; "{role} {name}: {event}")?;
                Ok(())
            }
            Statement::Step {
                second,
                name,
                action,
            } => self.step(second, name, action),
        }
    }

    fn step(&mut self, second: u32, name: &str, action: Action) -> Result<(), Undone> {
        let event = self.search.act(second, name, &action)?;
        let time = Clock(second);
        println!(self.rt; "{time} {name}: {event}")?;
        match event {
            Event::Listed => self.lists(name),
            _ => Ok(()),
        }
    }

    // Prints what a set's lists tell the probers.
    fn lists(&self, name: &str) -> Result<(), Undone> {
        let board = self.search.board(name)?;
        print!(self.rt; "{board}")?;
        Ok(())
    }

    // The search is over, at its end or at a bad line.
    fn over(self) {
        let Reading {
            rt: _,
            path: _,
            search,
        } = self;
        search.over();
    }

    // The end of a search: the leader reads the lists, and the season gets its lines.
    fn ending(&self, season: &mut String) -> Result<(), Undone> {
        let leader = self.search.leader()?;
        match self.search.links() {
            0 => {}
            1 => println!(self.rt; "1 link is still open, and is struck")?,
            n => println!(self.rt; "{n} links are still open, and are struck")?,
        }
        println!(self.rt; "the search ends; {leader} lists")?;
        self.lists(leader)?;
        self.search.season(season)?;
        Ok(())
    }
}
