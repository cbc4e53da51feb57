// The vector program: runs every vector of its data files through the proved ciphers, and compares.
// Promises to be safe and to end; what passes a comparison is promised where it is made (compare).
// Rests on the line format (lines), the comparisons (trial) and the clock (speed).
#![tactic(auto)]

use anyhow::bail;
use compare::Fault;
use lines::Line;
use std::alloc::Global;
use std::{env, fs};
use trial::Trial;

mod banks;
mod expansion;
mod lines;
mod link_speed;
mod messages;
mod speed;
mod steps;
mod tally;
mod trial;

const FILES: [&str; 6] = [
    "mkv_published.txt",
    "mkv_random.txt",
    "mkv_modes.txt",
    "aes_published.txt",
    "aes_random.txt",
    "aes_modes.txt",
];

#[derive(Clone, Copy, Default)]
struct Total {
    vectors: usize,
    values: u64,
}

// Takes one line in: `vector` begins a new trial, any other line goes to the last one.
fn take_line(heap: Global, trials: &mut Vec<Trial>, line: &str) -> Result<(), Fault> {
    match lines::parse(heap, line)? {
        Line::Blank => Ok(()),
        Line::Vector { cipher, name } => {
            if let Some(trial) = trials.last_mut() {
                trial.end();
            }
            trials.push(Trial::begin(heap, cipher, name)?)?;
            Ok(())
        }
        Line::Entry(entry) => trials
            .last_mut()
            .ok_or(Fault::Form("`vector CIPHER NAME` before this"))?
            .take(entry),
    }
}

// Runs the vectors of a file, and says of each what was compared, or where the first difference is.
fn run_file(rt: &HostRuntime, file: &str, total: &mut Total) -> anyhow::Result<()> {
    let heap = rt.alloc();
    let text = fs::read_to_string(rt, file)?;
    let mut trials = Vec::new(heap);
    for (line, number) in text.as_str().lines().zip(1u64..) {
        if let Err(fault) = take_line(heap, &mut trials, line) {
            if let Some(trial) = trials.last() {
                println!(rt; "{trial}; then")?;
            }
            println!(rt; "{file}, line {number}: {fault}")?;
            println!(rt; "the line is: {line}")?;
            bail!("the comparison stopped");
        }
    }
    for trial in trials.iter() {
        println!(rt; "{trial}")?;
        total.values = total.values.saturating_add(trial.values());
    }
    total.vectors = total.vectors.saturating_add(trials.len());
    Ok(())
}

fn compare(rt: &HostRuntime) -> anyhow::Result<()> {
    let mut total = Total::default();
    for file in FILES {
        run_file(rt, file, &mut total)?;
    }
    let Total { vectors, values } = total;
    println!(rt; "{vectors} vectors, {values} values compared, no difference")?;
    Ok(())
}

// With the argument `speed` it measures; with none it compares.
fn main(rt: HostRuntime) -> anyhow::Result<()> {
    match env::args(&rt)?.nth(1) {
        Some(word) if word.as_str() == "speed" => speed::measure(&rt),
        Some(_) => bail!("the only argument is speed"),
        None => compare(&rt),
    }
}
