// The words that the program is started with.
use std::alloc::{AllocError, Global};
use thiserror::Error;

// What they ask for.
#[derive(Drop)]
pub enum Asked {
    Help,
    Run(Options),
}

#[derive(Drop)]
pub struct Options {
    pub files: Vec<String>,
    // where the season's file goes; standard output where there is none
    pub season: Option<String>,
}

// What is wrong with them.
#[derive(Clone, Copy, Debug, Error)]
pub enum Wrong {
    #[error("expected a search file; try --help")]
    NoFile,
    #[error("expected a path after --season")]
    NoPath,
    #[error("expected --season once")]
    TwoPaths,
    #[error("expected a path for the season's file that is no search file")]
    Replaces,
    #[error("expected nothing but an older season's file at the path after --season, or at that path with .new")]
    Another,
    #[error("expected no other option than --season and --help")]
    Unknown,
    #[error("no memory is left")]
    Memory(#[from(alloc)] AllocError),
}

impl Asked {
    // Reads the words after the program's own name. Not by crate clap, which tells what is wrong in words of its own.
    pub fn read(heap: Global, words: &[String]) -> Result<Asked, Wrong> {
        let mut files = Vec::new(heap);
        let mut season = None;
        // asked for after all words are read, so that a bad word is told first
        let mut help = false;
        let mut words = words.iter();
        while let Some(word) = words.next() {
            match word.as_str() {
                "--season" => {
                    let path = words.next().ok_or(Wrong::NoPath)?;
                    if season.is_some() {
                        return Err(Wrong::TwoPaths);
                    }
                    if path.is_empty() {
                        return Err(Wrong::NoPath);
                    }
                    season = Some(path.clone()?);
                }
                "--help" => help = true,
                option if option.starts_with('-') => return Err(Wrong::Unknown),
                _ => files.push(word.clone()?)?,
            }
        }
        if help {
            Ok(Asked::Help)
        } else if files.is_empty() {
            Err(Wrong::NoFile)
        } else {
            Ok(Asked::Run(Options { files, season }))
        }
    }
}

impl Options {
    // Whether the season's file would be put in the place of a search file. Without a path, an empty file name is told so too.
    pub fn replaces_a_file(&self) -> bool {
        let path = self.season.as_ref().map_or("", |path| path.as_str());
        self.files.iter().any(|file| file.as_str() == path)
    }
}
