// Does jobs of a library, for the measurements of bench/: one over standard input, where its word stands alone; or one after
// another, where behind each word its file stands.
#![tactic(auto)]

mod counted;
mod error;
mod explained;
mod filled;
mod future_clauses;
mod futures;
mod job;
mod packages;
mod questions;
mod relations;
mod versions;

use anyhow::{Result, bail};
use job::{Job, answer};
use std::io::{self, Write};
use std::{env, fs};

/// Prints what the job of a word answers on a text.
fn print_answer(rt: &HostRuntime, word: &str, text: &str) -> Result<()> {
    let Some(job) = Job::of(word) else {
        bail!("{word} is no job");
    };
    let answer = answer(rt.alloc(), job, text)?;
    io::writer(rt).write_all(&answer)?;
    Ok(())
}

fn main(rt: HostRuntime) -> Result<()> {
    let mut words = env::args(&rt)?.skip(1);
    while let Some(word) = words.next() {
        let text = match words.next() {
            Some(file) => fs::read_to_string(&rt, file.as_str())?,
            None => io::read_to_string(rt.alloc(), rt.reader())?,
        };
        print_answer(&rt, word.as_str(), text.as_str())?;
    }
    Ok(())
}
