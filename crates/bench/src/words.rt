//! The words of the command line, taken one after the other.

use anyhow::{Context, Result};
use std::collections::VecDeque;
use std::env;

/// The words that are left.
#[derive(Drop)]
pub struct Words {
    left: VecDeque<String>,
}

impl Words {
    /// The words behind the name of the program.
    pub fn of_command_line(rt: &HostRuntime) -> Result<Words> {
        let mut left = VecDeque::new(rt.alloc());
        for word in env::args(rt)?.skip(1) {
            left.push_back(word)?;
        }
        Ok(Words { left })
    }

    /// How many are left.
    pub fn count(&self) -> usize {
        self.left.len()
    }

    /// The next word, if there is one.
    pub fn next(&mut self) -> Option<String> {
        self.left.pop_front()
    }

    /// The next word, which answers a question.
    pub fn word(&mut self, question: &'static str) -> Result<String> {
        self.next().context(question)
    }

    /// The next word as a number.
    pub fn number(&mut self, question: &'static str) -> Result<u32> {
        let word = self.word(question)?;
        word.as_str().parse().context(question)
    }
}
