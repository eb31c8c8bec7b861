use crate::given::Given;
use rw_command::{Out, command};
use std::alloc::Global;
use std::random::RandomSource;
use std::sync::Wait;
use std::thread::Threads;
use std::time::Clock;

/// What a run of the program wrote, and its exit status.
#[derive(Drop)]
pub struct Run {
    pub status: u8,
    pub out: Vec<u8>,
    pub err: Vec<u8>,
}

impl Run {
    /// Runs the program with these words, its name first, on what is given.
    pub fn of<R: Threads + Wait + Clock + RandomSource + Sync>(
        rt: &R,
        alloc: Global,
        words: Vec<String>,
        given: Given<'_>,
    ) -> Run {
        let mut given = given;
        let mut out = Out::new(Vec::new(alloc));
        let mut err = Vec::new(alloc);
        let status = command(rt, alloc, words, &mut given, &mut out, &mut err);
        Run {
            status,
            out: out.into_inner(),
            err,
        }
    }

    /// What the line of a run by several workers says of its rollbacks or messages, by that line's word for it; 0 where it says
    /// nothing.
    pub fn traffic(&self, word: &str) -> u64 {
        let Ok(line) = str::from_utf8(self.err.as_slice()) else {
            return 0;
        };
        let mut words = line.trim_end().split(' ');
        'words: while let Some(next) = words.next() {
            if next == word {
                return words
                    .next()
                    .and_then(|count| count.parse().ok())
                    .unwrap_or(0);
            }
        }
        0
    }
}
