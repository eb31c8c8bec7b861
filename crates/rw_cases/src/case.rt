use crate::given::Given;
use crate::run::Run;
use anyhow::Result;
use serde_json::Value;
use std::alloc::{AllocError, Global};
use std::random::RandomSource;
use std::sync::Wait;
use std::thread::Threads;
use std::time::Clock;

/// One run of the program and what is expected of it.
#[derive(Drop)]
pub struct Case {
    value: Value,
}

impl Case {
    /// Reads a case.
    pub fn parse(alloc: Global, line: &str) -> Result<Case> {
        Ok(Case {
            value: Value::from_str(alloc, line)?,
        })
    }

    /// What the case shows.
    pub fn name(&self) -> &str {
        self.text("name")
    }

    /// Runs the case, and tells whether the program does what it says. Where the case says nothing of standard error,
    /// as of the line that tells what rounds did, any will do.
    pub fn agrees<R: Threads + Wait + Clock + RandomSource + Sync>(
        &self,
        rt: &R,
        alloc: Global,
    ) -> Result<bool, AllocError> {
        let words = self.words(alloc)?;
        let given = Given {
            bytes: self.text("stdin").as_bytes(),
            files: self.value.get("files"),
        };
        let run = Run::of(rt, alloc, words, given);
        Ok(self.expects(&run))
    }

    /// Whether the run is what the case says.
    fn expects(&self, run: &Run) -> bool {
        let status = self.value.get("status").and_then(Value::as_u64);
        let same_err = match self.value.get("stderr").and_then(Value::as_str) {
            Some(text) => run.err.as_slice() == text.as_bytes(),
            None => true,
        };
        status == Some(u64::from(run.status)) && self.has_written(run.out.as_slice()) && same_err
    }

    /// Whether this is what the case says of the output: the whole of it, or some texts that stand in it.
    fn has_written(&self, out: &[u8]) -> bool {
        let Some(texts) = self.value.get("holds").and_then(Value::as_array) else {
            return out == self.text("stdout").as_bytes();
        };
        let Ok(out) = str::from_utf8(out) else {
            return false;
        };
        texts
            .iter()
            .all(|text| out.contains(text.as_str().unwrap_or("")))
    }

    /// The program's words, its name first.
    fn words(&self, alloc: Global) -> Result<Vec<String>, AllocError> {
        let mut words = Vec::new(alloc);
        words.push(String::from_str(alloc, "ripqwarp")?)?;
        if let Some(args) = self.value.get("args").and_then(Value::as_array) {
            for arg in args {
                words.push(String::from_str(alloc, arg.as_str().unwrap_or(""))?)?;
            }
        }
        Ok(words)
    }

    /// The text of a member, empty where it is missing.
    fn text(&self, member: &str) -> &str {
        self.value.get(member).and_then(Value::as_str).unwrap_or("")
    }
}
