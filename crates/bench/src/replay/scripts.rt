//! Scripts, and the replays that are timed.
use alog_config::{Config, read};
use alog_replay::{replay, replay_config};
use anyhow::{Result, ensure};
use std::alloc::Global;
use std::io;

/// One queue, one memory file and one logger.
const CONFIG: &str = "queue = 1024
[[sink]]
name = \"out\"
kind = \"memory\"
pattern = \"%v\"
[[logger]]
name = \"net\"
sinks = [\"out\"]
";

/// A round without a configuration: four lines, nine steps.
const PUSHES: &str = "push 1 text\nrun 1\nwork 2\nrun 2\n";

/// A round with a configuration: four lines, nine steps.
const LOGS: &str = "log 1 0 net info text\nrun 1\nwork 2\nrun 2\n";

/// The lines of a round.
const LINES: u32 = 4;

/// What scripts are replayed on.
#[derive(Drop)]
pub enum Scene {
    /// The queue that they open, and the memory file.
    Plain,
    /// The loggers and sinks of a configuration.
    Configured(Config),
}

impl Scene {
    /// The scene of the small configuration.
    pub fn configured(alloc: Global) -> Result<Scene> {
        Ok(Scene::Configured(read(alloc, CONFIG.as_bytes())?))
    }

    /// The name by which it is printed.
    pub fn name(&self) -> &'static str {
        match self {
            Scene::Plain => "without a configuration",
            Scene::Configured(_) => "with a configuration",
        }
    }

    /// A script of this many lines, a multiple of four, in each round of which a text goes into the queue and out of it to the
    /// file.
    pub fn script(&self, alloc: Global, lines: u32) -> Result<String> {
        let (first, round) = match self {
            Scene::Plain => ("ring 1024 0\n#\n#\n#\n", PUSHES),
            Scene::Configured(_) => ("#\n#\n#\n#\n", LOGS),
        };
        let mut script = String::from_str(alloc, first)?;
        for _ in 1..lines / LINES {
            script.push_str(round)?;
        }
        Ok(script)
    }

    /// Replays a script of this many lines, and drops what it prints.
    pub fn replay(&self, alloc: Global, script: &str, lines: u32) -> Result<()> {
        let mut input = script.as_bytes();
        let mut output = io::sink();
        let found = match self {
            Scene::Plain => replay(alloc, &mut input, &mut output)?,
            Scene::Configured(config) => replay_config(alloc, config, &mut input, &mut output)?,
        };
        ensure!(
            found == u64::from(lines),
            "the script was not replayed whole"
        );
        Ok(())
    }
}
