//! A thread that sets the level of its logger, and logs at each level.
use alog_msg::Level;
use alog_server::{Client, Home, LogError, Logger, Work};
use std::sync::Wait;
use std::time::Clock;

/// The levels, from the lowest.
pub(crate) static LEVELS: [Level; 7] = [
    Level::Trace,
    Level::Debug,
    Level::Info,
    Level::Warning,
    Level::Error,
    Level::Critical,
    Level::Off,
];

/// Sets each level in turn.
pub(crate) struct Leveling;

/// Logs the name of the logger's level at each level, and behind that whether the level is on, at a level that always is.
fn logs<H: Home>(
    rt: &(impl Wait + Clock),
    client: &mut Client<H>,
    logger: &Logger<H>,
) -> Result<(), LogError> {
    for level in &LEVELS {
        let own = client.level(logger).name();
        let is_on = client.is_on(logger, *level);
        client.log(rt, logger, *level, own)?;
        client.log(rt, logger, Level::Off, if is_on { "on" } else { "hidden" })?;
    }
    Ok(())
}

impl<R: Wait + Clock> Work<R> for Leveling {
    type Error = LogError;

    fn work<H: Home>(
        &self,
        rt: &R,
        _thread: usize,
        client: &mut Client<H>,
    ) -> Result<(), LogError> {
        let logger = client.logger("net")?;
        for level in &LEVELS {
            client.set_level(&logger, *level);
            logs(rt, client, &logger)?;
        }
        Ok(())
    }
}
