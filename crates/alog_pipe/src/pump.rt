//! A pipe while it runs.
ghost use Rattle.std.specs.Prelude.{◌≡◌, [], false, is_none, IfOk, OnErr};
ghost use Rattle.alog_lines.specs.Cutting.{Brings, Reads};
ghost use Rattle.alog_pipe.specs.Logged.{CanSay, IsReady};
ghost use Rattle.alog_pipe.specs.Piped.{Pumps, PumpsOut, PumpsRead, TriesToTell};
ghost use Rattle.alog_pool.specs.Producer.{IsSame};

use crate::counts::Counts;
use crate::piece_log::PieceLog;
use crate::timed_read::TimedRead;
use alog_lines::{Fill, LineCutter};
use std::alloc::Global;
use std::io::{self, ErrorKind};
use std::sync::Wait;
use std::time::{Clock, Duration};

/// How many milliseconds a read waits at most, while some pieces are missing of which the log does not say so yet.
const WAIT_MAX_MILLIS: u64 = 64;

/// What cuts the lines of a reader, and what logs them.
pub(crate) struct Pump {
    pub(crate) lines: LineCutter,
    pub(crate) log: PieceLog,
    /// The time of the last read, or of an earlier one where the clock could not be read.
    pub(crate) time: i64,
    pub(crate) counts: Counts,
    /// How many milliseconds the next read waits then: one where bytes came, and twice as many as before where nothing did.
    pub(crate) wait: u64,
}

impl Pump {
    /// Logs all lines of a reader, up to its end or its first error, which is answered.
    pub(crate) fn run<R: Wait + Clock, I: TimedRead>(
        &mut self,
        rt: &R,
        alloc: Global,
        input: &mut I,
    ) -> Option<io::Error>
        requires ready { IsReady self.old.lines.limit self.old.log }
        requires fresh { (self.old.lines.pending ≡ []) × (self.old.lines.ended ≡ false) }
        ensures pumps { Pumps self.old.lines.limit (I.remaining input.old) (I.remaining input.new) (is_none result) self.old self.new }
        ensures same { IsSame self.old.log.producer self.new.log.producer }
    {
        for _ in rt.forever() {
            match self.fill(input) {
                Ok(Fill::Nothing) => {}
                Ok(Fill::Bytes) => self.log_read(rt, alloc),
                Ok(Fill::End) => {
                    self.log_read(rt, alloc);
                    return None;
                }
                Err(error) => {
                    if error.kind() != ErrorKind::WouldBlock {
                        return Some(error);
                    }
                    self.rest(rt, alloc);
                }
            }
        }
        unreachable!()
    }

    /// Reads once. While some pieces are missing of which the log does not say so yet, the read does not wait for ever.
    fn fill<I: TimedRead>(&mut self, input: &mut I) -> io::Result<Fill>
        ensures read { Reads (I.remaining input.old) (I.remaining input.new) self.old.lines self.new.lines }
        ensures brings { IfOk result (λ fill. Brings fill self.old.lines self.new.lines) }
        ensures err { OnErr result ((self.new.lines.pending ≡ self.old.lines.pending) × (self.new.lines.ended ≡ false)) }
        ensures same { (self.new.log ≡ self.old.log) × (self.new.counts ≡ self.old.counts) }
    {
        let timeout = if self.log.hole > 0 {
            Some(Duration::from_millis(self.wait))
        } else {
            None
        };
        input.set_read_timeout(timeout);
        self.lines.fill(input)
    }

    /// Where nothing came: says what is missing, if there is room.
    fn rest<R: Wait + Clock>(&mut self, rt: &R, alloc: Global)
        requires { CanSay self.old.log }
        ensures tries { TriesToTell self.old.time self.old.log self.new.log }
        ensures kept { (self.new.lines ≡ self.old.lines) × (self.new.counts ≡ self.old.counts) }
        ensures same { IsSame self.old.log.producer self.new.log.producer }
    {
        self.log.tell_hole(rt, alloc, self.time);
        self.wait = self.wait.saturating_mul(2).min(WAIT_MAX_MILLIS);
    }

    /// Logs each piece of what a read brought, at the time that it is.
    fn log_read<R: Wait + Clock>(&mut self, rt: &R, alloc: Global)
        requires { IsReady self.old.lines.limit self.old.log }
        ensures pumps { PumpsRead self.old self.new }
        ensures same { IsSame self.old.log.producer self.new.log.producer }
    {
        self.time = time_of(rt).unwrap_or(self.time);
        self.wait = 1;
        while let Some(cut) = self.lines.next() {
            let text = self.lines.text();
            self.counts.see(cut, text);
            self.log.log(rt, alloc, self.time, text);
        }
    }
}

/// Logs the lines of a reader, and waits until the log says what is missing. Answers what it logged with, what was counted, and why the
/// reader could not be read to its end, where it could not.
pub(crate) fn pump_all<R: Wait + Clock, I: TimedRead>(
    rt: &R,
    alloc: Global,
    lines: LineCutter,
    log: PieceLog,
    input: &mut I,
) -> (PieceLog, Counts, Option<io::Error>)
    requires ready { IsReady lines.limit log }
    requires fresh { (lines.pending ≡ []) × (lines.ended ≡ false) }
    ensures { PumpsOut lines.limit (I.remaining input.old) (I.remaining input.new) log result.0 result.1 (is_none result.2) }
{
    let mut pump = Pump {
        lines,
        log,
        time: 0,
        counts: Counts::new(),
        wait: 1,
    };
    let fault = pump.run(rt, alloc, input);
    pump.log.finish(rt, alloc, pump.time);
    let Pump {
        lines: _,
        log,
        time: _,
        counts,
        wait: _,
    } = pump;
    (log, counts, fault)
}

/// The time in nanoseconds since 1970 UTC; `None` where the clock cannot be read, or shows a time after 2262.
fn time_of(clock: &impl Clock) -> Option<i64> {
    let elapsed = clock.since_1970().ok()?;
    i64::try_from(elapsed.as_nanos()).ok()
}
