//! What one producer of a load is to do.
ghost use Rattle.std.specs.Prelude.{◌≡◌, ◌≤◌};
ghost use Rattle.alog_load.specs.Load.{load_task_of};

/// What a producer is sent off for: so many messages to the logger of this number.
#[derive(Clone, Copy, Drop)]
pub(crate) struct LoadTask {
    pub(crate) logger: u32,
    pub(crate) messages: u64,
}

impl LoadTask {
    /// The task of the producer of this number: the producers go round among so many loggers. Where there is no logger, there is
    /// nothing to log.
    pub(crate) fn of(number: u64, loggers: usize, messages: u64) -> LoadTask
        requires few { loggers ≤ 256 }
        ensures { result ≡ load_task_of number loggers messages }
    {
        if loggers == 0 {
            return LoadTask {
                logger: 0,
                messages: 0,
            };
        }
        LoadTask {
            logger: (number % loggers as u64) as u32,
            messages,
        }
    }
}
