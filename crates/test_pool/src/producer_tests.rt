//! What a producer is told, and the loggers that it lends.
use crate::rows::{DUMPED, Deed, ONE, Row, Told};
use crate::trial::{PLAIN, Plan};
use alog_msg::Level;

// What producers are told.
static PRODUCERS: [Row<'static>; 4] = [
    // The fourth producer logs with and without waiting, is filtered, and flushes.
    Row {
        producers: 4,
        deeds: &[
            Deed::Logs(3, 0, Level::Info, "a", Told::Posted(0)),
            Deed::LogsNow(3, Level::Error, "b", Told::Posted(1)),
            Deed::LogsNow(3, Level::Debug, "c", Told::Below(Level::Info, false)),
            Deed::Flushes(3, 2),
        ],
        totals: (3, 0),
        tickets: &[0, 1, 2],
        files: &[b"a\nb\n"],
        ..ONE
    },
    // Below the level, three messages are kept, of which there is room for two. They are dumped once.
    Row {
        plan: Plan {
            backtrace: 2,
            ..PLAIN
        },
        deeds: &[
            Deed::Logs(0, 0, Level::Debug, "m1", Told::Below(Level::Info, true)),
            Deed::LogsNow(0, Level::Debug, "m2", Told::Below(Level::Info, true)),
            Deed::Logs(0, 0, Level::Debug, "m3", Told::Below(Level::Info, true)),
            Deed::Dumps(0, 4),
            Deed::Dumps(0, 0),
        ],
        totals: (4, 0),
        tickets: &[0, 1, 2, 3],
        files: &[DUMPED],
        ..ONE
    },
    // In a queue of two places a hundred flushes find room one after another: each that finds none waits.
    Row {
        plan: Plan {
            queue: 2,
            tickets_max: 0,
            ..PLAIN
        },
        deeds: &[Deed::FlushesWaiting(0, 100)],
        totals: (100, 0),
        ..ONE
    },
    // While two workers run, the pool's loggers and a producer's let the level of one be set, for all producers. The other keeps its
    // own.
    Row {
        plan: Plan {
            workers: 2,
            ..PLAIN
        },
        routes: &[&[0], &[0]],
        producers: 2,
        deeds: &[
            Deed::Logs(0, 1, Level::Debug, "a", Told::Below(Level::Info, false)),
            Deed::Sets(None, Level::Debug),
            Deed::Logs(0, 1, Level::Debug, "b", Told::Posted(0)),
            Deed::Logs(0, 0, Level::Debug, "c", Told::Below(Level::Info, false)),
            Deed::Sets(Some(1), Level::Error),
            Deed::Logs(0, 1, Level::Warning, "d", Told::Below(Level::Error, false)),
        ],
        totals: (1, 0),
        files: &[b"b\n"],
        ..ONE
    },
];

pub(crate) fn of_producers() -> &'static [Row<'static>] {
    &PRODUCERS
}
