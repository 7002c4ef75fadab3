//! alog for programs in C and C++: a static library, with the header `c/alog.h`. Each export hands what it is given to `alog_ffi`, and answers the
//! number of what that answers; what it does is what its clause says of that function.
//!
//! A handle is a struct of C's, which holds nothing, a pool, a producer, a worker, or files. Where an answer is a refusal nothing was done. No export
//! waits, starts a thread, sleeps or calls the system.
#![tactic(auto)]

ghost use Rattle.std.specs.Prelude.{◌≡◌, Some, None};
ghost use Rattle.alog_ffi.specs.Answers.{number_of};
ghost use Rattle.alog_ffi.specs.Calls.{AnswersDump, AnswersEnd, AnswersFaults, AnswersFind, AnswersFlush, AnswersGive, AnswersIsOn, AnswersLog, AnswersSetLevel, AnswersWork, MakesProducer, MakesWorker, OnProducer, OnWorker};
ghost use Rattle.alog_ffi.specs.Files.{AnswersClose, AnswersFound, AnswersTake, IsUntaken, OnFiles};
ghost use Rattle.alog_ffi.specs.Handles.{held};
ghost use Rattle.alog_ffi.specs.Names.{AnswersNames};
ghost use Rattle.alog_ffi.specs.Opening.{AnswersOpen, TellsWhy};
ghost use Rattle.alog_ffi.specs.Places.{AnswersPlaces};
ghost use Rattle.alog_c.specs.Says.{Says};
ghost use Rattle.alog_ffi.specs.declared.answer.Answer.{Answer};
ghost use Rattle.alog_ffi.specs.declared.said.Said.{Said};

use alog_ffi::{AlogHandle, AlogReport, Asked, Said, Source};
use std::alloc::Global;

/// Tells of a file that is in the folder before a pool is opened.
#[unsafe(no_mangle)]
pub extern "C" fn alog_c_found(alloc: Global, files: &mut AlogHandle, name: &[u8], size: u64) -> u32
    ensures { (a : Answer) × (result ≡ number_of a) × AnswersFound (held files.old) name.now size a (held files.new) }
{
    alog_ffi::found(alloc, files, name, size).number()
}

/// Tells the files that the sinks of a configuration have from its start: the name of each, and a zero byte behind it.
#[unsafe(no_mangle)]
pub extern "C" fn alog_c_file_names(
    alloc: Global,
    document: &[u8],
    to: &mut [u8],
    length: &mut usize,
) -> u32
    ensures { (a : Answer) × (result ≡ number_of a) × AnswersNames document.now to.old to.new length.new a }
{
    alog_ffi::file_names(alloc, document, to, length).number()
}

/// Tells how many places the queue of a configuration has.
#[unsafe(no_mangle)]
pub extern "C" fn alog_c_queue_places(alloc: Global, document: &[u8], places: &mut usize) -> u32
    ensures { (a : Answer) × (result ≡ number_of a) × AnswersPlaces document.now places.new a }
{
    alog_ffi::queue_places(alloc, document, places).number()
}

/// Opens a pool of this configuration, which may make so many producers. Each sink has so many areas of 131,072 bytes for what it hands out. Where the
/// configuration is refused, up to `told.len()` bytes say why.
#[unsafe(no_mangle)]
pub extern "C" fn alog_c_open(
    alloc: Global,
    pool: &mut AlogHandle,
    files: &mut AlogHandle,
    document: &[u8],
    producers: usize,
    areas: usize,
    told: &mut [u8],
    told_len: &mut usize,
) -> u32
    ensures { (a : Answer) × (result ≡ number_of a)
        × AnswersOpen (held pool.old) (held files.old) (record { document = document.entry; producers = producers; areas = areas }) a (held pool.new) (held files.new)
        × TellsWhy told.old told.new told_len.new a }
{
    let asked = Asked {
        document,
        producers,
        areas,
    };
    alog_ffi::open(alloc, pool, files, asked, told, told_len).number()
}

/// Makes a producer of a pool.
#[unsafe(no_mangle)]
pub extern "C" fn alog_c_producer(
    alloc: Global,
    pool: &mut AlogHandle,
    producer: &mut AlogHandle,
) -> u32
    ensures { (a : Answer) × (result ≡ number_of a)
        × MakesProducer (held producer.old) (held producer.new) (held pool.old) (held pool.new) a }
{
    alog_ffi::producer(alloc, pool, producer).number()
}

/// Makes a worker of a pool.
#[unsafe(no_mangle)]
pub extern "C" fn alog_c_worker(
    alloc: Global,
    pool: &mut AlogHandle,
    worker: &mut AlogHandle,
) -> u32
    ensures { (a : Answer) × (result ≡ number_of a)
        × MakesWorker (held worker.old) (held worker.new) (held pool.old) (held pool.new) a }
{
    alog_ffi::worker(alloc, pool, worker).number()
}

/// Finds a logger by its name, by the handle of a producer or of its pool.
#[unsafe(no_mangle)]
pub extern "C" fn alog_c_find(
    alloc: Global,
    at: &mut AlogHandle,
    name: &[u8],
    logger: &mut u32,
) -> u32
    ensures same { held at.new ≡ held at.old }
    ensures found { (a : Answer) × (result ≡ number_of a) × AnswersFind (held at.old) name.now logger.old logger.new a }
{
    alog_ffi::find(alloc, at, name, logger).number()
}

/// Sets the level of a logger for all threads, by the handle of a producer or of its pool.
#[unsafe(no_mangle)]
pub extern "C" fn alog_c_set_level(
    alloc: Global,
    at: &mut AlogHandle,
    logger: u32,
    level: u32,
) -> u32
    ensures same { held at.new ≡ held at.old }
    ensures set { (a : Answer) × (result ≡ number_of a) × AnswersSetLevel (held at.old) logger level a }
{
    alog_ffi::set_level(alloc, at, logger, level).number()
}

/// Asks whether a logger reads a message of this level, by the handle of a producer or of its pool.
#[unsafe(no_mangle)]
pub extern "C" fn alog_c_is_on(alloc: Global, at: &mut AlogHandle, logger: u32, level: u32) -> u32
    ensures same { held at.new ≡ held at.old }
    ensures told { (a : Answer) × (result ≡ number_of a) × AnswersIsOn (held at.old) logger level a }
{
    alog_ffi::is_on(alloc, at, logger, level).number()
}

/// Logs a text.
#[unsafe(no_mangle)]
pub extern "C" fn alog_c_log(
    alloc: Global,
    producer: &mut AlogHandle,
    logger: u32,
    level: u32,
    time: i64,
    text: &[u8],
    ticket: &mut u64,
) -> u32
    ensures { (a : Answer) × (said : Said) × (result ≡ number_of a) × Says logger level time text.now None said
        × OnProducer (held producer.old) (ticket.new ≡ ticket.old) (AnswersLog said ticket.old ticket.new) a (held producer.new) }
{
    let said = Said {
        logger,
        level,
        time,
        text,
        source: None,
    };
    alog_ffi::log(alloc, producer, said, ticket).number()
}

/// Logs a text with where it came from.
#[unsafe(no_mangle)]
pub extern "C" fn alog_c_log_source(
    alloc: Global,
    producer: &mut AlogHandle,
    logger: u32,
    level: u32,
    time: i64,
    text: &[u8],
    file: &[u8],
    line: u32,
    function: &[u8],
    ticket: &mut u64,
) -> u32
    ensures { (a : Answer) × (said : Said) × (result ≡ number_of a)
        × Says logger level time text.now (Some (record { file = file.entry; line = line; function = function.entry })) said
        × OnProducer (held producer.old) (ticket.new ≡ ticket.old) (AnswersLog said ticket.old ticket.new) a (held producer.new) }
{
    let said = Said {
        logger,
        level,
        time,
        text,
        source: Some(Source {
            file,
            line,
            function,
        }),
    };
    alog_ffi::log(alloc, producer, said, ticket).number()
}

/// Posts a flush of a logger.
#[unsafe(no_mangle)]
pub extern "C" fn alog_c_flush(
    alloc: Global,
    producer: &mut AlogHandle,
    logger: u32,
    ticket: &mut u64,
) -> u32
    ensures { (a : Answer) × (result ≡ number_of a)
        × OnProducer (held producer.old) (ticket.new ≡ ticket.old) (AnswersFlush logger ticket.old ticket.new) a (held producer.new) }
{
    alog_ffi::flush(alloc, producer, logger, ticket).number()
}

/// Posts what the backtrace of a logger kept.
#[unsafe(no_mangle)]
pub extern "C" fn alog_c_dump(
    alloc: Global,
    producer: &mut AlogHandle,
    logger: u32,
    time: i64,
    posts: &mut usize,
) -> u32
    ensures { (a : Answer) × (result ≡ number_of a)
        × OnProducer (held producer.old) (posts.new ≡ 0) (AnswersDump logger time posts.new) a (held producer.new) }
{
    alog_ffi::dump(alloc, producer, logger, time, posts).number()
}

/// Lets a worker write the lines of up to so many items.
#[unsafe(no_mangle)]
pub extern "C" fn alog_c_work(
    alloc: Global,
    worker: &mut AlogHandle,
    most: usize,
    items: &mut usize,
) -> u32
    ensures { (a : Answer) × (result ≡ number_of a) × OnWorker (held worker.old) (items.new ≡ 0) (AnswersWork most items.new) a (held worker.new) }
{
    alog_ffi::work(alloc, worker, most, items).number()
}

/// Tells how many turns at sinks a worker made so far that were answered by a fault.
#[unsafe(no_mangle)]
pub extern "C" fn alog_c_faults(alloc: Global, worker: &mut AlogHandle, faults: &mut u64) -> u32
    ensures { (a : Answer) × (result ≡ number_of a) × OnWorker (held worker.old) (faults.new ≡ faults.old) (AnswersFaults faults.new) a (held worker.new) }
{
    alog_ffi::faults(alloc, worker, faults).number()
}

/// Takes what is next to be done to the files of a sink.
#[unsafe(no_mangle)]
pub extern "C" fn alog_c_take(
    alloc: Global,
    files: &mut AlogHandle,
    to: &mut [u8],
    length: &mut usize,
) -> u32
    ensures { (a : Answer) × (result ≡ number_of a) × OnFiles (held files.old) (IsUntaken to.old to.new length.new) (AnswersTake to.old to.new length.new) a (held files.new) }
{
    alog_ffi::take(alloc, files, to, length).number()
}

/// Gives a producer or a worker back to its pool.
#[unsafe(no_mangle)]
pub extern "C" fn alog_c_give(alloc: Global, part: &mut AlogHandle) -> u32
    ensures { (a : Answer) × (result ≡ number_of a) × AnswersGive (held part.old) a (held part.new) }
{
    alog_ffi::give(alloc, part).number()
}

/// Ends a pool whose producers and workers have all come back.
#[unsafe(no_mangle)]
pub extern "C" fn alog_c_shutdown(
    alloc: Global,
    pool: &mut AlogHandle,
    report: &mut AlogReport,
) -> u32
    ensures { (a : Answer) × (result ≡ number_of a) × AnswersEnd (held pool.old) report.old report.new a (held pool.new) }
{
    alog_ffi::shutdown(alloc, pool, report).number()
}

/// Lets go of files, and empties the handle.
#[unsafe(no_mangle)]
pub extern "C" fn alog_c_close(alloc: Global, files: &mut AlogHandle) -> u32
    ensures { (a : Answer) × (result ≡ number_of a) × AnswersClose (held files.old) a (held files.new) }
{
    alog_ffi::close(alloc, files).number()
}
