//! How many places the queue of a configuration has, before a pool of it is opened.
ghost use Rattle.alog_ffi.specs.Places.{AnswersPlaces};

use crate::answer::Answer;
use alog_config::{ConfigFault, read};
use std::alloc::Global;

/// Tells how many places the queue of a configuration has, 2 to 65,536; 0 where the document is refused, or
/// there is no memory to read it.
pub fn queue_places(alloc: Global, document: &[u8], places: &mut usize) -> Answer
    ensures { AnswersPlaces document.now places.new result }
{
    *places = 0;
    match read(alloc, document) {
        Ok(config) => {
            *places = config.queue;
            Answer::Done
        }
        Err(ConfigFault::OutOfMemory) => Answer::NoMemory,
        Err(_) => Answer::BadConfig,
    }
}
