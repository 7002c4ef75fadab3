//! What goes through the queue of full areas.
use crate::area::Area;

/// An area, or that nothing more comes.
#[derive(Drop)]
pub(crate) enum Letter {
    Area(Area),
    End,
}
