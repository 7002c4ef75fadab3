//! What the parts of a pool own together.
use crate::desk::Desk;
use alog_hosted::Hosted;
use alog_sink::Store;

/// A pool, as it is lent to each call, and the desk where its parts come back.
#[derive(Drop)]
pub(crate) struct Common<S: Store> {
    pub(crate) hosted: Hosted<S>,
    pub(crate) desk: Desk<S>,
}
