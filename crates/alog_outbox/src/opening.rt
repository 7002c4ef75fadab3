//! How a store and its drain are made.
ghost use Rattle.std.specs.Prelude.{◌≡◌, [], None, IfOk};
ghost use Rattle.std.specs.Arc.{arc_value};

use crate::area::Area;
use crate::drain::Drain;
use crate::found::FoundFile;
use crate::line::{Common, Spares, give_spare, line_for};
use crate::store::Outbox;
use std::alloc::{AllocError, Global};
use std::sync::Arc;

/// A store over the files that were found, and its drain, with so many areas of `AREA` bytes between them, and at least one.
///
/// It takes all memory that the two ever take. Want of memory is its only failure.
pub fn outbox(
    alloc: Global,
    found: Arc<Vec<FoundFile>>,
    areas: usize,
) -> Result<(Outbox, Drain), AllocError>
    ensures told { IfOk result (λ o. (o.0.calls ≡ []) × (o.0.sent ≡ []) × (o.0.hand ≡ None) × (o.0.failures ≡ 0)) }
    ensures found { IfOk result (λ o. o.0.found ≡ (arc_value found).items) }
    ensures got { IfOk result (λ o. (o.1.got ≡ []) × (o.1.told ≡ None)) }
    ensures line { IfOk result (λ o. o.1.line ≡ o.0.line) }
{
    let areas = areas.max(1);
    let places = areas.saturating_add(1);
    let (line, writer, reader) = line_for(alloc, places)?;
    let (spares, _pass) = Spares::ruled(alloc, places)?;
    for _ in 0..areas {
        let area = Area::new(alloc)?;
        if give_spare(&spares, area).is_err() {
            return Err(AllocError);
        }
    }
    let common = Arc::new(alloc, Common { line, spares })?;
    let other = Arc::try_clone(&common)?;
    Ok((Outbox::of(common, writer, found), Drain::of(other, reader)))
}
