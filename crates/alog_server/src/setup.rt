//! What a configuration gives to start a pool with.
ghost use Rattle.std.specs.Prelude.{◌≡◌, IfErr, IfOk, IsErrAnd, count_by, length};
ghost use Rattle.alog_config.specs.Built.{IsFaultOf};
ghost use Rattle.alog_config.specs.Sinks.{is_leaf};
ghost use Rattle.alog_pool.specs.Pool.{Fits};
ghost use Rattle.alog_server.specs.Reasons.{IsBuildTold, IsStoreRefusal, SomeUnopened};
ghost use Rattle.alog_server.specs.Setting.{IsSetupOf};
ghost use Rattle.alog_server.specs.Starting.{IsOfStores};

use crate::error::StartError;
use alog_config::{BuildError, Config, build, explain_unopened};
use alog_pool::Setup;
use alog_sink::Store;
use std::alloc::{AllocError, Global};

/// What the configuration gives, over these stores, for a pool whose report tells so many tickets of each worker, and that tells no
/// gaps. The first ticket is 0. There are as many stores as `alog_config::leaves` tells. The test `one_list_of_tickets` shows it.
pub fn setup_of<S: Store + Drop>(
    alloc: Global,
    config: &Config,
    stores: Vec<S>,
    tickets_max: usize,
) -> Result<Setup<S>, BuildError>
    requires { length stores.items ≡ count_by is_leaf config.now.sinks.items }
    ensures given { IfOk result (λ s. IsSetupOf S.tells S.files S.failures config.now stores.items tickets_max s) }
    ensures fits { IfOk result (λ s. Fits s) }
    ensures fault { IfErr result (IsFaultOf S.failures S.why config.now.sinks.items stores.items) }
{
    let (loggers, sinks) = build(alloc, config, stores)?;
    Ok(Setup {
        queue: config.queue,
        first: 0,
        workers: config.workers,
        tickets_max,
        tells_gaps: false,
        text_limit: config.text,
        loggers,
        sinks,
    })
}

/// What the configuration gives for the pool of a server, whose report tells no tickets, or why there is none.
pub(crate) fn setup_for<S: Store + Drop>(
    alloc: Global,
    config: &Config,
    stores: Vec<S>,
) -> Result<Setup<S>, StartError>
    requires { length stores.items ≡ count_by is_leaf config.now.sinks.items }
    ensures given { IfOk result (λ s. IsSetupOf S.tells S.files S.failures config.now stores.items 0 s) }
    ensures fits { IfOk result (λ s. Fits s) }
    ensures failed { IsErrAnd result IsStoreRefusal → SomeUnopened S.failures S.why config.now.sinks.items stores.items }
    ensures refused { IfErr result (IsOfStores config.now) }
{
    match setup_of(alloc, config, stores, 0) {
        Ok(setup) => Ok(setup),
        Err(error) => Err(unbuilt(alloc, config, error)),
    }
}

/// Why a server is not started whose sinks were not built.
fn unbuilt(alloc: Global, config: &Config, error: BuildError) -> StartError
    ensures { IsBuildTold error result }
{
    match error {
        BuildError::OutOfMemory => StartError::OutOfMemory,
        BuildError::Store { sink, reason } => match explain_unopened(alloc, config, sink, reason) {
            Ok(text) => StartError::Store { text },
            Err(AllocError) => StartError::OutOfMemory,
        },
    }
}
