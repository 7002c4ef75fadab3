//! What a configuration gives to start the pool of a load with.
ghost use Rattle.std.specs.Prelude.{◌≡◌, IfErr, IfOk, IsErrOf, count_by, length};
ghost use Rattle.alog_config.specs.Sinks.{is_leaf};
ghost use Rattle.alog_load.specs.Load.{IsRefusalOf};
ghost use Rattle.alog_pool.specs.Pool.{Fits};
ghost use Rattle.alog_server.specs.Setting.{IsSetupOf};

use crate::error::LoadError;
use alog_config::Config;
use alog_pool::Setup;
use alog_sink::Store;
use std::alloc::Global;

/// What `alog_server::setup_of` gives, or why there is no load.
pub(crate) fn setup_of<S: Store + Drop>(
    alloc: Global,
    config: &Config,
    stores: Vec<S>,
    tickets_max: usize,
) -> Result<Setup<S>, LoadError>
    requires { length stores.items ≡ count_by is_leaf config.now.sinks.items }
    ensures given { IfOk result (λ s. IsSetupOf S.tells S.files S.failures config.now stores.items tickets_max s) }
    ensures fits { IfOk result (λ s. Fits s) }
    ensures refused { IfErr result (IsRefusalOf S.failures S.why config.now.sinks.items stores.items) }
    ensures bounds { IsErrOf result LoadError.BadValue → ⊥ }
{
    Ok(alog_server::setup_of(alloc, config, stores, tickets_max)?)
}
