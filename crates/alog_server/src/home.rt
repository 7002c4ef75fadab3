//! A pool as a type.
use std::marker::Brand;

/// A pool as a type: the clients of its threads and the loggers that they find name it. `Server::run` picks it.
pub trait Home: Drop {
    ghost use Rattle.std.specs.Prelude.{List};
    ghost use Rattle.alog_pool.specs.declared.shared.Shared.{Shared};
    ghost use Rattle.alog_registry.specs.declared.logger.Logger.{Logger};

    /// What the threads of this pool share.
    ghost is_home: { Shared → Type 0 };

    /// Its loggers, by number.
    ghost loggers: { List Logger };
}

impl Home for Brand {
    ghost use Rattle.std.specs.Prelude.{[]};

    ghost is_home = { λ _. ⊥ };

    ghost loggers = { [] };
}
