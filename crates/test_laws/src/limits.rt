//! The limits of configurations, of what is built of one, and of scripts, by their numbers.
ghost use Rattle.std.specs.Prelude.{◌≡◌, ◌^◌};
ghost use Rattle.alog_config.specs.declared.TheConstants.{NAMES_MAX, TABLES_MAX};
ghost use Rattle.alog_registry.specs.declared.TheConstants.{KEPT_MAX, LOGGERS_MAX};
ghost use Rattle.alog_replay.specs.declared.limits.TheConstants.{READS_MAX, SCRIPT_LINE_MAX, STEPS_MAX};

/// An array has at most 256 tables, and a list of sinks 16 names; there are at most 256 loggers, and a backtrace keeps at most 4,096
/// messages. It does nothing: its contract is the law, and a changed constant breaks it.
pub fn limits_of_configurations()
    ensures tables { TABLES_MAX ≡ 256 }
    ensures names { NAMES_MAX ≡ 16 }
    ensures loggers { LOGGERS_MAX ≡ 256 }
    ensures kept { KEPT_MAX ≡ 4096 }
{}

/// A line has at most 16,384 bytes and asks for at most 512 steps, and a script is read at most 2^32 times. It does nothing: its
/// contract is the law, and a changed constant breaks it.
pub fn limits_of_scripts()
    ensures line { SCRIPT_LINE_MAX ≡ 16384 }
    ensures steps { STEPS_MAX ≡ 512 }
    ensures reads { READS_MAX ≡ 2 ^ 32 }
{}
