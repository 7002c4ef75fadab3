//! The sinks of a configuration by number, and what is said of those at which a load failed.
use alog_config::{Config, is_member};
use alog_pool::Report;
use alog_sink::{Sink, Store};
use std::io::Write;

/// The name of the sink of this number, from 0, among those that are no member of a fan.
fn sink_name(config: &Config, number: usize) -> &str {
    let mut left = number;
    for sink in &config.sinks {
        if is_member(config.sinks.as_slice(), sink.name.as_str()) {
            continue;
        }
        if left == 0 {
            return sink.name.as_str();
        }
        left = left.saturating_sub(1);
    }
    ""
}

/// Says at which sinks turns failed, and how many, and at which the last flush failed; behind it, why, where the system said so.
pub(crate) fn say_faults<S: Store + Drop, E: Write>(
    report: &mut Report<S>,
    config: &Config,
    errors: &mut E,
) {
    say_turns(report, config, errors);
    for (number, sink) in report.sinks.iter_mut().enumerate() {
        if sink.flush().is_err() {
            say_unkept(sink, number, config, errors);
        }
    }
}

/// Says at which sinks turns failed, and how many; behind it, why, where the system said so.
fn say_turns<S: Store, E: Write>(report: &Report<S>, config: &Config, errors: &mut E) {
    for (number, count) in report.faults.iter().enumerate() {
        if *count > 0 {
            let name = sink_name(config, number);
            let _ = write!(errors, "alog: sink {number}, {name}: {count} turns failed");
            say_reason(report.sinks.get(number), errors);
        }
    }
}

/// Says that the last flush of the sink of this number failed; behind it, why, where the system said so.
fn say_unkept<S: Store, E: Write>(sink: &Sink<S>, number: usize, config: &Config, errors: &mut E) {
    let name = sink_name(config, number);
    let _ = write!(
        errors,
        "alog: sink {number}, {name}: its lines are not all in its file"
    );
    say_reason(Some(sink), errors);
}

/// Ends a line by what the system said of the last call of a sink's store that failed, where it did.
fn say_reason<S: Store, E: Write>(sink: Option<&Sink<S>>, errors: &mut E) {
    let _ = match sink.and_then(|it| it.reason()) {
        Some(reason) => writeln!(errors, ": {reason}"),
        None => writeln!(errors),
    };
}
