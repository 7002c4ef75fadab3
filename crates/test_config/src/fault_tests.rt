//! What is said of a fault that is none of the document's.
use alog_config::{ConfigFault, Place, Rule, explain};
use std::process::Abort;

/// A document without a fault.
const DOCUMENT: &str =
    "[[sink]]\nname = \"out\"\nkind = \"memory\"\n[[logger]]\nname = \"net\"\nsinks = [\"out\"]\n";

/// What is said of this fault of a document.
fn in_words(rt: &(impl Abort + AllocGlobal), document: &str, fault: ConfigFault) -> String {
    match explain(rt.alloc(), document.as_bytes(), fault) {
        Ok(text) => text,
        Err(_) => panic!(rt; "out of memory"),
    }
}

/// This is said of a fault.
fn is_said(rt: &(impl Abort + AllocGlobal), document: &str, fault: ConfigFault, want: &str) {
    let text = in_words(rt, document, fault);
    assert!(rt; text.as_str() == want, "{text}");
}

// It is told by its rule alone, and that a document is no TOML, by itself.
#[test]
fn other_faults_in_words(rt: HostRuntime) {
    for (place, rule, want) in [
        (
            Place::Top,
            Rule::BadValue,
            "a value that its key can not have",
        ),
        (
            Place::Sink(0),
            Rule::BadValue,
            "a value that its key can not have",
        ),
        (Place::Sink(1), Rule::Missing, "a key is missing"),
        (Place::Logger(1), Rule::NameTaken, "the name is taken"),
    ] {
        is_said(&rt, DOCUMENT, ConfigFault::Broken { rule, place }, want);
    }
    is_said(&rt, "", ConfigFault::NotToml, "the document is not TOML");
}
