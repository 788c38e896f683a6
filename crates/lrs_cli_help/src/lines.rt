//! Lines of an explanation, on standard error. Where that takes nothing, the status alone tells.

use std::rt::HostRuntime;

pub(crate) fn say(rt: &HostRuntime, text: &str) {
    let _ = eprintln!(rt; "explain: {text}");
}

/// Says something of what has this name: a file, or a port.
pub(crate) fn say_of(rt: &HostRuntime, name: &str, text: &str) {
    let _ = eprintln!(rt; "explain: {name}: {text}");
}
