//! Messages on standard error. Where it fails nothing can be told.
use crate::reasons::reason_of;
use ps_names::shown_name;
use std::io::ErrorKind;

/// Tells a fault that goes with no name.
pub fn tell_fault(rt: &HostRuntime, fault: &str) {
    let _ = eprintln!(rt; "psat_ask: {fault}");
}

/// Tells what failed at a name, as names are shown. Where memory for it is lacking it is left out.
pub fn tell(rt: &HostRuntime, name: &str, failure: &str) {
    match shown_name(rt.alloc(), name) {
        Ok(name) => {
            let _ = eprintln!(rt; "psat_ask: {name}: {failure}");
        }
        Err(_) => tell_fault(rt, failure),
    }
}

/// Tells what failed at a name, and why where there are words for it.
pub fn tell_why(rt: &HostRuntime, name: &str, failure: &str, kind: Option<ErrorKind>) {
    let reason = match kind {
        Some(kind) => reason_of(kind),
        None => None,
    };
    let Some(reason) = reason else {
        tell(rt, name, failure);
        return;
    };
    match format!(in rt.alloc(); "{failure}: {reason}") {
        Ok(text) => tell(rt, name, text.as_str()),
        Err(_) => tell(rt, name, failure),
    }
}
