//! The texts of errors.

use nv_mem::{MapError, NoMemory};
use std::alloc::AllocError;

#[test]
fn comes_of_the_errors_of_the_library(rt: HostRuntime) {
    let error = NoMemory::from(AllocError);
    let text = format!(in rt.alloc(); "{error}").expect(&rt, "memory");
    assert_eq!(rt; text.as_str(), "no memory");
}

#[test]
fn maps_are_refused_with_number_and_name(rt: HostRuntime) {
    for (error, want) in [
        (MapError::Unaligned, "1 Unaligned"),
        (MapError::Overlap, "2 Overlap"),
        (MapError::OutsideHost, "3 OutsideHost"),
    ] {
        let text = format!(in rt.alloc(); "{error}").expect(&rt, "memory");
        assert_eq!(rt; text.as_str(), want);
    }
}
