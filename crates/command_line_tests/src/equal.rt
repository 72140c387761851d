//! Comparisons that end a test. They have no contract, so that a proof of a test does not have to know how a value is shown. A library may
//! not end the process, so each crate of tests has its own.
use std::fmt::Debug;
use std::process::Abort;
use std::test::Fail;

/// The runtime of a test: it can end the process, and allocates memory.
pub trait Host: Abort + AllocGlobal {}

impl<T: Abort + AllocGlobal> Host for T {}

/// The result of a test, and of a helper that can fail.
pub type TestResult = Result<(), Fail>;

/// Ends the test unless these are equal.
pub fn same<T: PartialEq + Debug + Copy>(rt: &impl Abort, value: T, expected: T) {
    assert_eq!(rt; value, expected);
}

/// Ends the test unless these are equal, and names the case.
pub fn same_in<T: PartialEq + Debug + Copy>(
    rt: &impl Abort,
    case: impl Debug + Copy,
    value: T,
    expected: T,
) {
    assert_eq!(rt; value, expected, "case {case:?}");
}

/// Ends the test unless this holds, and names the case.
pub fn holds_in(rt: &impl Abort, case: impl Debug + Copy, holds: bool) {
    assert!(rt; holds, "case {case:?}");
}
