//! The one comparison that all tests use. A call to it leaves less to prove than a comparison that formats the difference in
//! place.
use std::fmt::Debug;
use std::process::Abort;

/// Ends the test if two values differ.
pub(crate) fn same<R: Abort, V: PartialEq + Debug + Drop>(rt: &R, told: V, due: V) {
    assert_eq!(rt; told, due);
}
