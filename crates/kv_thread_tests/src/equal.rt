//! What tests compare with.

use std::fmt::Debug;
use std::process::Abort;

// Ends the test where what was found is not what was wanted. A call of it is proved sooner than `assert_eq!` in its place.
pub fn equal<T: PartialEq + Debug + Drop, R: Abort>(rt: &R, found: T, wanted: T) {
    assert_eq!(rt; found, wanted);
}
