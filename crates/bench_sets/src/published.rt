//! Sets of objects.
//!
//! On little each operation is carried out once on a small set, and it is printed how large its results
//! are. `times` prints, for 65,536 objects of 2,000 bytes, the nanoseconds of the best of several turns:
//! of copying the set, of queries of one change, of a query of 65,536 changes, and of the changes
//! to a set that differs in one object.

pub mod objects;
pub mod timing;
