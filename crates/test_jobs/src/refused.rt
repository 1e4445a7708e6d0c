//! Calls that may run out of memory. If one does, its object answers as before, and the same call made again does what
//! it was to do. The gate refuses no memory; `tools/refuse_allocations` runs these tests with each allocation refused
//! in turn.

mod barriers;
mod landing;
mod rounds;
mod tables;
mod trees;
