// The bytes of one record, and of the longest answer to one: the same for every key.
pub use program::page::{PAGE_SIZE, RECORD_SIZE};
