//! Schedule files: numbers, orders, the faults of both, and the reader and the writer.
#![tactic(auto)]

// A file that grows one order at a time.
mod appending;
// Faults, and the layer that each arises in.
mod fault;
// The limits of a file.
mod limit;
// Numbers in groups of seven bits.
pub mod number;
// The orders of a file, as an iterator.
mod order_iter;
// An order and its number.
mod order_number;
// The arm count of a file, and the order at a place of it.
pub mod parts;
// The reader.
mod reader;
// A file whose length is tested, and a schedule: a file that was gone through whole.
mod schedule_file;
// The writer, and why it refuses.
mod writer;

pub use appending::{append, start};
pub use fault::{Layer, NumberFault, PlayFault, ScheduleFault};
pub use limit::{ARM_LIMIT, FILE_LIMIT, LARGEST_NUMBER};
pub use order_iter::Orders;
pub use order_number::Order;
pub use reader::{check, read};
pub use schedule_file::{File, Heading, Schedule};
pub use writer::{WriteRefusal, is_lawful, write};
