//! The law of writers: a function that does nothing, and whose contract is proved.

ghost use Rattle.std.specs.Prelude.{◌≡◌};

use crate::write::RedisWrite;
use crate::writer::ArgWriter;

/// A writer that is dropped leaves the list that it writes to as it is.
pub fn law_of_dropped_writers<W: RedisWrite>(writer: ArgWriter<'_, W>)
    ensures { writer.exit.0.now ≡ writer.entry.out.now }
{}
