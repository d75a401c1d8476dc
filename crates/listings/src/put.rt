// Numbers put into an output, in decimal. Private to the crate.
ghost use Rattle.std.specs.Prelude.{◌++◌};
ghost use Rattle.outputs.specs.Appends.{Appends};

use itoa::{Buffer, Integer};
use outputs::Output;

// A text, and the decimal digits of an integer after it, with its sign where it is below 0.
pub fn number<I: Integer>(out: &mut Output, before: &[u8], value: I)
    ensures { Appends out.old (before.now ++ I.text value) out.new }
{
    out.text(before);
    out.text(Buffer::new().format(value).as_bytes());
}
