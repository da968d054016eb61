// The load for the acceptance bench.
ghost use Rattle.std.specs.Prelude.{◌≡◌};
ghost use Rattle.writer.specs.Written.{length_written, overwritten};
ghost use Rattle.load_text.specs.Records.{load_record};
ghost use Rattle.exports.specs.Lent.{status_of, length_or};

use crate::lent::put_length;
use load_text::records::write_load_record;

// Writes the load's record with this number, 0 for the first, and its length. 18 where `out` is shorter
// than the record, which leaves `out` and `length` as they were.
pub fn station_air_load_record(number: u64, out: &mut [u8], length: &mut usize) -> u32
    ensures value { result ≡ status_of (length_written (load_record number) out.old) }
    ensures out_after { out.new ≡ overwritten (load_record number) out.old }
    ensures length_after { length.new ≡ length_or length.old (length_written (load_record number) out.old) }
{
    put_length(length, write_load_record(number, out))
}
