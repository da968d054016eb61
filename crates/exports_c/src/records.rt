// Records written: of readings as arrays with a place for each meaning, and of records in the other form.
ghost use Rattle.std.specs.Prelude.{◌≡◌, true, false, length};
ghost use Rattle.writer.specs.Conversion.{length_converted, converted, written_in};
ghost use Rattle.exports.specs.Lent.{status_of, length_or};
ghost use Rattle.exports.specs.Records.{array_record, length_in, out_after};

// Writes the record of readings, fields rising by tag, and its length: each meaning has a form, 0 absent,
// 1 a double or 2 a count, a value and a count's word by two's complement, of which the form's counts.
// Answers 0; or 255 where one of the three arrays has fewer than 7 places, else 254 where one of the
// first 7 forms is unknown, else 18 where `out` is shorter than the record; these leave `out` and
// `length` as they were. The arrays are left.
#[unsafe(no_mangle)]
pub extern "C" fn station_air_write(
    forms: &[u8],
    values: &[f64],
    counts: &[u32],
    out: &mut [u8],
    length: &mut usize,
) -> u32
    ensures value { result ≡ status_of (length_in out.old (array_record forms.now values.now counts.now)) }
    ensures out_after { out.new ≡ out_after out.old (array_record forms.now values.now counts.now) }
    ensures length_after { length.new
        ≡ length_or length.old (length_in out.old (array_record forms.now values.now counts.now)) }
    ensures forms_value { forms.now ≡ forms.now }
    ensures values_value { values.now ≡ values.now }
    ensures counts_value { counts.now ≡ counts.now }
{
    exports::records::station_air_write(forms, values, counts, out, length)
}

// Writes the record converted to counts, fields in their old order, and its length. Answers 0; or a cause
// 5 to 8, then 20, then 18, which leave `out` and `length` as they were. The record is left.
#[unsafe(no_mangle)]
pub extern "C" fn station_air_to_counts(record: &[u8], out: &mut [u8], length: &mut usize) -> u32
    ensures value { result ≡ status_of (length_converted true «record».now out.old) }
    ensures out_after { out.new ≡ written_in (converted true «record».now) out.old }
    ensures length_after { length.new ≡ length_or length.old (length_converted true «record».now out.old) }
    ensures record_value { «record».now ≡ «record».now }
{
    exports::records::station_air_to_counts(record, out, length)
}

// Writes the record converted to doubles, likewise; no double is refused by 20.
#[unsafe(no_mangle)]
pub extern "C" fn station_air_to_doubles(record: &[u8], out: &mut [u8], length: &mut usize) -> u32
    ensures value { result ≡ status_of (length_converted false «record».now out.old) }
    ensures out_after { out.new ≡ written_in (converted false «record».now) out.old }
    ensures length_after { length.new ≡ length_or length.old (length_converted false «record».now out.old) }
    ensures record_value { «record».now ≡ «record».now }
{
    exports::records::station_air_to_doubles(record, out, length)
}
