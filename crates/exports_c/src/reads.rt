// Records read: their readings as arrays with a place for each meaning, as `records` takes them.
ghost use Rattle.std.specs.Prelude.{◌≡◌, true, false};
ghost use Rattle.exports.specs.Lent.{status_of};
ghost use Rattle.exports.specs.Reads.{form_of, double_for, count_for, each, read_in, array_after};

// The readings of a record, its tags in any order: each meaning's form, 0 absent, 1 a double or 2 a count;
// its double, whatever the form, 0 where it is absent; and its count's word by two's complement, 0 where
// it is none. Answers 0; or 255 where one of the three arrays has fewer than 7 places, else the cause, 5
// to 8, for which the record is not read; these leave the arrays as they were. The record is left.
#[unsafe(no_mangle)]
pub extern "C" fn station_air_read(
    record: &[u8],
    forms: &mut [u8],
    values: &mut [f64],
    counts: &mut [u32],
) -> u32
    ensures value { result ≡ status_of (read_in false forms.old values.old counts.old «record».now) }
    ensures forms_after { forms.new
        ≡ array_after form_of forms.old (read_in false forms.old values.old counts.old «record».now) }
    ensures values_after { values.new
        ≡ array_after double_for values.old (read_in false forms.old values.old counts.old «record».now) }
    ensures counts_after { counts.new
        ≡ array_after count_for counts.old (read_in false forms.old values.old counts.old «record».now) }
    ensures record_value { «record».now ≡ «record».now }
{
    exports::reads::station_air_read(record, forms, values, counts)
}

// The same by the strict reader, which refuses a tag below the one before it by 19.
#[unsafe(no_mangle)]
pub extern "C" fn station_air_read_strictly(
    record: &[u8],
    forms: &mut [u8],
    values: &mut [f64],
    counts: &mut [u32],
) -> u32
    ensures value { result ≡ status_of (read_in true forms.old values.old counts.old «record».now) }
    ensures forms_after { forms.new
        ≡ array_after form_of forms.old (read_in true forms.old values.old counts.old «record».now) }
    ensures values_after { values.new
        ≡ array_after double_for values.old (read_in true forms.old values.old counts.old «record».now) }
    ensures counts_after { counts.new
        ≡ array_after count_for counts.old (read_in true forms.old values.old counts.old «record».now) }
    ensures record_value { «record».now ≡ «record».now }
{
    exports::reads::station_air_read_strictly(record, forms, values, counts)
}
