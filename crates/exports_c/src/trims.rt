// The trim class of a density, and how close the next one is.
ghost use Rattle.std.specs.Prelude.{◌≡◌};
ghost use Rattle.trim.specs.Classes.{trim_class};
ghost use Rattle.exports.specs.Lent.{status_of, values_after};
ghost use Rattle.exports.specs.Trims.{trim_in, answer_after};

// The trim class of a density, kg/m3.
#[unsafe(no_mangle)]
pub extern "C" fn station_air_trim_class(density_kg_m3: f64) -> u32
    ensures { result ≡ trim_class density_kg_m3 }
{
    exports::trims::station_air_trim_class(density_kg_m3)
}

// The trim class of a record and the smallest change of its temperature or measured pressure that gives
// another, as four numbers in `answer`: the class, the tag of the field changed, 2 or 7, the tenths with
// their sign, and the new class; 0, 0 and the class again where no change does. Or the record's refusal,
// or 22 where one of the two is absent, with its values in `lent`. The record is left as it was.
#[unsafe(no_mangle)]
pub extern "C" fn station_air_next_trim_class(
    record: &[u8],
    lent: &mut [f64],
    answer: &mut [i32],
) -> u32
    ensures value { result ≡ status_of (trim_in lent.old answer.old «record».now) }
    ensures lent_after { lent.new ≡ values_after lent.old (trim_in lent.old answer.old «record».now) }
    ensures answer_after { answer.new
        ≡ answer_after answer.old (trim_in lent.old answer.old «record».now) }
    ensures record_value { «record».now ≡ «record».now }
{
    exports::trims::station_air_next_trim_class(record, lent, answer)
}
