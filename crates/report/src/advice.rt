// What is said of a refusal: the number, the reading that it is about, its cause and what to do.
#![tactic(auto, using(pages::proofs::Putting::puts), unfolding(crate::specs::Advice::cause_lines, crate::specs::Advice::refused_lines))]

ghost use Rattle.std.specs.Prelude.{◌≡◌};
ghost use Rattle.refusal.specs.Refusals.{number_of};
ghost use Rattle.pages.specs.Pages.{put};
ghost use Rattle.report.specs.Fault.{named};
ghost use Rattle.report.specs.Advice.{reading_line, cause_of, sender_advice, typed_advice, advice_for, cause_lines, refused_lines};

use crate::Origin;
use crate::fault::reading_of;
use fields::fields::{
    ALTITUDE, DENSITY_ALTITUDE, HUMIDITY, MEASURED_PRESSURE, QNH, STATION_PRESSURE, TEMPERATURE,
};
use pages::Page;
use record::entries::Readings;
use refusal::{Refusal, number};

// The line that names a reading, and no bytes where there is none.
#[tactic(auto, unfolding(crate::specs::Advice::reading_line))]
fn reading_line(meaning: Option<usize>) -> &'static [u8]
    ensures { result.now ≡ reading_line (named meaning) }
{
    match meaning {
        Some(ALTITUDE) => b"reading: altitude\n",
        Some(TEMPERATURE) => b"reading: temperature\n",
        Some(STATION_PRESSURE) => b"reading: station pressure\n",
        Some(QNH) => b"reading: QNH\n",
        Some(HUMIDITY) => b"reading: humidity\n",
        Some(DENSITY_ALTITUDE) => b"reading: density altitude\n",
        Some(MEASURED_PRESSURE) => b"reading: measured pressure\n",
        _ => b"",
    }
}

// The cause of a number in words: that of 15 for all that has none of its own.
#[tactic(auto, unfolding(crate::specs::Advice::cause_of))]
fn cause_of(number: u8) -> &'static [u8]
    ensures { result.now ≡ cause_of number }
{
    match number {
        1 => b"density altitude not finite",
        2 => b"temperature not finite",
        3 => b"temperature at or below -273.15 C",
        4 => b"no air has this density altitude",
        5 => b"header or data cut",
        6 => b"unknown tag",
        7 => b"length not 8 (double) or 4 (count)",
        8 => b"tag repeated, or a reading in both forms",
        9 =>
            b"two of station pressure, QNH and measured pressure, or a density altitude with an altitude or a pressure",
        10 => b"neither altitude nor density altitude",
        11 => b"altitude, a pressure or humidity not finite",
        12 => b"a pressure not above 0 hPa",
        13 => b"humidity below 0 or above 100 percent",
        14 => b"more water vapour than there is air",
        17 => b"a figure wider than its column",
        _ => b"a figure not finite, or pressure, density or sound speed not above 0",
    }
}

// What to do with a record.
#[tactic(auto, unfolding(crate::specs::Advice::sender_advice))]
fn sender_advice(number: u8) -> &'static [u8]
    ensures { result.now ≡ sender_advice number }
{
    match number {
        1 => b"the sender computed it from a missing reading: mend that",
        2 => b"the thermometer is unplugged or broken",
        3 => b"wrong unit, or a raw count sent as degrees",
        4 => b"check the unit: feet sent as metres, or a height far outside the air",
        5 => b"not sent whole: read it again, check the line",
        6 | 7 => b"the sender speaks a newer form, or the bytes have slipped",
        8 => b"two sensors answer for one reading: switch one off",
        9 =>
            b"send one pressure; send a density altitude with nothing but temperature and humidity",
        10 => b"set the mast's altitude",
        11 => b"that sensor is unplugged or broken",
        12 => b"wrong unit, or a barometer without power",
        13 => b"calibrate the hygrometer",
        14 => b"temperature, humidity and pressure do not belong together: check each",
        17 => b"check altitude and pressure",
        _ => b"no such air: check temperature and pressure",
    }
}

// What to do at the keyboard.
#[tactic(auto, unfolding(crate::specs::Advice::typed_advice))]
fn typed_advice(number: u8) -> &'static [u8]
    ensures { result.now ≡ typed_advice number }
{
    match number {
        3 => b"type degrees Celsius, as temperature=24, or temperature=75F",
        4 => b"type metres, as density-altitude=2100, or density-altitude=7000ft",
        9 =>
            b"give one of pressure=, station-pressure= and qnh=; density-altitude= stands without altitude= and a pressure",
        10 => b"add altitude=1586 with the altitude of the park",
        11 => b"check the altitude and the pressure, and their units",
        12 => b"type the pressure in hPa, as pressure=841.9",
        13 => b"type percent, as humidity=32",
        _ => sender_advice(number),
    }
}

fn advice_for(origin: Origin, number: u8) -> &'static [u8]
    ensures { result.now ≡ advice_for origin number }
{
    match origin {
        Origin::Record => sender_advice(number),
        Origin::Words(_) => typed_advice(number),
    }
}

// The lines with the cause of a number and what to do, by where the readings come from.
pub fn put_cause(page: &mut Page<'_>, origin: Origin, number: u8)
    ensures { page.new ≡ put page.old (cause_lines origin number) }
{
    page.put(b"cause: ");
    page.put(cause_of(number));
    page.put(b"\nwhat to do: ");
    page.put(advice_for(origin, number));
    page.put(b"\n");
}

// What is said of readings that are refused.
pub fn put_refused(page: &mut Page<'_>, origin: Origin, readings: Readings, refusal: Refusal)
    ensures { page.new ≡ put page.old (refused_lines origin readings (number_of refusal)) }
{
    let number = number(refusal);
    page.put_refusal(number);
    page.put(reading_line(reading_of(readings, refusal)));
    put_cause(page, origin, number);
}
