// The counts of the load's records, five outputs of the generator for each record.
#![tactic(auto, unfolding(crate::specs::Counts::counts_of, crate::specs::Counts::drawn))]

ghost use Rattle.std.specs.Prelude.{◌≡◌, ◌^◌, ◌<◌, ◌≤◌};
ghost use Rattle.std.specs.Int.Signed.{mag};
ghost use Rattle.load_text.specs.Counts.{count_in, counts_of, drawn, load_counts};

use super::splitmix::{grown, mixed, state_after, wrapping_mul};

// Thousandths of a metre, of a degree Celsius, of a hectopascal and of a percent, and whether the record
// has its humidity.
#[derive(Clone, Copy)]
pub struct LoadCounts {
    pub altitude: i32,
    pub temperature: i32,
    pub pressure: i32,
    pub humidity: i32,
    pub humid: bool,
}

// The counts of one record, and the state from which the next is drawn.
#[derive(Clone, Copy)]
pub struct Drawn {
    pub counts: LoadCounts,
    pub state: u64,
}

// A count from `low` on, of so many in the range.
fn count_in(low: i32, range: u64, output: u64) -> i32
    requires { (mag low < 2 ^ 30) × (0 < range) × (range ≤ 2 ^ 30) }
    ensures { result ≡ count_in low range output }
{
    low + (output % range) as i32
}

fn counts_of(altitude: u64, temperature: u64, pressure: u64, humidity: u64, dry: u64) -> LoadCounts
    ensures { result ≡ counts_of altitude temperature pressure humidity dry }
{
    LoadCounts {
        altitude: count_in(-500_000, 3_500_001, altitude),
        temperature: count_in(-40_000, 90_001, temperature),
        pressure: count_in(600_000, 500_001, pressure),
        humidity: count_in(0, 100_001, humidity),
        humid: dry % 2 == 0,
    }
}

// The counts of the next five outputs from a state, and the state after them.
fn draw(state: u64) -> Drawn
    ensures { result ≡ drawn state }
{
    let altitude = grown(state);
    let temperature = grown(altitude);
    let pressure = grown(temperature);
    let humidity = grown(pressure);
    let dry = grown(humidity);
    Drawn {
        counts: counts_of(
            mixed(altitude),
            mixed(temperature),
            mixed(pressure),
            mixed(humidity),
            mixed(dry),
        ),
        state: dry,
    }
}

// The counts of the load's record with this number, 0 for the first.
pub fn load_counts(number: u64) -> LoadCounts
    ensures { result ≡ load_counts number }
{
    let drawn = draw(state_after(wrapping_mul(number, 5)));
    drawn.counts
}
