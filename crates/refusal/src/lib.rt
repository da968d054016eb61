// Why readings are refused: the causes of document 01's table and of document 02, each with its number
// and the values that it hands out, and how one check follows another.
#![tactic(auto)]

pub mod inverse;
pub mod judge;

ghost use Rattle.std.specs.Prelude.{◌≡◌, [], ◌∷◌};
ghost use Rattle.refusal.specs.Refusals.{number_of, values_of, listed};
ghost use Rattle.refusal.specs.Outcomes.{row, passed, ◌⟫◌, outcome};

#[derive(Clone, Copy)]
pub enum Refusal {
    // the density altitude
    DensityAltitudeNotFinite(f64),
    // the temperature
    TemperatureNotFinite(f64),
    TemperatureTooLow(f64),
    // the density altitude and the altitude that it resolves to
    NoAir(f64, f64),
    // a header or data
    Cut,
    UnknownTag,
    WrongLength,
    RepeatedTag,
    // fields that exclude each other
    Clash,
    // neither altitude nor density altitude
    NoAltitude,
    // the value
    NotFinite(f64),
    PressureNotPositive(f64),
    HumidityOutOfRange(f64),
    // more water vapour than there is air
    TooMuchVapor,
    // a figure that is not finite, or a pressure, density or sound speed that is not above 0
    NotAir,
    // a page of fewer bytes than a sheet has
    PageTooShort,
    // a figure that is wider than its column
    TooWide,
    // a record's buffer
    BufferTooShort,
    // a tag below the one before it
    TagFalls,
    // a double that no count gives
    NoCount,
    // a field that is in one or two of three records
    FieldNotInAll,
    // no temperature or no measured pressure
    NoReadingToChange,
}

// The number of a cause.
pub fn number(refusal: Refusal) -> u8
    ensures { result ≡ number_of refusal }
{
    match refusal {
        Refusal::DensityAltitudeNotFinite(_) => 1,
        Refusal::TemperatureNotFinite(_) => 2,
        Refusal::TemperatureTooLow(_) => 3,
        Refusal::NoAir(_, _) => 4,
        Refusal::Cut => 5,
        Refusal::UnknownTag => 6,
        Refusal::WrongLength => 7,
        Refusal::RepeatedTag => 8,
        Refusal::Clash => 9,
        Refusal::NoAltitude => 10,
        Refusal::NotFinite(_) => 11,
        Refusal::PressureNotPositive(_) => 12,
        Refusal::HumidityOutOfRange(_) => 13,
        Refusal::TooMuchVapor => 14,
        Refusal::NotAir => 15,
        Refusal::PageTooShort => 16,
        Refusal::TooWide => 17,
        Refusal::BufferTooShort => 18,
        Refusal::TagFalls => 19,
        Refusal::NoCount => 20,
        Refusal::FieldNotInAll => 21,
        Refusal::NoReadingToChange => 22,
    }
}

// The values that a cause hands out.
#[derive(Clone, Copy)]
pub enum Values {
    None,
    One(f64),
    Two(f64, f64),
}

// The values that a cause hands out.
pub fn handed_out(refusal: Refusal) -> Values
    ensures { listed result ≡ values_of refusal }
{
    match refusal {
        Refusal::DensityAltitudeNotFinite(d) => Values::One(d),
        Refusal::TemperatureNotFinite(t) => Values::One(t),
        Refusal::TemperatureTooLow(t) => Values::One(t),
        Refusal::NoAir(d, altitude_m) => Values::Two(d, altitude_m),
        Refusal::Cut => Values::None,
        Refusal::UnknownTag => Values::None,
        Refusal::WrongLength => Values::None,
        Refusal::RepeatedTag => Values::None,
        Refusal::Clash => Values::None,
        Refusal::NoAltitude => Values::None,
        Refusal::NotFinite(x) => Values::One(x),
        Refusal::PressureNotPositive(p) => Values::One(p),
        Refusal::HumidityOutOfRange(h) => Values::One(h),
        Refusal::TooMuchVapor => Values::None,
        Refusal::NotAir => Values::None,
        Refusal::PageTooShort => Values::None,
        Refusal::TooWide => Values::None,
        Refusal::BufferTooShort => Values::None,
        Refusal::TagFalls => Values::None,
        Refusal::NoCount => Values::None,
        Refusal::FieldNotInAll => Values::None,
        Refusal::NoReadingToChange => Values::None,
    }
}

// The check for one cause: its refusal where the cause holds.
pub fn refuse_if(cause: bool, refusal: Refusal) -> Result<(), Refusal>
    ensures { outcome result ≡ passed (row cause (number_of refusal) (values_of refusal) ∷ []) }
{
    if cause { Err(refusal) } else { Ok(()) }
}

// The first refusal of two checks, if there is one.
pub fn first_of(a: Result<(), Refusal>, b: Result<(), Refusal>) -> Result<(), Refusal>
    ensures { outcome result ≡ (outcome a ⟫ (λ _. outcome b)) }
{
    a.and(b)
}
