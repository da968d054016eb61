// What the judge says of records that are strict, written or converted, and of readings: the pressure that
// is used, the mark and the fraction, and which reading a refusal is about. Promises about the definitions, so
// there is no code here.
#![tactic(auto)]
