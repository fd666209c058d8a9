// The row of a refusal, and the place that it tells.
ghost use Rattle.std.specs.Prelude.{◌≡◌};
ghost use Rattle.refusals.specs.Rows.{is_drop, row_of, told_by};

use crate::refusal::Refusal;

impl Refusal {
    // The number of the refusal's row.
    pub fn row(self) -> u8
        ensures { result ≡ row_of self }
    {
        match self {
            Refusal::Size => 1,
            Refusal::Agenda => 2,
            Refusal::Scheme => 3,
            Refusal::Used => 4,
            Refusal::Processor => 10,
            Refusal::Item => 11,
            Refusal::Faulty => 12,
            Refusal::Sound => 13,
            Refusal::Spare => 14,
            Refusal::Moment => 15,
            Refusal::Wait => 16,
            Refusal::Sender => 17,
            Refusal::Opened => 18,
            Refusal::Value => 19,
            Refusal::Offset => 20,
            Refusal::End => 21,
            Refusal::Due(_) => 22,
            Refusal::Flight => 23,
            Refusal::Frame => 30,
            Refusal::Row => 31,
            Refusal::Code => 32,
            Refusal::Long => 33,
            Refusal::First => 34,
            Refusal::Link(_) => 35,
            Refusal::Own(_) => 36,
            Refusal::Forged(_) => 37,
            Refusal::Early => 38,
            Refusal::Late => 39,
            Refusal::Closed => 40,
            Refusal::Same => 41,
            Refusal::Full => 42,
            Refusal::Signer => 50,
            Refusal::Text => 51,
            Refusal::Room => 52,
            Refusal::Line => 60,
        }
    }

    // The link or the flight that the refusal tells, if it tells one.
    pub fn told(self) -> Option<u8>
        ensures { result ≡ told_by self }
    {
        match self {
            Refusal::Due(flight) => Some(flight),
            Refusal::Link(place) | Refusal::Own(place) | Refusal::Forged(place) => Some(place),
            _ => None,
        }
    }

    // Whether a received frame is dropped by this row.
    pub fn is_drop(self) -> bool
        ensures { result ≡ is_drop self }
    {
        (30..=42).contains(&self.row())
    }
}
