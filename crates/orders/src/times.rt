// The clock times of a service day, which starts at 23:00 of the day before.
ghost use Rattle.std.specs.Prelude.{◌≡◌, ◌+◌, ◌*◌, ◌%◌, ◌<◌};

use std::fmt;

// The hour and the minute at which a half hour of the day begins, counted in minutes round the clock.
fn clock(half: u16) -> (u16, u16)
    ensures { (result.0 * 60 + result.1 ≡ (1380 + 30 * half) % 1440) × (result.1 < 60) }
{
    ((23 + half / 2) % 24, half % 2 * 30)
}

// The time at which a half hour of the day begins, as 23:00 for half hour 0.
#[derive(Clone, Copy, Debug, PartialEq, Eq)]
pub struct Time {
    pub half_hour: u16,
}

impl fmt::Display for Time {
    fn fmt<W: fmt::Write>(&self, f: &mut fmt::Formatter<W>) -> fmt::Result {
        let (hour, minute) = clock(self.half_hour);
        write!(f, "{hour:02}:{minute:02}")
    }
}
