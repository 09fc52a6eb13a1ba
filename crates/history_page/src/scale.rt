//! Spans of time, and where a moment stands on a line that shows one.
ghost use Rattle.std.specs.Prelude.{◌≤◌, ◌+◌};

use html_text::Spot;
use vnfm_base::Moment;

/// A line's length, in hundredths of a per cent of it.
pub const WHOLE: u32 = 10_000;

/// A span of time, in milliseconds since 1970-01-01T00:00:00Z.
#[derive(Clone, Copy)]
pub struct Span {
    /// Its first moment.
    pub from: u64,
    /// Its last moment.
    pub to: u64,
}

impl Span {
    /// The span with this moment too, or this moment alone.
    pub fn with(span: Option<Span>, moment: Moment) -> Span {
        let also = moment.milliseconds();
        match span {
            Some(span) => Span {
                from: span.from.min(also),
                to: span.to.max(also),
            },
            None => Span {
                from: also,
                to: also,
            },
        }
    }

    /// How long it is, in milliseconds.
    pub fn length(&self) -> u64 {
        self.to.saturating_sub(self.from)
    }

    /// Where a moment stands on a line that shows the span, in hundredths of a per cent; at an end where it is outside.
    pub fn share(&self, moment: u64) -> u32
        ensures { result ≤ 10_000 }
    {
        let length = self.length();
        if length == 0 {
            return 0;
        }
        let passed = moment.saturating_sub(self.from).min(length);
        (passed.saturating_mul(u64::from(WHOLE)) / length).min(u64::from(WHOLE)) as u32
    }

    /// The rectangle from one moment to another, at least `least` wide, this far down and this high. It doesn't leave the
    /// line.
    pub fn bar(&self, times: &Span, least: u32, y: u32, height: u32) -> Spot
        ensures { result.x + result.width ≤ 10_000 }
    {
        let (left, right) = (self.share(times.from), self.share(times.to));
        let width = right.saturating_sub(left).max(least).min(WHOLE);
        Spot {
            x: left.min(WHOLE.saturating_sub(width)),
            y,
            width,
            height,
        }
    }
}

/// The milliseconds from one moment to another; 0 where that is before it.
pub fn between(from: Moment, to: Moment) -> u64 {
    to.milliseconds().saturating_sub(from.milliseconds())
}

/// The steps between marks that a line may have, in milliseconds: 1 ms to 1 s, minutes, hours and days.
const STEPS: [u64; 24] = [
    1,
    10,
    100,
    500,
    1_000,
    2_000,
    5_000,
    10_000,
    30_000,
    60_000,
    120_000,
    300_000,
    600_000,
    1_800_000,
    3_600_000,
    7_200_000,
    10_800_000,
    21_600_000,
    43_200_000,
    86_400_000,
    172_800_000,
    604_800_000,
    2_592_000_000,
    31_536_000_000,
];

/// At most so many marks stand on a line.
const MARKS: u64 = 9;

/// The step between the marks of a line that is so many milliseconds long: the least that gives few enough.
pub fn step_for(length: u64) -> u64 {
    for step in STEPS.iter() {
        if *step != 0 && length / *step < MARKS {
            return *step;
        }
    }
    length / MARKS + 1
}
