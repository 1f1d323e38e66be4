// The day's record that the kiosk keeps: its readings, and the points that have none.
use crate::note::Note;
use crate::words::Reading;
use arrayvec::ArrayVec;
use std::fmt;

// Readings are hundredths of a mg/l; the points without one are counted by their reason.
#[derive(Drop)]
pub(crate) struct Day {
    readings: ArrayVec<u32, 8>,
    below: u32,
    empty: u32,
    unknown: u32,
}

impl Day {
    pub(crate) fn new() -> Self {
        Day {
            readings: ArrayVec::new(),
            below: 0,
            empty: 0,
            unknown: 0,
        }
    }

    // Records what an answer was, and answers what was recorded: a reading for which no place is left is not understood.
    pub(crate) fn record(&mut self, note: Note) -> Note {
        match note {
            Note::Reading(reading) => {
                if self.readings.try_push(reading).is_err() {
                    self.unknown = self.unknown.saturating_add(1);
                    return Note::NotUnderstood;
                }
            }
            Note::Below => self.below = self.below.saturating_add(1),
            Note::Empty => self.empty = self.empty.saturating_add(1),
            Note::NotUnderstood | Note::Rejected => self.unknown = self.unknown.saturating_add(1),
            Note::Told(_) | Note::Answered | Note::Refused => {}
        }
        note
    }

    fn missing(&self) -> u32 {
        let unread = self.below.saturating_add(self.empty);
        unread.saturating_add(self.unknown)
    }

    // The mean over so many points.
    fn mean(&self, points: u32) -> Mean {
        let readings = self.readings.as_slice();
        let sum = readings
            .iter()
            .fold(0_u32, |sum, &reading| sum.saturating_add(reading));
        Mean { sum, points }
    }
}

impl fmt::Display for Day {
    fn fmt<W: fmt::Write>(&self, f: &mut fmt::Formatter<W>) -> fmt::Result {
        let taken = self.readings.len() as u32;
        let missing = self.missing();
        let points = taken.saturating_add(missing);
        let Day {
            below,
            empty,
            unknown,
            ..
        } = self;
        writeln!(f, "\nThe day's record: {points} points")?;
        write!(f, "   {:<18}{taken}:", "readings")?;
        for &reading in self.readings.as_slice() {
            write!(f, "{}", Reading(reading))?;
        }
        writeln!(f, " mg/l")?;
        writeln!(f, "   {:<17}{}", "mean", self.mean(taken))?;
        writeln!(
            f,
            "   {:<18}{missing}: {below} below detection, {empty} without a value, {unknown} not understood",
            "no reading"
        )?;
        writeln!(
            f,
            "   {:<18}the {missing} missing readings would have made the mean{}",
            "taken for zeros",
            self.mean(points)
        )
    }
}

// The mean over some points, rounded down to a hundredth, behind a space.
#[derive(Clone, Copy)]
struct Mean {
    sum: u32,
    points: u32,
}

impl fmt::Display for Mean {
    fn fmt<W: fmt::Write>(&self, f: &mut fmt::Formatter<W>) -> fmt::Result {
        match self.sum.checked_div(self.points) {
            Some(mean) => write!(f, "{} mg/l", Reading(mean)),
            None => write!(f, " none"),
        }
    }
}
