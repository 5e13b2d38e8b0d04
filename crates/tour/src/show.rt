// How a sweep is printed.
use meters::{Mark, Panel, Reading, Totals};
use std::fmt;

// The columns of a tick's line.
pub const HEADING: &str = "tick  pulses |  count         | trip         | degrees        | gauge";

// One line of the sweep.
#[derive(Clone, Copy)]
pub struct Tick {
    pub number: usize,
    pub pulses: u32,
    pub panel: Panel,
}

// What stands behind a reading.
// No Display of Mark: blanks in front, and none where nothing happened, belong to this table.
fn word(mark: Mark) -> &'static str {
    match mark {
        Mark::Free => "",
        Mark::Held => " held",
        Mark::Wrapped => " wrapped",
    }
}

impl fmt::Display for Tick {
    fn fmt<W: fmt::Write>(&self, f: &mut fmt::Formatter<W>) -> fmt::Result {
        let Panel {
            count,
            trip,
            temperature,
            gauge,
        } = self.panel;
        write!(f, "{:>4}  {:>6} | ", self.number, self.pulses)?;
        write!(f, "{:>6}{:<8} | ", count.cell, word(count.mark))?;
        write!(f, "{:>4}{:<8} | ", trip.cell, word(trip.mark))?;
        write!(f, "{}", Degrees(temperature))?;
        write!(f, "{:<8} | ", word(temperature.mark))?;
        write!(f, "{:>3}{}", gauge.cell, word(gauge.mark))
    }
}

// A cell of signed tenths as degrees with one decimal, six characters wide.
#[derive(Clone, Copy)]
struct Degrees(Reading);

impl fmt::Display for Degrees {
    fn fmt<W: fmt::Write>(&self, f: &mut fmt::Formatter<W>) -> fmt::Result {
        let value = self.0.cell.cast_signed();
        let tenths = value.unsigned_abs();
        let indent = match tenths {
            0..=99 => "  ",
            100..=999 => " ",
            _ => "",
        };
        let sign = if value < 0 { '-' } else { ' ' };
        write!(f, "{indent}{sign}{}.{}", tenths / 10, tenths % 10)
    }
}

// The closing line of a sweep.
#[derive(Clone, Copy)]
pub struct Closing(pub Totals);

impl fmt::Display for Closing {
    fn fmt<W: fmt::Write>(&self, f: &mut fmt::Formatter<W>) -> fmt::Result {
        let Closing(all) = self;
        write!(f, "{} ticks, {} pulses: ", all.ticks, all.pulses)?;
        write!(f, "held in {} ticks, wrapped in {}", all.held, all.wrapped)
    }
}
