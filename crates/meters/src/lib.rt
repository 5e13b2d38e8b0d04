// A pulse generator feeds four meters, each of its own number kind.
#![tactic(auto)]

ghost use Rattle.std.specs.Prelude.{Some, codes, ◌≡◌, true, length, take, sum, count_by, nat_le, is_ok};
ghost use Rattle.meters.specs.Sweep.{fed, free as untouched, standstill, ticked, shows as shown, filled, last_of, SoundPanel, Steady, AddsUp, totals_of};

use numbers::{Limits, NumberKind, PulseCount, SignedTenths, TripRing};
use std::error::Error;
use std::fmt;

// The upper end of the gauge.
const RED_LINE: u32 = 300;

// What happened to a reading on its way: nothing, it stopped at an end, or it went past one and came round.
#[derive(Clone, Copy, Debug, PartialEq, Eq)]
pub enum Mark {
    Free,
    Held,
    Wrapped,
}

// What a meter reads, and what happened on the way there.
#[derive(Clone, Copy, Debug, PartialEq, Eq)]
pub struct Reading {
    pub cell: u32,
    pub mark: Mark,
}

// The four meters: a pulse count, a trip ring, a temperature in tenths of a degree, and a gauge with a red line.
#[derive(Clone, Copy, Debug, PartialEq, Eq)]
pub struct Panel {
    pub count: Reading,
    pub trip: Reading,
    pub temperature: Reading,
    pub gauge: Reading,
}

// The ticks and pulses of a sweep, and the ticks in which some meter was held or wrapped.
#[derive(Clone, Copy, Debug, PartialEq, Eq)]
pub struct Totals {
    pub ticks: usize,
    pub pulses: u128,
    pub held: usize,
    pub wrapped: usize,
}

// The buffer of a sweep is shorter than its ticks.
#[derive(Clone, Copy, Debug, PartialEq, Eq)]
pub struct TooFewPanels;

impl fmt::Display for TooFewPanels {
    ghost output = { λ _. Some (codes "too few panels for the ticks") };

    fn fmt<W: fmt::Write>(&self, f: &mut fmt::Formatter<W>) -> fmt::Result {
        f.write_str("too few panels for the ticks")
    }
}

impl Error for TooFewPanels {}

// What a meter of any kind reads once the pulses are added. Where taking them away again does not lead back,
// it was held; where it then reads less than before, it wrapped.
pub fn feed<K: NumberKind>(kind: &K, before: u32, pulses: u32) -> Reading
    ensures { result ≡ fed (K.NumberKind.meaning kind.now) before pulses }
{
    let cell = kind.plus(before, pulses);
    let mark = if kind.minus(cell, pulses) != before {
        Mark::Held
    } else if !kind.atmost(before, cell) {
        Mark::Wrapped
    } else {
        Mark::Free
    };
    Reading { cell, mark }
}

// A reading to which nothing happened.
fn free(cell: u32) -> Reading
    ensures { result ≡ untouched cell }
{
    Reading {
        cell,
        mark: Mark::Free,
    }
}

impl Panel {
    // The meters before the first tick.
    pub fn standstill() -> Panel
        ensures value { result ≡ standstill }
        ensures lawful { SoundPanel result }
    {
        Panel {
            count: free(999_700),
            trip: free(9_800),
            temperature: free((-200i32).cast_unsigned()),
            gauge: free(0),
        }
    }

    // The meters after one more tick with so many pulses.
    pub fn tick(&self, pulses: u32) -> Panel
        ensures { result ≡ ticked self.now pulses }
    {
        let gauge = Limits::new(PulseCount, 0, RED_LINE);
        Panel {
            count: feed(&PulseCount, self.count.cell, pulses),
            trip: feed(&TripRing, self.trip.cell, pulses),
            temperature: feed(&SignedTenths, self.temperature.cell, pulses),
            gauge: feed(&gauge, self.gauge.cell, pulses),
        }
    }

    // Does some meter have the mark?
    pub fn shows(&self, mark: Mark) -> bool
        ensures { result ≡ shown mark self.now }
    {
        // Tried as `any` over an array of the four: the clause then does not close by itself.
        self.count.mark == mark
            || self.trip.mark == mark
            || self.temperature.mark == mark
            || self.gauge.mark == mark
    }
}

// Puts the panel after each tick into the caller's buffer and leaves what follows; an error where the buffer is too short.
// However the pulses are spread over the ticks, the last panel has their sum added at once.
pub fn sweep(start: Panel, pulses: &[u32], panels: &mut [Panel]) -> Result<(), TooFewPanels>
    ensures fits { is_ok result ≡ nat_le (length pulses.now) (length panels.old) }
    ensures fills { panels.new ≡ filled start pulses.now panels.old }
    ensures adds_up { is_ok result ≡ true → SoundPanel start → Steady pulses.now → AddsUp start pulses.now (last_of start (take (length pulses.now) panels.new)) }
{
    if pulses.len() > panels.len() {
        return Err(TooFewPanels);
    }
    let mut panel = start;
    // Written by index: in a loop over `iter_mut().zip(..)` no invariant can name the buffer.
    for (i, n) in pulses.iter().enumerate() {
        panel = panel.tick(*n);
        panels[i] = panel;
    }
    Ok(())
}

fn sum_of(pulses: &[u32]) -> u128
    ensures { result ≡ sum pulses.now }
{
    pulses.iter().map(|n| u128::from(*n)).sum()
}

// In how many ticks some meter has the mark.
fn ticks_with(panels: &[Panel], mark: Mark) -> usize
    ensures { result ≡ count_by (shown mark) panels.now }
{
    panels.iter().filter(|panel| panel.shows(mark)).count()
}

// The totals of a sweep: its ticks, its pulses, and the ticks in which some meter was held or wrapped.
pub fn add_up(pulses: &[u32], panels: &[Panel]) -> Totals
    ensures { result ≡ totals_of pulses.now panels.now }
{
    Totals {
        ticks: panels.len(),
        pulses: sum_of(pulses),
        held: ticks_with(panels, Mark::Held),
        wrapped: ticks_with(panels, Mark::Wrapped),
    }
}
