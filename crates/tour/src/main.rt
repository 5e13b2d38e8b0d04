// A guided tour: a sweep of a pulse generator from standstill to the red line, then words taken apart, then a book drafted, then drafts checked.
#![tactic(auto)]

mod checking;
mod drafting;
mod letters;
mod parts;
mod show;
mod spelling;

use meters::Panel;

// The pulses of each tick.
const PULSES: [u32; 12] = [0, 5, 10, 15, 20, 30, 40, 50, 60, 70, 80, 90];

// One sweep of the pulse generator.
fn show_sweep(rt: &HostRuntime) -> anyhow::Result<()> {
    let mut panels = [Panel::standstill(); PULSES.len()];
    meters::sweep(Panel::standstill(), &PULSES, &mut panels)?;
    println!(rt; "A pulse generator sweeps from standstill to the red line.")?;
    println!(rt; "{}", show::HEADING)?;
    for (i, (pulses, panel)) in PULSES.iter().zip(panels.iter()).enumerate() {
        let tick = show::Tick {
            number: i,
            pulses: *pulses,
            panel: *panel,
        };
        println!(rt; "{tick}")?;
    }
    let closing = show::Closing(meters::add_up(&PULSES, &panels));
    println!(rt; "{closing}")?;
    Ok(())
}

fn run(rt: &HostRuntime) -> anyhow::Result<()> {
    show_sweep(rt)?;
    parts::show_words(rt)?;
    checking::show_checks(rt)
}

fn main(rt: HostRuntime) -> anyhow::Result<()> {
    run(&rt)
}
