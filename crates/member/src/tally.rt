//! The tally of an application after steps in a row.
use applications::{
    Application, ApplicationFault, Asked, RingFault, RingRegister, SegmentStock, StockFault, Tally,
    run_steps,
};
use std::fmt::Display;

// Where a step is refused: its place, behind what steps are called, and why.
fn show_stop<F: TryFrom<ApplicationFault, Error = ApplicationFault> + Display + Drop>(
    rt: &HostRuntime,
    tally: &Tally,
    step: &str,
) -> anyhow::Result<()> {
    if let Some(stop) = tally.stop {
        let number = stop.fault.number;
        if let Ok(fault) = F::try_from(stop.fault) {
            println!(rt;
                "  {step} {} is refused, number {number}: {fault}",
                stop.place
            )?;
        }
    }
    Ok(())
}

// `rings` and `stock` differ in the application, its faults and every text, so one function for both would be longer.

/// The tally of ring records.
pub(crate) fn rings(rt: &HostRuntime, steps: &[Asked]) -> anyhow::Result<()> {
    let tally = run_steps::<RingRegister>(steps);
    println!(rt;
        "Tally of ring records: rings {}, left of the axis {}",
        tally.a, tally.b
    )?;
    show_stop::<RingFault>(rt, &tally, "record")
}

/// The tally of a segment stock.
pub(crate) fn stock(rt: &HostRuntime, steps: &[Asked]) -> anyhow::Result<()> {
    let tally = run_steps::<SegmentStock>(steps);
    println!(rt;
        "Tally of the stock: segments here {}, arrived {}",
        tally.a, tally.b
    )?;
    show_stop::<StockFault>(rt, &tally, "step")
}
