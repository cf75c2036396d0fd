//! Prints the starred figures, which are proved, and tries them and the others on the engine.
#![tactic(auto)]

mod figure;
mod others;
mod starred;

use figure::{Figure, try_figure};
use others::other_figures;
use starred::starred_figures;
use std::io;

fn main(rt: HostRuntime) -> io::Result<()> {
    println!(rt; "Starred figures, proved of the definitions and tried on the engine:")?;
    print_tried(rt, &starred_figures())?;
    println!(rt; "Figures tried on the engine only:")?;
    print_tried(rt, &other_figures())
}

fn print_tried(rt: HostRuntime, figures: &[Figure]) -> io::Result<()> {
    for figure in figures {
        println!(rt; "  {figure} ({})", found(*figure))?;
    }
    Ok(())
}

/// How the trial of a figure went.
fn found(figure: Figure) -> &'static str {
    if try_figure(figure) {
        "as given"
    } else {
        "NOT AS GIVEN"
    }
}
