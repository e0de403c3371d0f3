// Plans that need no layer.
use crate::show::{show_plan, show_title};
use pad::Bench;
use std::io;

// 254 times power-on, then load-keys, align and seal.
fn long_row() -> [u16; 257] {
    let mut row = [0; 257];
    row[254..].copy_from_slice(&[1, 2, 3]);
    row
}

fn show(rt: &HostRuntime, title: &str, plan: &[u16]) -> io::Result<()> {
    show_title(rt, title)?;
    show_plan(rt, &Bench, plan, Bench.judge(plan))
}

pub fn show_plans(rt: &HostRuntime) -> io::Result<()> {
    show(rt, "no step", &[])?;
    show(rt, "the plain service", &[0, 1, 2, 3])?;
    show(rt, "seal too early", &[0, 3])?;
    show(rt, "an unknown action", &[0, 1, 6, 3])?;
    let row = long_row();
    show(rt, "256 steps", &row[1..])?;
    show(rt, "257 steps", &row)
}
