//! Reads case.txt, plan.txt and tree.bin from the current folder, and prints one line.
#![tactic(auto)]

use files::reading::contents;
use std::io;
use verdict::judging::judge;

fn main(rt: HostRuntime) -> io::Result<()> {
    let case = contents(&rt, "case.txt");
    let plan = contents(&rt, "plan.txt");
    let tree = contents(&rt, "tree.bin");
    let line = judge(case.as_slice(), plan.as_slice(), tree.as_slice());
    println!(rt; "{line}")
}
