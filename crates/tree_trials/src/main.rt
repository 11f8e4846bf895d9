//! Judges each case folder with its tree that index.txt names, and prints its name and line.
#![tactic(auto)]

use files::reading::contents;
use std::fs;
use verdict::judging::judge;

// As in the trials of two files: two programs of a few lines are plainer apart than over a library for both.
fn judge_folder(rt: &HostRuntime, name: &str) -> anyhow::Result<()> {
    let case_path = format!(in rt.alloc(); "{name}/case.txt")?;
    let plan_path = format!(in rt.alloc(); "{name}/plan.txt")?;
    let tree_path = format!(in rt.alloc(); "{name}/tree.bin")?;
    let case = contents(rt, case_path.as_str());
    let plan = contents(rt, plan_path.as_str());
    let tree = contents(rt, tree_path.as_str());
    let line = judge(case.as_slice(), plan.as_slice(), tree.as_slice());
    println!(rt; "{name}: {line}")?;
    Ok(())
}

fn main(rt: HostRuntime) -> anyhow::Result<()> {
    let index = fs::read_to_string(&rt, "index.txt")?;
    for name in index.as_str().lines() {
        judge_folder(&rt, name)?;
    }
    Ok(())
}
