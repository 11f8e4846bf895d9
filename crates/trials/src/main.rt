//! Judges each case folder that index.txt names, and prints its name and line.
#![tactic(auto)]

use files::judging::judge_files;
use files::reading::contents;
use std::fs;

fn judge_folder(rt: &HostRuntime, name: &str) -> anyhow::Result<()> {
    let case_path = format!(in rt.alloc(); "{name}/case.txt")?;
    let plan_path = format!(in rt.alloc(); "{name}/plan.txt")?;
    let case = contents(rt, case_path.as_str());
    let plan = contents(rt, plan_path.as_str());
    let line = judge_files(case.as_slice(), plan.as_slice());
    println!(rt; "{name}: {line}")?;
    Ok(())
}

fn main(rt: HostRuntime) -> anyhow::Result<()> {
    let index = fs::read_to_string(&rt, "index.txt")?;
    for name in index.as_str().lines() {
        judge_folder(&rt, name)?;
    }
    Ok(())
}
