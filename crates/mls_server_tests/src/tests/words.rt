//! What faults are called. Pages of the program have the texts of all that these write.
use mls_edgerule::{RuleFault, RuleFaultKind};
use mls_server::OpenFault;
use mls_tech::{TechFault, TechFaultKind};
use mls_wire::LineFault;
use std::alloc::Global;
use std::fmt::Display;
use std::process::Abort;
use std::test::Fail;

/// Asserts the text of a fault.
fn expect_text<T: Display>(
    rt: &impl Abort,
    alloc: Global,
    fault: &T,
    text: &str,
) -> Result<(), Fail> {
    let shown = format!(in alloc; "{fault}")?;
    assert_eq!(rt; shown.as_str(), text);
    Ok(())
}

#[test]
fn faults_in_words(rt: HostRuntime) -> Result<(), Fail> {
    expect_text(&rt, rt.alloc(), &LineFault::BadName, "name")?;
    expect_text(&rt, rt.alloc(), &OpenFault::PoolFull, "pool full")
}

#[test]
fn faults_of_technologies_in_words(rt: HostRuntime) -> Result<(), Fail> {
    let of_file = TechFault {
        line: 3,
        kind: TechFaultKind::NotUtf8,
    };
    let of_rules = RuleFault {
        line: 142,
        kind: RuleFaultKind::TooManyRules,
    };
    expect_text(&rt, rt.alloc(), &of_file, "line 3: not UTF-8")?;
    expect_text(&rt, rt.alloc(), &of_rules, "line 142: too many rules")
}
