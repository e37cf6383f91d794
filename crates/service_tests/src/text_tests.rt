//! What is reported about a run, and about what ends it early.

use ballot::NodeId;
use ports::Fault;
use service::Verdict;
use std::net::{IpAddr, Ipv4Addr};
use std::test::*;

#[test]
fn verdicts_are_told(rt: HostRuntime) -> Result<(), Fail> {
    let node = NodeId::new(9).ok_or("no node")?;
    for (verdict, line, status) in [
        (Verdict::Legal, "audit ok\n", 0),
        (Verdict::NoOrder(node), "audit no order at node 9\n", 1),
        (
            Verdict::WrongAnswer(0),
            "audit wrong answer in session 0\n",
            1,
        ),
        (
            Verdict::WrongAnswer(1_234),
            "audit wrong answer in session 1234\n",
            1,
        ),
        (Verdict::Memory, "audit no memory\n", 1),
    ] {
        assert_eq!(rt; verdict.line(rt.alloc())?.as_str(), line);
        assert_eq!(rt; verdict.status(), status);
    }
    Ok(())
}

/// What the program prints on standard error, and its exit status.
const FAULTS: &[(Fault, &str, u8)] = &[
    (Fault::Value, "bad value", 2),
    (Fault::Account(12), "accounts line 12", 2),
    (Fault::NameTwice(2), "accounts line 2: name twice", 2),
    (Fault::NoAccounts, "accounts: none", 2),
    (
        Fault::Listen(IpAddr::V4(Ipv4Addr::LOCALHOST), 65_535),
        "cannot listen on 127.0.0.1:65535",
        1,
    ),
    (
        Fault::ListenSocket,
        "cannot listen on the operator's socket",
        1,
    ),
    (Fault::Reach(1), "cannot reach 127.0.0.1:1", 1),
    (Fault::ReachSocket, "cannot reach the operator's socket", 1),
    (Fault::Log, "cannot open the log", 1),
    (Fault::InUse, " is in use", 1),
    (Fault::NotBegun, " was not begun", 1),
    (Fault::NotEmpty, " is not empty", 1),
    (
        Fault::Damaged(3, 120),
        "/00000003.log is damaged at byte 120",
        1,
    ),
    (Fault::Missing(3), "/00000003.log is missing", 1),
    (Fault::NoteDamaged, "/clean is damaged", 1),
    (Fault::NoMajority, "no majority", 1),
    (Fault::Memory, "no memory", 1),
    (Fault::Read, "read failed", 1),
    (Fault::Write, "write failed", 1),
];

#[test]
fn faults_are_told(rt: HostRuntime) -> Result<(), Fail> {
    for (fault, text, status) in FAULTS {
        assert_eq!(rt; format!(in rt.alloc(); "{fault}")?.as_str(), *text);
        assert_eq!(rt; fault.status(), *status);
    }
    Ok(())
}
