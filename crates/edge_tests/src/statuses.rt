use std::test::Fail;
use udp_run::Status;

/// How a run ends, and the exit status that is documented for it.
const NUMBERS: [(Status, u8); 9] = [
    (Status::Done, 0),
    (Status::NotProved, 1),
    (Status::CaseRefused, 2),
    (Status::ProofRefused, 3),
    (Status::Usage, 4),
    (Status::ReadFault, 5),
    (Status::WriteFault, 6),
    (Status::Limit, 7),
    (Status::NoMemory, 8),
];

#[test]
fn each_status_has_its_number(rt: HostRuntime) -> Result<(), Fail> {
    for (status, number) in NUMBERS {
        assert_eq!(rt; status.code(), number, "{status:?}");
    }
    Ok(())
}
