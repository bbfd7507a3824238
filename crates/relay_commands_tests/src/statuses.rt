//! The exit status of each command.
use relay_commands::apply::ApplyFault;
use relay_commands::exit::{exit_of, exit_of_apply};
use relay_commands::lines::LinesFault;
use relay_ndjson::{InputFault, LineKind};
use relay_words::Exit;

#[test]
fn statuses(rt: HostRuntime) {
    let rows = [
        (Exit::Done, 0u8),
        (Exit::Usage, 1),
        (Exit::Input, 2),
        (Exit::Device, 3),
        (Exit::Memory, 4),
        (Exit::Reported, 5),
    ];
    for (exit, status) in rows {
        assert!(rt; exit.status() == status);
    }
}

#[test]
fn statuses_of_lines(rt: HostRuntime) {
    let read = InputFault {
        line: 1,
        kind: LineKind::Read,
    };
    let rows = [
        (LinesFault::Memory, Exit::Memory),
        (LinesFault::VersionsSpent { line: 1 }, Exit::Input),
        (LinesFault::Input(read), Exit::Device),
        (LinesFault::Write { sent: 3 }, Exit::Device),
    ];
    for (fault, exit) in rows {
        assert!(rt; exit_of(fault) == exit);
    }
}

#[test]
fn statuses_of_apply(rt: HostRuntime) {
    let rows = [
        (ApplyFault::BodyLong, Exit::Input),
        (ApplyFault::Read, Exit::Device),
        (ApplyFault::Write { sent: 3 }, Exit::Device),
        (ApplyFault::Memory, Exit::Memory),
    ];
    for (fault, exit) in rows {
        assert!(rt; exit_of_apply(fault) == exit);
    }
}
