//! Names with several addresses, over a network that counts what is tried.

ghost use Rattle.std.specs.Prelude.{None};

use relay_net::{Reach, TcpDial};
use relay_wires::{Dial, DialFault};
use std::io::ErrorKind;
use std::net::{HostAddrs, Ipv4Addr, SocketAddr};
use std::process::Abort;
use std::time::Duration;

// A network in which each name has addresses with the ports 1, 2 and so on.
#[derive(Drop)]
struct Named {
    // How many addresses a name has; why it is unknown, if it is.
    count: u16,
    unknown: Option<ErrorKind>,
    // The port that accepts, and why the last and the other ones fail.
    accepts: u16,
    others: ErrorKind,
    last: ErrorKind,
    // The limit that is expected.
    limit: Option<Duration>,
    // The ports that were tried, as digits.
    tried: u64,
}

impl Reach for &mut Named {
    type Stream = ();

    ghost did = { λ n. None };

    fn look_up(&mut self, _name: &str) -> Result<HostAddrs, ErrorKind> {
        if let Some(why) = self.unknown {
            return Err(why);
        }
        let first = SocketAddr::from((Ipv4Addr::LOCALHOST, 1));
        let mut found = [first; 32];
        found[1] = SocketAddr::from((Ipv4Addr::LOCALHOST, 2));
        found[2] = SocketAddr::from((Ipv4Addr::LOCALHOST, 3));
        Ok(found.into_iter().take(self.count as usize))
    }

    fn connect(&mut self, address: SocketAddr, limit: Option<Duration>) -> Result<(), ErrorKind> {
        let port = address.port();
        self.tried = self.tried.wrapping_mul(10).wrapping_add(port as u64);
        if port == self.accepts && limit == self.limit {
            return Ok(());
        }
        Err(if port == self.count {
            self.last
        } else {
            self.others
        })
    }
}

// The fault of a dial with this limit, and the ports that it tried.
fn dials(
    rt: &(impl Abort + AllocGlobal),
    mut network: Named,
    limit: u32,
) -> (Option<DialFault>, u64) {
    network.limit = match limit {
        0 => None,
        _ => Some(Duration::from_secs(limit as u64)),
    };
    let name = "a name:1".to_string(rt.alloc()).expect(rt, "memory");
    let fault = TcpDial::over(&mut network, name)
        .with_timeout(limit)
        .dial()
        .err();
    (fault, network.tried)
}

const REFUSED: ErrorKind = ErrorKind::ConnectionRefused;

const LATE: ErrorKind = ErrorKind::TimedOut;

const BUSY: ErrorKind = ErrorKind::WouldBlock;

const OTHER: ErrorKind = ErrorKind::NotFound;

// How many addresses the name has, why it is unknown, which accepts, why the others and the last
// fail, and the fault and what was tried.
const ROWS: &[(
    u16,
    Option<ErrorKind>,
    u16,
    ErrorKind,
    ErrorKind,
    (Option<DialFault>, u64),
)] = &[
    (1, None, 1, OTHER, OTHER, (None, 1)),
    (3, None, 1, OTHER, OTHER, (None, 1)),
    (3, None, 2, REFUSED, OTHER, (None, 12)),
    (3, None, 3, LATE, OTHER, (None, 123)),
    (3, None, 9, LATE, REFUSED, (Some(DialFault::Refused), 123)),
    (3, None, 9, REFUSED, LATE, (Some(DialFault::TimedOut), 123)),
    (2, None, 9, REFUSED, BUSY, (Some(DialFault::TimedOut), 12)),
    (
        2,
        None,
        9,
        REFUSED,
        OTHER,
        (Some(DialFault::Unreachable), 12),
    ),
    (
        0,
        None,
        1,
        REFUSED,
        REFUSED,
        (Some(DialFault::Unreachable), 0),
    ),
    (
        3,
        Some(OTHER),
        1,
        REFUSED,
        REFUSED,
        (Some(DialFault::Unreachable), 0),
    ),
    (
        3,
        Some(LATE),
        1,
        REFUSED,
        REFUSED,
        (Some(DialFault::TimedOut), 0),
    ),
];

#[test]
fn addresses_in_turn(rt: HostRuntime) {
    for (count, unknown, accepts, others, last, wanted) in ROWS {
        for limit in [0, 5] {
            let network = Named {
                count: *count,
                unknown: *unknown,
                accepts: *accepts,
                others: *others,
                last: *last,
                limit: None,
                tried: 0,
            };
            let found = dials(&rt, network, limit);
            assert!(rt; found == *wanted, "{count} addresses, {accepts} accepts");
        }
    }
}
