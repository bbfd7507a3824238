//! The address of an index as it is given on a command line.
ghost use Rattle.std.specs.Prelude.{◌≡◌, ◌≢◌, ◌↔◌, ℕ, List, None, Some, IsTrue, IfOk, IfErr, OnOk, MatchOption, codes};
ghost use Rattle.relay_target.specs.Addresses.{Has, HasFront, IsHostName, IsOnePart, IsPort, JudgesParts, ReadsParts, Strips};
ghost use Rattle.relay_target.specs.Addresses.{SplitsPort, StripsScheme, StripsSlash};

/// Why a text is not the address of an index.
#[derive(Clone, Copy, Debug, PartialEq, Eq)]
pub enum AddressFault {
    /// It begins with `https://`.
    Secure,
    /// It has no port: there is no colon, or what follows the last one is part of an address of
    /// version 6.
    NoPort,
    /// What precedes the last colon is not a host, or what follows it is not a port.
    Form,
}

/// The address in a text, `HOST:PORT`: the text without `http://` before it and without one `/`
/// after it. HOST is not empty and has neither `/` nor `@`, and it has a colon only in brackets;
/// PORT is a number from 1 to 65535.
pub fn read_address(text: &str) -> Result<&str, AddressFault>
    ensures ok { IfOk result (λ a. Strips text.now a.now × ReadsParts a.now None) }
    ensures secure { IfErr result (λ e. e ≡ AddressFault.Secure
        → HasFront text.now (codes "https://")) }
    ensures other { IfErr result (λ e. e ≢ AddressFault.Secure
        → (HasFront text.now (codes "https://") → ⊥)
        × (address : List ℕ) × Strips text.now address × ReadsParts address (Some e)) }
    ensures plain { OnOk result (HasFront text.now (codes "https://") → ⊥) }
{
    if text.starts_with("https://") {
        return Err(AddressFault::Secure);
    }
    let address = without_slash(without_scheme(text));
    match fault_of(address) {
        None => Ok(address),
        Some(fault) => Err(fault),
    }
}

fn without_scheme(text: &str) -> &str
    ensures { StripsScheme text.now result.now }
{
    match text.strip_prefix("http://") {
        Some(rest) => rest,
        None => text,
    }
}

fn without_slash(text: &str) -> &str
    ensures { StripsSlash text.now result.now }
{
    match text.strip_suffix("/") {
        Some(rest) => rest,
        None => text,
    }
}

// Why this is not a host and a port.
fn fault_of(address: &str) -> Option<AddressFault>
    ensures { ReadsParts address.now result }
{
    match split_port(address) {
        Some((host, port)) => fault_of_parts(host, port),
        None => Some(AddressFault::NoPort),
    }
}

// What comes before the last colon, and what comes after it.
fn split_port(address: &str) -> Option<(&str, &str)>
    ensures { MatchOption result (Has address.now (codes ":") → ⊥)
        (λ parts. SplitsPort address.now parts.0.now parts.1.now) }
{
    address.rsplit_once(":")
}

// Why these are not a host and a port.
fn fault_of_parts(host: &str, port: &str) -> Option<AddressFault>
    ensures { JudgesParts host.now port.now result }
{
    if port.ends_with("]") {
        return Some(AddressFault::NoPort);
    }
    if !is_host_name(host) {
        return Some(AddressFault::Form);
    }
    if !is_port(port) {
        return Some(AddressFault::Form);
    }
    None
}

fn is_host_name(host: &str) -> bool
    ensures { IsTrue result ↔ IsHostName host.now }
{
    !host.is_empty() && !has(host, "/") && !has(host, "@") && is_one_part(host)
}

// Whether a colon is only in brackets.
fn is_one_part(host: &str) -> bool
    ensures { IsTrue result ↔ IsOnePart host.now }
{
    if !has(host, ":") {
        return true;
    }
    host.starts_with("[") && host.ends_with("]")
}

fn has(text: &str, part: &str) -> bool
    ensures { IsTrue result ↔ Has text.now part.now }
{
    text.contains(part)
}

fn is_port(port: &str) -> bool
    ensures { IsTrue result ↔ IsPort port.now }
{
    !port.starts_with("+") && matches!(port.parse::<u16>(), Ok(number) if number > 0)
}
