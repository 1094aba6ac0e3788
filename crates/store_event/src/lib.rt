// One event of the scanner log, read where it starts.
#![tactic(auto)]

ghost use Rattle.std.specs.Prelude.{◌≡◌, ◌+◌, ◌≤◌, ◌<◌, length};
ghost use Rattle.store_event.specs.Scan.{word_at, half_at, key_at, is_scan, scan_of, scan_at};

// Supplier and lot, their twelve bytes as three numbers.
#[derive(Clone, Copy)]
pub struct Key {
    pub supplier: u32,
    pub first: u32,
    pub second: u32,
}

// An event as it stands in the log.
#[derive(Drop)]
pub enum Scan {
    Received { key: Key, quantity: u16 },
    Issued { key: Key, quantity: u16 },
    Counted { key: Key, quantity: u16 },
    Day,
    Unknown,
    Cut,
}

fn wide(b: u8) -> u32
    ensures value { result ≡ b }
    ensures upper_bound { result < 256 }
{
    b as u32
}

// Four bytes as one number, the low one first.
fn word_at(log: &[u8], i: usize) -> u32
    requires { i + 4 ≤ length log.now }
    ensures { result ≡ word_at log.now i }
{
    wide(log[i]) + 256 * (wide(log[i + 1]) + 256 * (wide(log[i + 2]) + 256 * wide(log[i + 3])))
}

fn narrow(b: u8) -> u16
    ensures value { result ≡ b }
    ensures upper_bound { result < 256 }
{
    b as u16
}

// Two bytes as one number, the low one first.
fn half_at(log: &[u8], i: usize) -> u16
    requires { i + 2 ≤ length log.now }
    ensures { result ≡ half_at log.now i }
{
    narrow(log[i]) + 256 * narrow(log[i + 1])
}

// Twelve bytes as a key.
fn key_at(log: &[u8], i: usize) -> Key
    requires { i + 12 ≤ length log.now }
    ensures { result ≡ key_at log.now i }
{
    Key {
        supplier: word_at(log, i),
        first: word_at(log, i + 4),
        second: word_at(log, i + 8),
    }
}

// `R`, `I` or `C`.
fn is_scan(kind: u8) -> bool
    ensures { result ≡ is_scan kind }
{
    if kind == 82 {
        return true;
    }
    if kind == 73 {
        return true;
    }
    kind == 67
}

fn scan_of(kind: u8, key: Key, quantity: u16) -> Scan
    ensures { result ≡ scan_of kind key quantity }
{
    if kind == 82 {
        return Scan::Received { key, quantity };
    }
    if kind == 73 {
        return Scan::Issued { key, quantity };
    }
    Scan::Counted { key, quantity }
}

// The event that starts there.
pub fn scan_at(log: &[u8], at: usize) -> Scan
    requires { at < length log.now }
    ensures { result ≡ scan_at log.now at }
{
    let kind = log[at];
    let left = log.len() - at;
    if kind == 68 {
        if left < 5 {
            return Scan::Cut;
        }
        return Scan::Day;
    }
    if is_scan(kind) {
        if left < 15 {
            return Scan::Cut;
        }
        return scan_of(kind, key_at(log, at + 1), half_at(log, at + 13));
    }
    Scan::Unknown
}
