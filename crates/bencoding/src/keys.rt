//! Which bytes a key may have after another.

ghost use Rattle.std.specs.Prelude.{◌≡◌, ◌≤◌, ◌<◌, length, Some, option_map};
ghost use Rattle.bencoding.specs.declared.values.TheConstants.{STRING_LIMIT};
ghost use Rattle.bencoding.specs.steps.Keys.{run, least, IsStopFound};

/// How many bytes of 255 are at the front.
fn run_length(bytes: &[u8]) -> usize
    ensures same { result ≡ run bytes.now }
    ensures within { result ≤ length bytes.now }
{
    let mut at = 0;
    while at < bytes.len() && bytes[at] == 255 {
        at += 1;
    }
    at
}

/// The length of the shortest key after another, or after none.
pub fn least_length(before: Option<&[u8]>) -> u64
    ensures { result ≡ least (option_map (λ key. key.now) before.entry) }
{
    match before {
        Some(key) => run_length(key) as u64 + 1,
        None => 0,
    }
}

/// The first place at which the front of a key of some length stops being that of a key after another.
fn first_stop(key: &[u8], front: &[u8], long: usize) -> Option<usize>
    requires fits { length front.now ≤ long }
    requires least { run key.now < long }
    requires limit { long ≤ STRING_LIMIT }
    ensures { IsStopFound (Some key.now) front.now long result }
{
    for at in 0..front.len() {
        if at == key.len() {
            return None;
        }
        if front[at] > key[at] {
            return None;
        }
        if front[at] < key[at] {
            return Some(at);
        }
        if key[at] < 255 && long - at - 1 <= run_length(&key[at + 1..]) {
            return Some(at);
        }
    }
    None
}

/// The same, also after none.
pub fn stop_of(before: Option<&[u8]>, front: &[u8], long: usize) -> Option<usize>
    requires fits { length front.now ≤ long }
    requires least { least (option_map (λ key. key.now) before) ≤ long }
    requires limit { long ≤ STRING_LIMIT }
    ensures { IsStopFound (option_map (λ key. key.now) before.entry) front.now long result }
{
    match before {
        Some(key) => first_stop(key, front, long),
        None => None,
    }
}
