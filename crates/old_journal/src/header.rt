// The header of a journal file of format 1.
ghost use Rattle.std.specs.Prelude.{◌≡◌, ◌⊎◌, ◌≤◌, ◌<◌, ◌↔◌, ℕ, IsTrue, length, take, drop, get_or, MatchOption};
ghost use Rattle.std.specs.Int.{w32, from_be_bytes};
ghost use Rattle.old_journal.specs.File.{header};
ghost use Rattle.old_journal.specs.Header.{made, MayStand, DiffersAt, HasHeader};
ghost use Rattle.old_journal.specs.Judged.{Judged, LongEnough};

/// The bytes of a header of format 1 whose manager has the number 0.
pub const HEADER: [u8; 32] = [
    86, 78, 70, 77, 45, 76, 67, 77, 1, 0, 0, 0, 0, 0, 0, 0, 0, 0, 0, 0, 0, 0, 0, 0, 0, 0, 0, 0, 0,
    0, 0, 0,
];

/// What the first bytes of a file say of its header.
#[derive(Clone, Copy)]
pub enum HeaderState {
    /// The header of the manager of this number.
    Made(u32),
    /// The file is unfinished.
    Unmade,
    /// It differs first at this place from every header.
    Foreign(u64),
}

/// What the first 33 bytes of a file, or all where it has fewer, say of its header.
pub fn judge(front: &[u8]) -> HeaderState
    requires { length front.now ≤ 33 }
    ensures judged { Judged front.now result }
    ensures long { LongEnough (length front.now) result }
{
    if front.len() < 2 || front[0] == b'v' {
        return HeaderState::Unmade;
    }
    if front[0] != b'V' {
        return if is_rest_of_made(front) {
            HeaderState::Unmade
        } else {
            HeaderState::Foreign(0)
        };
    }
    match difference(front) {
        Some(place) => HeaderState::Foreign(place),
        None => HeaderState::Made(manager_of(front)),
    }
}

// The number of the manager whose header these bytes begin with.
fn manager_of(front: &[u8]) -> u32
    requires { (k : ℕ) → k < 32 → MayStand k front.now }
    ensures { HasHeader result front.now }
{
    number_at(front)
}

// The number in bytes 9 to 12.
fn number_at(front: &[u8]) -> u32
    requires { 13 ≤ length front.now }
    ensures { result ≡ from_be_bytes w32 (take 4 (drop 9 front.now)) }
{
    u32::from_be_bytes([front[9], front[10], front[11], front[12]])
}

// Whether bytes 1 to 32 are those of a made file with no record.
fn is_rest_of_made(front: &[u8]) -> bool
    requires { length front.now ≤ 33 }
    ensures { IsTrue result ↔ ((m : ℕ) × (take 32 (drop 1 front.now) ≡ drop 1 (made m))) }
{
    if front.len() != 33 {
        return false;
    }
    if front[1..9] != HEADER[1..9] {
        return false;
    }
    front[13..33] == [0u8; 20]
}

// The first place of a header at which these bytes have none that may stand there.
fn difference(front: &[u8]) -> Option<u64>
    ensures { MatchOption result ((k : ℕ) → k < 32 → MayStand k front.now) (λ place. DiffersAt place front.now) }
{
    for place in 0..32usize {
        if !stands(front, place) {
            return Some(place as u64);
        }
    }
    None
}

// Whether these bytes have one at this place that a header may have there.
fn stands(front: &[u8], place: usize) -> bool
    requires { place < 32 }
    ensures { IsTrue result ↔ MayStand place front.now }
{
    if place >= front.len() {
        return false;
    }
    if is_of_number(place) {
        return true;
    }
    front[place] == HEADER[place]
}

// Whether a byte of the manager's number stands at this place.
fn is_of_number(place: usize) -> bool
    ensures { IsTrue result ↔ ((9 ≤ place) × (place ≤ 12)) }
{
    9 <= place && place <= 12
}
