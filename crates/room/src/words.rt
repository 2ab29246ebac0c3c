// The room's words, read and written without a limit: past the end every word is 0, and nothing is written there.
ghost use Rattle.std.specs.Prelude.{◌≡◌, ◌+◌, min, get_or, set};
ghost use Rattle.room.specs.Frame.{held};

// A word; past the end, 0.
pub fn word(room: &[u32], i: usize) -> u32
    ensures { result ≡ get_or room.now i 0 }
{
    room.get(i).copied().unwrap_or(0)
}

// The word so many after another.
pub fn word_after(room: &[u32], base: usize, n: usize) -> u32
    ensures { result ≡ get_or room.now (base + n) 0 }
{
    match base.checked_add(n) {
        Some(i) => word(room, i),
        None => 0,
    }
}

// A word written, if there is room for it.
pub fn put(room: &mut [u32], i: usize, w: u32)
    ensures { room.new ≡ set room.old i w }
{
    if i < room.len() {
        room[i] = w;
    }
}

// The word so many after another written.
pub fn put_after(room: &mut [u32], base: usize, n: usize, w: u32)
    ensures { room.new ≡ set room.old (base + n) w }
{
    if let Some(i) = base.checked_add(n) {
        put(room, i, w);
    }
}

// What a word holds of a number.
pub fn hold(n: usize) -> u32
    ensures { result ≡ held n }
{
    u32::try_from(n).unwrap_or(u32::MAX)
}
