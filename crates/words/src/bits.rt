// Bits of the map.
ghost use Rattle.std.specs.Prelude.{◌≡◌, ◌*◌, ◌/◌, ◌≤◌, ◌<◌, length};
ghost use Rattle.words.specs.Map.{bit_at, set_bit, is_start};

// Whether bit a of the map is set.
pub fn is_set(map: &[u32], a: usize) -> bool
    requires { a / 32 < length map.now }
    ensures { result ≡ bit_at map.now a }
{
    let w = a / 32;
    let b = a % 32;
    (map[w] >> b) % 2 == 1
}

// Whether an object starts at a on the map of a heap of so many words; a may be any number.
pub fn is_start(map: &[u32], words: usize, a: usize) -> bool
    requires { words ≤ 32 * length map.now }
    ensures { result ≡ is_start words map.now a }
{
    if !((0 < a) & (a < words)) {
        return false;
    }
    is_set(map, a)
}

// Sets bit a of the map.
pub fn set(map: &mut [u32], a: usize)
    requires { a / 32 < length map.old }
    ensures { map.new ≡ set_bit map.old a }
{
    let w = a / 32;
    let b = a % 32;
    map[w] = map[w] | 1u32 << b;
}
