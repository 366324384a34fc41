// Records of the list moved by one.
ghost use Rattle.std.specs.Prelude.{◌≡◌, ◌+◌, ◌≤◌, length};
ghost use Rattle.split.specs.Moves.{raised, lowered};

// The words from `at` up to `to` go up by two, and a record is stored in the gap.
pub(crate) fn up(list: &mut [u32], at: usize, to: usize, start: u32, size: u32)
    requires { (at ≤ to) × (to + 2 ≤ length list.old) }
    ensures { list.new ≡ raised at to start size list.old }
{
    list.copy_within(at..to, at + 2);
    list[at] = start;
    list[at + 1] = size;
}

// The record at `at` goes, the n words behind it go down by two, and the record that they leave is zeroed.
pub(crate) fn down(list: &mut [u32], at: usize, n: usize)
    requires { at + n + 2 ≤ length list.old }
    ensures { list.new ≡ lowered at n list.old }
{
    let end = at + n;
    list.copy_within(at + 2..end + 2, at);
    list[end] = 0;
    list[end + 1] = 0;
}
