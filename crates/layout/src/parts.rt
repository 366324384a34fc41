// Words of a buffer.
ghost use Rattle.std.specs.Prelude.{◌≡◌, length, replicate};

// Makes every word 0. (A name for `fill`, since the rules name the lending of a part to it.)
pub fn clear(part: &mut [u32])
    ensures { part.new ≡ replicate (length part.old) 0 }
{
    part.fill(0);
}
