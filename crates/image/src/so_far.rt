// What the lines so far stand for, in numbers.
ghost use Rattle.std.specs.Prelude.{◌≤◌};
ghost use Rattle.image.specs.Image.{max_heap, max_image_roots};

// How many lines were read, the address that the last `word` line names, keep length, and how many roots and words there are:
// no more of these than an image may have.
#[derive(Clone, Copy)]
pub struct SoFar {
    pub lines: usize,
    pub last: usize,
    pub keep: usize,
    pub roots: usize,
    pub words: usize,
    ghost roots_in: { roots ≤ max_image_roots },
    ghost words_in: { words ≤ max_heap },
}
