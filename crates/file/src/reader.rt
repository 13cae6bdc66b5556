// A reader of a model file: what it has begun, and the bytes still to be read.
ghost use Rattle.std.specs.Prelude.{◌+◌, ◌*◌, ◌≤◌, length};
ghost use Rattle.file.specs.Entry.{section_count};

pub mod steps;

#[derive(Debug, Clone, Copy)]
pub struct Reader<'a> {
    rest: &'a [u8],
    // the file's length
    size: usize,
    // how many sections have begun, which is the number of the last of them
    section: u8,
    // the section's entry that is to come, and how many are left
    entry: u16,
    left: u16,
    ghost within: { length rest.now ≤ size },
    ghost known: { section ≤ section_count },
    ghost begun: { left ≤ 65535 * section },
    ghost numbered: { entry + left ≤ 65535 },
}
