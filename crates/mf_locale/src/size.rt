ghost use Rattle.std.specs.Prelude.{IsTrue};
ghost use Rattle.mf_numfmt.specs.Sizes.{is_size};

/// The number of digits of a group, from 1 to 9.
#[derive(Clone, Copy, Debug)]
pub struct GroupSize {
    pub digits: u32,
    ghost fits: { IsTrue (is_size digits) },
}
